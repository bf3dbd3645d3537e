//! The law of a certificate's bytes.

ghost use Rattle.std.specs.Prelude.{◌≡◌, ◌⊎◌, ℕ, List, Ok};
ghost use Rattle.kc_cert.specs.declared.certificate.Certificate.{Certificate};
ghost use Rattle.kc_certform.specs.CertBytes.{CertBytes1, CertBytes2};
ghost use Rattle.kc_certform.specs.HasSpelling.{HasSpelling};
ghost use Rattle.kc_certexact.specs.Exact.{AreBytes};
ghost use Rattle.kc_certfmt.specs.Reading.{cert_at};
ghost use Rattle.kc_spellings.specs.Values.{IsCertificate};

/// The two spellings of a certificate are what is read: each is read as this certificate, and what is
/// read is spelled in one of the two ways.
pub fn two_spellings()
    ensures plain { (cert : Certificate) → IsCertificate cert → HasSpelling cert → cert_at (CertBytes1 cert) ≡ Ok cert }
    ensures shared { (cert : Certificate) → IsCertificate cert → HasSpelling cert → cert_at (CertBytes2 cert) ≡ Ok cert }
    ensures valid { (bytes : List ℕ) (cert : Certificate) → AreBytes bytes → cert_at bytes ≡ Ok cert → IsCertificate cert }
    ensures spelled { (bytes : List ℕ) (cert : Certificate) → AreBytes bytes → cert_at bytes ≡ Ok cert → HasSpelling cert }
    ensures one { (bytes : List ℕ) (cert : Certificate) → AreBytes bytes → cert_at bytes ≡ Ok cert
        → (bytes ≡ CertBytes1 cert) ⊎ (bytes ≡ CertBytes2 cert) }
{}
