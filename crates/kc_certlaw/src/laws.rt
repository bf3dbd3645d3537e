//! The law of what is read.

ghost use Rattle.std.specs.Prelude.{◌≡◌, ℕ, List, Ok};
ghost use Rattle.kc_cert.specs.declared.certificate.Certificate.{Certificate};
ghost use Rattle.kc_certform.specs.HasSpelling.{HasSpelling};
ghost use Rattle.kc_certfmt.specs.Reading.{cert_at};

/// A certificate that is read from bytes has a spelling, as the writers require.
pub fn read_has_spelling()
    ensures spelled { (bytes : List ℕ) (cert : Certificate) → cert_at bytes ≡ Ok cert → HasSpelling cert }
{}
