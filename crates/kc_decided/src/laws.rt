//! What is decided by definitions that are relations.

ghost use Rattle.std.specs.Prelude.{◌≡◌, ◌⊎◌, ℕ, List, Ok};
ghost use Rattle.kc_image.specs.Image.{Contents};
ghost use Rattle.kc_regions.specs.Description.{Description};
ghost use Rattle.kc_regions.specs.Valid.{IsValid};
ghost use Rattle.kc_config.specs.declared.fault.ConfigFault.{ConfigFault};
ghost use Rattle.kc_config.specs.Reading.{description, IsRuleFault};
ghost use Rattle.kc_cert.specs.Certified.{IsCertified};
ghost use Rattle.kc_cert.specs.FirstRefusal.{IsFirstRefusal};
ghost use Rattle.kc_cert.specs.declared.certificate.Certificate.{Certificate};
ghost use Rattle.kc_cert.specs.declared.certificate.Digests.{Digests};
ghost use Rattle.kc_cert.specs.declared.refusal.Refusal.{Refusal};

/// A description that a text gives is valid or breaks a first rule between its parts; that fault is one, and a valid
/// description has none.
pub fn one_rule_fault()
    ensures at_least_one { (symbols : List (List ℕ × ℕ)) (text : List ℕ) (d : Description)
        → description symbols text ≡ Ok d → ((fault : ConfigFault) × IsRuleFault d fault) ⊎ IsValid d }
    ensures at_most_one { (d : Description) (e f : ConfigFault) → IsRuleFault d e → IsRuleFault d f → e ≡ f }
    ensures none { (d : Description) (e : ConfigFault) → IsValid d → ¬ IsRuleFault d e }
{}

/// A certificate is certified or has a first refusal; that refusal is one, and a certified certificate has none.
pub fn one_refusal()
    ensures at_least_one { (image : Contents) (d : Description) (digests : Digests) (cert : Certificate)
        → IsCertified image d digests cert ⊎ ((r : Refusal) × IsFirstRefusal image d digests cert r) }
    ensures at_most_one { (image : Contents) (d : Description) (digests : Digests) (cert : Certificate) (r s : Refusal)
        → IsFirstRefusal image d digests cert r → IsFirstRefusal image d digests cert s → r ≡ s }
    ensures none { (image : Contents) (d : Description) (digests : Digests) (cert : Certificate) (r : Refusal)
        → IsCertified image d digests cert → ¬ IsFirstRefusal image d digests cert r }
{}
