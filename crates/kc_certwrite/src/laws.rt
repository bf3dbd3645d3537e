//! The law of spellings.

ghost use Rattle.kc_regions.specs.Description.{Description};
ghost use Rattle.kc_regions.specs.Valid.{IsValid};
ghost use Rattle.kc_cert.specs.Form.{HasForm};
ghost use Rattle.kc_cert.specs.declared.certificate.Certificate.{Certificate};
ghost use Rattle.kc_certform.specs.HasSpelling.{HasSpelling};

/// A certificate of the form that C2 asks for has a spelling, as the writers require.
pub fn form_has_spelling()
    ensures spelled { (d : Description) (cert : Certificate) → IsValid d → HasForm d cert → HasSpelling cert }
{}
