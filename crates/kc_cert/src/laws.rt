//! The law of refusals.

ghost use Rattle.std.specs.Prelude.{◌↔◌};
ghost use Rattle.kc_image.specs.Image.{Contents};
ghost use Rattle.kc_regions.specs.Description.{Description};
ghost use Rattle.kc_cert.specs.Certified.{IsCertified};
ghost use Rattle.kc_cert.specs.FirstRefusal.{IsUnrefused};
ghost use Rattle.kc_cert.specs.declared.certificate.Certificate.{Certificate};
ghost use Rattle.kc_cert.specs.declared.certificate.Digests.{Digests};

/// No condition is refused exactly where a certificate is certified: the refusals in their order and the
/// seventeen facts say the same.
pub fn no_refusal()
    ensures certified { (image : Contents) (d : Description) (digests : Digests) (cert : Certificate)
        → IsUnrefused image d digests cert ↔ IsCertified image d digests cert }
{}
