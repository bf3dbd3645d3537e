//! Why the work of a mode stops before its own end.

ghost use Rattle.std.specs.Prelude.{◌≡◌};

use kc_certfields::CertFault;
use kc_config::ConfigFault;
use kc_image::ImageFault;
use kc_plain::NoMemory;
use kc_trace::TraceFault;

/// The first cause in the order of work.
#[derive(Debug, Drop)]
pub enum Stop<'a> {
    /// A read of the named file failed.
    ReadFault(&'a str),
    /// The named file is larger than its limit.
    TooLarge(&'a str),
    /// The image isn't in its form.
    BadImage(ImageFault),
    /// The configuration isn't in its form, or breaks a rule.
    BadConfig(ConfigFault),
    /// The certificate isn't in its form.
    BadCert(CertFault),
    /// The trace isn't in its form, or no machine may start so.
    BadTrace(TraceFault),
    /// Memory ran out.
    NoMemory,
}

impl From<NoMemory> for Stop<'_> {
    ghost use Rattle.std.specs.Prelude.{◌≡◌};
    ghost use Rattle.kc_top.specs.declared.stop.Stop.TheVariants.{NoMemory as OutOfMemory};

    ghost from_gives = { λ _ stop. stop ≡ OutOfMemory };

    fn from(_: NoMemory) -> Self {
        Stop::NoMemory
    }
}
