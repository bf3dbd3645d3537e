//! The search for a certificate.

ghost use Rattle.std.specs.Prelude.{◌≡◌, IfOk, IfErr, IfSome};
ghost use Rattle.kc_io.specs.Sink.{SinkKept};
ghost use Rattle.kc_top.specs.declared.stop.Stop.TheVariants.{NoMemory as OutOfMemory};
ghost use Rattle.kc_top.specs.Output.{limits, Tells};

use crate::load::Loaded;
use crate::outcome::say;
use crate::status::Status;
use crate::stop::Stop;
use kc_cert::Certificate;
use kc_find::{FindEnd, find};
use kc_io::Sink;
use std::alloc::Global;

/// The line where no table was found within the limits on contexts and nodes.
const LIMITS: &str = "refused limits\n";

/// The table that the search for a certificate ends with, or none where it would pass the limits. It isn't
/// checked yet.
pub fn search<'a>(alloc: Global, loaded: &Loaded) -> Result<Option<Certificate>, Stop<'a>>
    ensures digests { IfOk result (λ found. IfSome found (λ c. c.digests ≡ loaded.now.digests)) }
    ensures memory { IfErr result (λ stop. stop ≡ OutOfMemory) }
{
    match find(alloc, &loaded.image, &loaded.config, &loaded.digests) {
        Ok(cert) => Ok(Some(cert)),
        Err(FindEnd::TooMany) => Ok(None),
        Err(FindEnd::NoMemory) => Err(Stop::NoMemory),
    }
}

/// Writes that the search would pass the limits.
pub fn say_limits<S: Sink>(out: &mut S) -> Status
    ensures told { Tells limits result (S.state out.old) (S.state out.new) }
    ensures kept { SinkKept (S.state out.old) (S.state out.new) }
{
    say(out, Status::Refused, LIMITS)
}
