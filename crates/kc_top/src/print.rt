//! Writing a certificate that was found.

ghost use Rattle.std.specs.Prelude.{◌≡◌};
ghost use Rattle.kc_io.specs.Sink.{SinkKept};
ghost use Rattle.kc_cert.specs.declared.certificate.Certificate.{Certificate as CertificateValue};
ghost use Rattle.kc_cert.specs.Form.{HasForm};
ghost use Rattle.kc_certform.specs.HasSpelling.{HasSpelling};
ghost use Rattle.kc_top.specs.Output.{Prints};

use crate::status::Status;
use crate::verdict::refuse;
use kc_cert::{Certificate, Digests};
use kc_certwrite::{WriteEnd, form_has_spelling, write_cert2};
use kc_image::Image;
use kc_io::Sink;
use kc_regions::Config;
use kc_state::Scratch;
use std::alloc::Global;

/// A certificate of the form that C2 asks for has a spelling, as the writers require.
pub fn has_spelling(cfg: &Config)
    ensures spelled { (cert : CertificateValue) → HasForm cfg.now cert → HasSpelling cert }
{
    cfg.tell();
    form_has_spelling();
}

/// Checks a certificate for the image and the description whose files have these digests, and writes it in
/// version 2 where it is accepted, and else the line of its first refusal.
///
/// The status is `Done` where the certificate was accepted and written, and `Refused` where it was refused and the line
/// was written; `WriteFault` where the sink refused a part of what was due; and `NoMemory` where it was
/// accepted, but memory ran out, and then nothing was written.
pub fn print_checked<S: Sink>(
    alloc: Global,
    image: &Image,
    cfg: &Config,
    digests: &Digests,
    cert: &Certificate,
    scratch: &mut Scratch,
    out: &mut S,
) -> Status
    ensures printed { Prints (record { image = image.now; config = cfg.now; digests = digests.now }) cert.now
        (S.state out.old) (S.state out.new) result }
    ensures kept { SinkKept (S.state out.old) (S.state out.new) }
{
    match kc_check::check(image, cfg, digests, cert, scratch) {
        Ok(_) => {
            has_spelling(cfg);
            match write_cert2(alloc, out, cert) {
                Ok(()) => Status::Done,
                Err(WriteEnd::Failed) => Status::WriteFault,
                Err(WriteEnd::NoMemory) => Status::NoMemory,
            }
        }
        Err(refusal) => refuse(cfg, &refusal, out),
    }
}
