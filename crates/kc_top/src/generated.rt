//! The mode `gen`.

ghost use Rattle.std.specs.Prelude.{◌≡◌, IfOk, IfErr, Some, string_bytes};
ghost use Rattle.sha2.specs.Sha256.{sha256};
ghost use Rattle.kc_io.specs.Sink.{SinkKept};
ghost use Rattle.kc_certform.specs.CertBytes.{CertBytes2};
ghost use Rattle.kc_certform.specs.HasSpelling.{HasSpelling};
ghost use Rattle.kc_gen.specs.Generated.{generated_image, generated_config};
ghost use Rattle.kc_top.specs.declared.stop.Stop.TheVariants.{NoMemory as OutOfMemory};
ghost use Rattle.kc_top.specs.Lines.{summary_line};
ghost use Rattle.kc_top.specs.Output.{summary, summed, refused, IsJudgement, IsSummed};
ghost use Rattle.kc_top.specs.OutputSteps.{IsOfBytes, IsUnmade, Concludes, Makes};

use crate::load::{Loaded, loaded_of};
use crate::numbers::GenInputs;
use crate::outcome::say;
use crate::print::has_spelling;
use crate::search::{say_limits, search};
use crate::status::Status;
use crate::stop::Stop;
use crate::verdict::refuse;
use kc_cert::{Certificate, Counts};
use kc_certwrite::write_cert2;
use kc_io::{MemSink, Sink};
use kc_plain::NoMemory;
use kc_state::Scratch;
use sha2::{Digest, Sha256};
use std::alloc::Global;

/// The most bytes of a certificate.
const CERT_LIMIT: usize = 201_326_592;

/// The image and the description that are made from the two numbers.
fn make<'a>(alloc: Global, made: GenInputs) -> Result<Loaded, Stop<'a>>
    ensures made { IfOk result (IsOfBytes (generated_image made.seed made.size) generated_config) }
    ensures unmade { IfErr result (IsUnmade (generated_image made.seed made.size) generated_config) }
{
    let (file, text) = kc_gen::generate(alloc, made.seed, made.size)?;
    loaded_of(alloc, file, &text)
}

/// The SHA-256 of the certificate's bytes in version 2.
fn digest_of<'a>(alloc: Global, cert: &Certificate) -> Result<[u8; 32], Stop<'a>>
    requires spelling { HasSpelling cert.now }
    ensures digest { IfOk result (λ d. d ≡ sha256 (CertBytes2 cert.now)) }
    ensures memory { IfErr result (λ stop. stop ≡ OutOfMemory) }
{
    let mut bytes = MemSink::new(alloc, CERT_LIMIT, Vec::new(alloc))?;
    match write_cert2(alloc, &mut bytes, cert) {
        Ok(()) => Ok(Sha256::digest(bytes.bytes())),
        Err(_) => Err(Stop::NoMemory),
    }
}

/// The line of an input that was made, of so many contexts and nodes that were found for it, and of the SHA-256 of the
/// certificate's bytes.
fn summary_text(
    alloc: Global,
    made: GenInputs,
    counts: Counts,
    digest: &[u8; 32],
) -> Result<String, NoMemory>
    ensures { IfOk result (λ s. string_bytes s
        ≡ summary_line made.seed made.size counts.contexts counts.nodes digest.now) }
{
    let (seed, size) = (made.seed, made.size);
    let (contexts, nodes) = (counts.contexts, counts.nodes);
    let digest = hex::encode(alloc, digest)?;
    Ok(format!(in alloc;
        "gen seed={seed} size={size} contexts={contexts} nodes={nodes} digest={digest}\n"
    )?)
}

/// Writes the summary of a certificate that is accepted, which has so many contexts and nodes.
fn sum_up<'a, S: Sink>(
    alloc: Global,
    made: GenInputs,
    counts: Counts,
    cert: &Certificate,
    out: &mut S,
) -> Result<Status, Stop<'a>>
    requires spelling { HasSpelling cert.now }
    ensures told { Concludes
        (λ o. o ≡ summary made.seed made.size counts.contexts counts.nodes (sha256 (CertBytes2 cert.now)))
        (S.state out.old) (S.state out.new) result }
    ensures kept { SinkKept (S.state out.old) (S.state out.new) }
{
    let digest = digest_of(alloc, cert)?;
    let text = summary_text(alloc, made, counts, &digest)?;
    Ok(say(out, Status::Done, text.as_str()))
}

/// Checks a table that was found, and writes its summary, or the line of its first refusal.
fn sum_up_checked<'a, S: Sink>(
    alloc: Global,
    made: GenInputs,
    loaded: &Loaded,
    cert: &Certificate,
    out: &mut S,
) -> Result<Status, Stop<'a>>
    ensures told { Concludes (IsJudgement (summed made.seed made.size) (refused loaded.now.config) loaded.now cert.now)
        (S.state out.old) (S.state out.new) result }
    ensures kept { SinkKept (S.state out.old) (S.state out.new) }
{
    let mut scratch = Scratch::new(alloc)?;
    match kc_check::check(
        &loaded.image,
        &loaded.config,
        &loaded.digests,
        cert,
        &mut scratch,
    ) {
        Ok(counts) => {
            has_spelling(&loaded.config);
            sum_up(alloc, made, counts, cert, out)
        }
        Err(refusal) => Ok(refuse(&loaded.config, &refusal, out)),
    }
}

/// Searches for a certificate and writes what it finds.
fn sum_up_found<'a, S: Sink>(
    alloc: Global,
    made: GenInputs,
    loaded: &Loaded,
    out: &mut S,
) -> Result<Status, Stop<'a>>
    ensures told { Concludes (IsSummed made.seed made.size loaded.now) (S.state out.old) (S.state out.new) result }
    ensures kept { SinkKept (S.state out.old) (S.state out.new) }
{
    match search(alloc, loaded)? {
        Some(cert) => sum_up_checked(alloc, made, loaded, &cert, out),
        None => Ok(say_limits(out)),
    }
}

/// Makes an image and a description, searches for a certificate, and writes one line. No file is read.
pub fn generate<'a, S: Sink>(
    alloc: Global,
    made: GenInputs,
    out: &mut S,
) -> Result<Status, Stop<'a>>
    ensures ends { Makes made.seed made.size (S.state out.old) (S.state out.new) result }
    ensures kept { SinkKept (S.state out.old) (S.state out.new) }
{
    let loaded = make(alloc, made)?;
    sum_up_found(alloc, made, &loaded, out)
}
