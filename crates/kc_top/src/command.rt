//! All that the program does.

ghost use Rattle.std.specs.Prelude.{Some, ◌≡◌, ◌≢◌, ℕ, List, IsSomeAnd, None};
ghost use Rattle.kc_io.specs.Files.{Held, FilesKept, HasFailed};
ghost use Rattle.kc_io.specs.Sink.{SinkKept};
ghost use Rattle.kc_top.specs.declared.outcome.Outcome.{Outcome as OutcomeValue};
ghost use Rattle.kc_top.specs.Words.{request_of};
ghost use Rattle.kc_top.specs.RequestSteps.{asked};
ghost use Rattle.kc_top.specs.Output.{work_of, IsDue, Tells, IsCertifiedFor, IsUncertifiedFor, OfCheck, OfFind};
ghost use Rattle.kc_top.specs.Output.{HoldsFiles, IsDecided, IsTied};
ghost use Rattle.kc_top.specs.OutputSteps.{outcome_of, Ends};

use crate::check::check;
use crate::explain::{explain, explain_cert};
use crate::find::find;
use crate::generated::generate;
use crate::outcome::say;
use crate::replay::replay;
use crate::request::{Request, request_of};
use crate::stop::Stop;
use crate::upgrade::upgrade;
use crate::{Status, Words, lines};
use kc_io::{Files, Sink};
use kc_plain::NoMemory;
use kc_replay::one_text;
use std::alloc::Global;

/// Does the work of a mode, and tells its end.
fn perform<'a, F: Files, S: Sink>(
    alloc: Global,
    request: Request<'a>,
    files: &mut F,
    out: &mut S,
) -> Result<Status, Stop<'a>>
    ensures ends { Ends (F.state files.old).held (HasFailed (F.state files.old) (F.state files.new))
        (work_of (Some (asked request.entry))) (S.state out.old) (S.state out.new) result }
    ensures files_kept { FilesKept (F.state files.old) (F.state files.new) }
    ensures out_kept { SinkKept (S.state out.old) (S.state out.new) }
{
    match request {
        Request::Check { inputs, cert } => check(alloc, inputs, cert, files, out),
        Request::Find { inputs } => find(alloc, inputs, files, out),
        Request::Explain { inputs } => explain(alloc, inputs, files, out),
        Request::ExplainCert { inputs, cert } => explain_cert(alloc, inputs, cert, files, out),
        Request::Replay { inputs, trace } => replay(alloc, inputs, trace, files, out),
        Request::Gen { made } => generate(alloc, made, out),
        Request::Upgrade { cert } => upgrade(alloc, cert, files, out),
    }
}

/// Tells why a mode stopped before its own end.
fn report<S: Sink>(alloc: Global, stop: Stop<'_>, out: &mut S) -> Status
    ensures told { result ≢ Status.NoMemory →
        IsSomeAnd (outcome_of stop.entry) (λ o. Tells o result (S.state out.old) (S.state out.new)) }
    ensures memory { result ≡ Status.NoMemory → S.state out.new ≡ S.state out.old }
    ensures kept { SinkKept (S.state out.old) (S.state out.new) }
{
    match lines::outcome_of(alloc, stop) {
        Ok(outcome) => say(out, outcome.status, outcome.text.as_str()),
        Err(NoMemory) => Status::NoMemory,
    }
}

/// Runs the command that the words name.
///
/// `check IMAGE CONFIG CERT` reads the three files in this order, decides, and writes one line.
/// `find IMAGE CONFIG` reads the two files in this order, searches for a certificate, and writes it in version 2 where
/// it is accepted, and else one line.
/// `explain IMAGE CONFIG` does the same, and writes that it is accepted, or why it is refused;
/// `explain IMAGE CONFIG CERT` writes this of the certificate that it reads.
/// `replay IMAGE CONFIG TRACE` reads its three in order, runs the trace, and writes what is told of it.
/// `gen SEED SIZE` makes an image and a description from the two numbers, searches for a certificate, and writes one
/// line.
/// `upgrade CERT` reads a certificate, and writes it in version 2.
/// The answer is the outcome's status, and then the sink refused nothing; `WriteFault` where the sink
/// refused a part of the text; `NoMemory` where memory ran out, and then nothing was written.
pub fn run<F: Files, S: Sink>(alloc: Global, words: &Words, files: &mut F, out: &mut S) -> Status
    // The status and the text are those of the outcome that is due.
    ensures outcome { result ≢ Status.NoMemory → ((o : OutcomeValue)
        × IsDue (F.state files.old).held (HasFailed (F.state files.old) (F.state files.new)) words.now o
        × Tells o result (S.state out.old) (S.state out.new)) }

    // Words that are no command take no memory.
    ensures usage { request_of words.now ≡ None → result ≢ Status.NoMemory }
    ensures memory { result ≡ Status.NoMemory → S.state out.new ≡ S.state out.old }

    // A check, and an explanation of a certificate, accept where it is certified, and refuse only where it isn't.
    ensures certified { result ≡ Status.Done →
        OfCheck (F.state files.old).held (request_of words.now) IsCertifiedFor }
    ensures uncertified { result ≡ Status.Refused →
        OfCheck (F.state files.old).held (request_of words.now) IsUncertifiedFor }

    // What a search writes with `Done` is version 2 of a certified certificate.
    ensures found { result ≡ Status.Done → OfFind (F.state files.old).held (request_of words.now)
        (S.state out.old) (S.state out.new) }
    ensures files_kept { FilesKept (F.state files.old) (F.state files.new) }
    ensures out_kept { SinkKept (S.state out.old) (S.state out.new) }
{
    let Some(request) = request_of(words.as_slice()) else {
        return say(out, Status::Usage, lines::USAGE);
    };
    match perform(alloc, request, files, out) {
        Ok(status) => status,
        Err(stop) => report(alloc, stop, out),
    }
}

/// Over files that report what they hold, no two outcomes are due where no read fails, and one is due
/// where they hold each file of the words. So the statuses exclude each other, and each comes exactly
/// where its case of the definition holds. That one is due is not shown of a replay, and that no two are not of `find`,
/// `gen` and `explain` with two files, since the definition doesn't say yet which table the search ends with.
pub fn one_outcome()
    ensures at_most_one { (held : Held) (words : List (List ℕ)) (o p : OutcomeValue) → IsTied (request_of words) →
        IsDue (Some held) (λ _. ⊥) words o → IsDue (Some held) (λ _. ⊥) words p → o ≡ p }
    ensures at_least_one { (held : Held) (words : List (List ℕ)) → IsDecided (request_of words) →
        HoldsFiles (Some held) (request_of words) → (o : OutcomeValue) × IsDue (Some held) (λ _. ⊥) words o }
{
    one_text();
}
