//! The lines of the causes that stop a mode.

ghost use Rattle.std.specs.Prelude.{◌≡◌, IfOk, Some, string_bytes};
ghost use Rattle.kc_top.specs.Lines.{image_kind, bad_image_line, config_kind, config_path, bad_config_line};
ghost use Rattle.kc_top.specs.Lines.{cert_kind, bad_cert_line, trace_kind, fault_line, bad_trace_line};
ghost use Rattle.kc_top.specs.Work.{read_fault, too_large};
ghost use Rattle.kc_top.specs.Output.{bad_image, bad_config, bad_cert, bad_trace};
ghost use Rattle.kc_top.specs.OutputSteps.{outcome_of};

use crate::stop::Stop;
use crate::{Outcome, Status};
use kc_certfields::{CertFault, CertKind};
use kc_config::ConfigFault;
use kc_image::{ImageFault, ImageKind};
use kc_plain::{NoMemory, Text};
use kc_trace::TraceFault;
use std::alloc::Global;

/// The line for words that are no command.
pub const USAGE: &str =
    "usage: entrycert check IMAGE CONFIG CERT, find IMAGE CONFIG, explain IMAGE CONFIG [CERT], replay IMAGE CONFIG TRACE, gen SEED SIZE, upgrade CERT\n";

/// A read of the named file failed.
fn read_fault(alloc: Global, name: &str) -> Result<Outcome, NoMemory>
    ensures { IfOk result (λ o. o ≡ read_fault name.now) }
{
    let text = format!(in alloc; "read fault {name}\n")?;
    Ok(Outcome {
        status: Status::ReadFault,
        text: Text::from_string(text),
    })
}

/// The named file is larger than its limit.
fn too_large(alloc: Global, name: &str) -> Result<Outcome, NoMemory>
    ensures { IfOk result (λ o. o ≡ too_large name.now) }
{
    let text = format!(in alloc; "too large {name}\n")?;
    Ok(Outcome {
        status: Status::TooLarge,
        text: Text::from_string(text),
    })
}

/// The number and the name of a kind of fault in an image.
fn image_kind(kind: ImageKind) -> &'static str
    ensures { result.now ≡ image_kind kind }
{
    match kind {
        ImageKind::BadMagic => "1 BadMagic",
        ImageKind::BadClass => "2 BadClass",
        ImageKind::BadType => "3 BadType",
        ImageKind::BadMachine => "4 BadMachine",
        ImageKind::HeaderOut => "5 HeaderOut",
        ImageKind::SegmentOut => "6 SegmentOut",
        ImageKind::SegmentsMeet => "7 SegmentsMeet",
        ImageKind::SymbolOut => "8 SymbolOut",
        ImageKind::NoMemory => "9 NoMemory",
    }
}

/// The line of a fault in an image.
fn bad_image_text(alloc: Global, fault: ImageFault) -> Result<String, NoMemory>
    ensures { IfOk result (λ s. string_bytes s ≡ bad_image_line fault) }
{
    let kind = image_kind(fault.kind);
    let at = fault.at;
    Ok(format!(in alloc; "bad image {kind} at {at}\n")?)
}

/// The image isn't in its form.
fn bad_image(alloc: Global, fault: ImageFault) -> Result<Outcome, NoMemory>
    ensures { IfOk result (λ o. o ≡ bad_image fault) }
{
    let text = bad_image_text(alloc, fault)?;
    Ok(Outcome {
        status: Status::BadImage,
        text: Text::from_string(text),
    })
}

/// The number and the name of a kind of fault in a description.
fn config_kind(fault: &ConfigFault) -> &'static str
    ensures { result.now ≡ config_kind fault.now }
{
    match fault {
        ConfigFault::Syntax => "1 Syntax",
        ConfigFault::Missing(_) => "2 Missing",
        ConfigFault::WrongKind(_) => "3 WrongKind",
        ConfigFault::OutOfRange(_) => "4 OutOfRange",
        ConfigFault::UnknownKey(_) => "5 UnknownKey",
        ConfigFault::NoSymbol(_) => "6 NoSymbol",
        ConfigFault::Regions(_) => "7 Regions",
        ConfigFault::GuardMissing(_) => "8 GuardMissing",
        ConfigFault::NoMemory => "9 NoMemory",
    }
}

/// The path of the key at fault, `-` where there is none.
fn config_path(fault: &ConfigFault) -> &str
    ensures { result.now ≡ config_path fault.now }
{
    match fault {
        ConfigFault::Syntax | ConfigFault::NoMemory => "-",
        ConfigFault::Missing(path) => path.text(),
        ConfigFault::WrongKind(path) => path.text(),
        ConfigFault::OutOfRange(path) => path.text(),
        ConfigFault::UnknownKey(path) => path.text(),
        ConfigFault::NoSymbol(path) => path.text(),
        ConfigFault::Regions(path) => path.text(),
        ConfigFault::GuardMissing(path) => path.text(),
    }
}

/// The line of a fault in a description.
fn bad_config_text(alloc: Global, fault: &ConfigFault) -> Result<String, NoMemory>
    ensures { IfOk result (λ s. string_bytes s ≡ bad_config_line fault.now) }
{
    let kind = config_kind(fault);
    let path = config_path(fault);
    Ok(format!(in alloc; "bad config {kind} {path}\n")?)
}

/// The configuration isn't in its form, or breaks a rule.
fn bad_config(alloc: Global, fault: &ConfigFault) -> Result<Outcome, NoMemory>
    ensures { IfOk result (λ o. o ≡ bad_config fault.now) }
{
    let text = bad_config_text(alloc, fault)?;
    Ok(Outcome {
        status: Status::BadConfig,
        text: Text::from_string(text),
    })
}

/// The number and the name of a kind of fault in a certificate.
fn cert_kind(kind: CertKind) -> &'static str
    ensures { result.now ≡ cert_kind kind }
{
    match kind {
        CertKind::BadMagic => "1 BadMagic",
        CertKind::Version => "2 Version",
        CertKind::Short => "3 Short",
        CertKind::Trailing => "4 Trailing",
        CertKind::Order => "5 Order",
        CertKind::Range => "6 Range",
        CertKind::TooMany => "7 TooMany",
        CertKind::NoMemory => "8 NoMemory",
    }
}

/// The line of a fault in a certificate.
fn bad_cert_text(alloc: Global, fault: CertFault) -> Result<String, NoMemory>
    ensures { IfOk result (λ s. string_bytes s ≡ bad_cert_line fault) }
{
    let kind = cert_kind(fault.kind);
    let at = fault.at;
    Ok(format!(in alloc; "bad certificate {kind} at {at}\n")?)
}

/// The certificate isn't in its form.
fn bad_cert(alloc: Global, fault: CertFault) -> Result<Outcome, NoMemory>
    ensures { IfOk result (λ o. o ≡ bad_cert fault) }
{
    let text = bad_cert_text(alloc, fault)?;
    Ok(Outcome {
        status: Status::BadCert,
        text: Text::from_string(text),
    })
}

/// The number and the name of a kind of fault in a trace.
fn trace_kind(fault: TraceFault) -> &'static str
    ensures { result.now ≡ trace_kind fault }
{
    match fault {
        TraceFault::BadLine(_) => "1 BadLine",
        TraceFault::BadNumber(_) => "2 BadNumber",
        TraceFault::NotAdmitted(_) => "3 NotAdmitted",
        TraceFault::NoMemory => "4 NoMemory",
    }
}

/// The number of the line at fault.
fn fault_line(fault: TraceFault) -> u32
    ensures { result ≡ fault_line fault }
{
    match fault {
        TraceFault::BadLine(n) | TraceFault::BadNumber(n) | TraceFault::NotAdmitted(n) => n,
        TraceFault::NoMemory => 0,
    }
}

/// The line of a fault in a trace.
fn bad_trace_text(alloc: Global, fault: TraceFault) -> Result<String, NoMemory>
    ensures { IfOk result (λ s. string_bytes s ≡ bad_trace_line fault) }
{
    let kind = trace_kind(fault);
    let line = fault_line(fault);
    Ok(format!(in alloc; "bad trace {kind} line {line}\n")?)
}

/// The trace isn't in its form, or no machine may start so.
fn bad_trace(alloc: Global, fault: TraceFault) -> Result<Outcome, NoMemory>
    ensures { IfOk result (λ o. o ≡ bad_trace fault) }
{
    let text = bad_trace_text(alloc, fault)?;
    Ok(Outcome {
        status: Status::BadTrace,
        text: Text::from_string(text),
    })
}

/// The outcome of a cause.
pub fn outcome_of(alloc: Global, stop: Stop<'_>) -> Result<Outcome, NoMemory>
    ensures { IfOk result (λ o. outcome_of stop.entry ≡ Some o) }
{
    match stop {
        Stop::ReadFault(name) => read_fault(alloc, name),
        Stop::TooLarge(name) => too_large(alloc, name),
        Stop::BadImage(fault) => bad_image(alloc, fault),
        Stop::BadConfig(fault) => bad_config(alloc, &fault),
        Stop::BadCert(fault) => bad_cert(alloc, fault),
        Stop::BadTrace(fault) => bad_trace(alloc, fault),
        Stop::NoMemory => Err(NoMemory),
    }
}
