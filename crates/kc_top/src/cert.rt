//! Reading a certificate that the words name.

ghost use Rattle.std.specs.Prelude.{IfOk, IfErr};
ghost use Rattle.kc_io.specs.Files.{FilesKept, HasFailed};
ghost use Rattle.kc_certform.specs.HasSpelling.{HasSpelling};
ghost use Rattle.kc_top.specs.Output.{IsCertificateOf};
ghost use Rattle.kc_top.specs.OutputSteps.{IsUncertified};

use crate::stop::Stop;
use kc_cert::Certificate;
use kc_certfmt::{CertEnd, read_cert_file};
use kc_certlaw::read_has_spelling;
use kc_io::Files;
use std::alloc::Global;

/// The most bytes of a certificate.
const CERT_LIMIT: u64 = 201_326_592;

/// Reads the certificate of this name.
pub fn open_cert<'a, F: Files>(
    alloc: Global,
    files: &mut F,
    name: &'a str,
) -> Result<Certificate, Stop<'a>>
    ensures certificate { IfOk result (IsCertificateOf (F.state files.old).held name.now) }
    ensures spelling { IfOk result HasSpelling }
    ensures uncertified { IfErr result (IsUncertified (F.state files.old).held
        (HasFailed (F.state files.old) (F.state files.new)) name.now) }
    ensures kept { FilesKept (F.state files.old) (F.state files.new) }
{
    read_has_spelling();
    match read_cert_file(alloc, files, name, CERT_LIMIT) {
        Ok(cert) => Ok(cert),
        Err(CertEnd::Fault) => Err(Stop::ReadFault(name)),
        Err(CertEnd::TooLong) => Err(Stop::TooLarge(name)),
        Err(CertEnd::Form(fault)) => Err(Stop::BadCert(fault)),
        Err(CertEnd::NoMemory) => Err(Stop::NoMemory),
    }
}
