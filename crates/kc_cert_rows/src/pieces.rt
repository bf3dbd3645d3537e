//! A certificate of version 2 with eight contexts, twelve nodes and three states, and what changed bytes of it give:
//! from an independent model.

use kc_cert::Certificate;
use kc_certfields::CertKind;
use kc_certfmt::{CertEnd, CertFault, CertReader, read_cert, read_cert_file};
use kc_certform::order_states;
use kc_io::MemFiles;
use std::alloc::Global;
use std::test::Fail;

const CERTIFICATE: &str = "\
454e54525943525402000000fafd8f3805b79597bad6dea94fc6223126f6e821b7a1bc6e5b17ee598dde1a16b4fcf1a8\
0f42c49d15521108ba5d0ce577af172adde7fa73600ebaa4a0e8ff7c0502000000080000000000000302ff0000000000\
00000000e06700004114c8edb40000000002000000000801ff000000000000000000fafe0000ee259fc7940000000101\
00014d000702ff0164fcfc19b2ef43dfc91d0000195824e89b000000000200014e010502ff000000000000000000ba6f\
000028871d2cfe0000000000000179000002ff0128a286472c100a23b0c80000abd35be24b0000000002010183010600\
ff00000000000000000019ac0000c02fd3ba6600000001020201d201010003010000000000000000ea0d00002f82f8d5\
aa00000000000101fb010100ff000000000000000000a98e0000aa056255030000000002020c00000000000000000000\
0000000000000000000000040c11540120874020112001800a5801ffff010000a29dab1b5ea61ab05d6254e4a159e54f\
ffff010000b112ea713ae0389c4eed158ec51fc763000001000000000000000000000000000000000000ffff01000040\
22a60210101005b284104422c0c10affff01000209e8400009860b0684160a40b220007803ffff010000000000000000\
0000000000000000000000000100021274081060445606220a572e00022038c400000100038000184304080040203000\
201100001404000000004454320048ea0104110081c20110301a000001000000204004108820000000000242004160ff\
ff01000211a15afa83d054d3de5ea5057c2fab2c21ffff01000205000000003000100404808100082140021000000000\
073409a921afb2b9f8cbf656de504d461000000000000000000000000000000000000000001000000002051100800000\
280110008d002b10100064400000000081c71010604c0d724808a8208782220000000100050101000100ffffffffffff\
ffff0100e5727e8fa08671920100d573c00220f0d1550000010000000000000000000000000000000002050000008670\
020000040440000100026008000000000000000000000000000000000000000000000100020900000000000000000000\
000000000000ffff0100020dc125a6d7136770c53eda5928ec988f3a0000010001b70d00000000000000000000000000\
000000000000000000a335000000021118000ca000160902022631443089ffff0100002000944008080201000008a820\
001000ffff0100003fc5682c09af0bdac03a97d3f650f4251000000003000008889041c30080a2040000000044000001\
00020000000000000000000000000000000000000400000210000000000000000000000000000000000002000001d8ff\
ffffffffffff10442000814002010200004028063810ffff01000300000000000000000000000000000000ffff010002\
0700000000000000000000000000000000ffff0100020101a0ca01a5b852802006018440452553e39e0100006367c270\
dc5af1609c983d8f23a50e9f00000100000801a0100010040490024080000080a10100000002010200010100ffffffff\
ffffffff00ffffffffffffffff00ffffffffffffffff0101009100020800000000000000000000000000000000ffff01\
000100000002f63a1b4caad879000200000003000000ed3eeae2cefb9a3700010000000300000024000081ffffffff00\
0200000004000000000000000000000000010000000400000055bbef1b14c73a83010100000004000000ffffffffffff\
ffff000100000005000000000000000000000000010000000500000034a0cc740db10aa9000100000006000000ffffff\
ffffffffff0101000000070000002b000081ffffffff0101000000";

/// Edits of these bytes and the fault that they give. `set AT BYTES` puts bytes in the place of others,
/// `cut N` keeps the first N, `add BYTES` stands at the end.
const ROWS: &str = "\
add 00 => 4 Trailing at 1371\n\
cut 1370 => 3 Short at 1370\n\
set 1367 00000000 => 3 Short at 1371\n\
set 562 88; cut 874 => 3 Short at 874\n\
set 8 03000000 => 2 Version at 8\n\
set 8 77563ed5 => 2 Version at 8\n\
set 8 01000000 => 6 Range at 359\n\
set 342 01000000 => 6 Range at 342\n\
set 1214 00000000 => 6 Range at 1239\n\
set 1214 03000000 => 6 Range at 1214\n\
set 1231 00000000 => 6 Range at 1273\n\
set 238 01; set 176 03 => 5 Order at 175\n\
set 236 04 => 5 Order at 235\n";

/// The bytes of a hexadecimal text.
fn bytes_of(alloc: Global, text: &str) -> Result<Vec<u8>, Fail> {
    Ok(hex::decode(alloc, text.as_bytes())?)
}

/// Fed in pieces of this size.
fn in_pieces(alloc: Global, bytes: &[u8], size: usize) -> Result<Certificate, CertFault> {
    let mut reader = CertReader::new(alloc);
    for piece in bytes.chunks(size.max(1)) {
        reader.feed(piece)?;
    }
    reader.finish()
}

/// Whether two certificates have the same contexts and nodes.
fn is_same(this: &Certificate, that: &Certificate) -> bool {
    let (these, those) = (this.nodes.as_slice(), that.nodes.as_slice());
    this.digests == that.digests
        && this.stacks == that.stacks
        && this.contexts.as_slice() == that.contexts.as_slice()
        && these.len() == those.len()
        && these.iter().zip(those.iter()).all(|(x, y)| {
            (x.context, x.site) == (y.context, y.site) && order_states(&x.state, &y.state).is_eq()
        })
}

#[test]
fn a_certificate_is_read_in_any_pieces(rt: HostRuntime) -> Result<(), Fail> {
    let alloc = rt.alloc();
    let bytes = bytes_of(alloc, CERTIFICATE)?;
    let whole = read_cert(alloc, &bytes).ok().expect(&rt, "is read");
    assert!(rt; whole.contexts.len() == 8 && whole.nodes.len() == 12);
    for size in [1, 7, 4_096] {
        let cert = in_pieces(alloc, &bytes, size).ok().expect(&rt, "is read");
        assert!(rt; is_same(&whole, &cert), "in pieces of {size}");
    }
    Ok(())
}

/// Changes the bytes as an edit says.
fn edit(alloc: Global, bytes: &mut Vec<u8>, text: &str) -> Result<(), Fail> {
    let mut words = text.split(' ');
    match (words.next(), words.next(), words.next()) {
        (Some("set"), Some(at), Some(digits)) => {
            let at = at.parse::<usize>()?;
            for (i, byte) in bytes_of(alloc, digits)?.iter().enumerate() {
                if let Some(place) = bytes.get_mut(at.saturating_add(i)) {
                    *place = *byte;
                }
            }
        }
        (Some("cut"), Some(count), None) => bytes.truncate(count.parse::<usize>()?),
        (Some("add"), Some(digits), None) => {
            bytes.extend_from_slice(&bytes_of(alloc, digits)?)?;
        }
        _ => {}
    }
    Ok(())
}

/// What was answered, as a row says it.
fn told(alloc: Global, answer: Result<Certificate, CertFault>) -> Result<String, Fail> {
    match answer {
        Ok(_) => Ok(format!(in alloc; "read")?),
        Err(fault) => {
            let (number, kind, at) = (fault.kind as u8, fault.kind, fault.at);
            Ok(format!(in alloc; "{number} {kind:?} at {at}")?)
        }
    }
}

#[test]
fn each_fault_is_at_its_offset(rt: HostRuntime) -> Result<(), Fail> {
    let alloc = rt.alloc();
    for row in ROWS.lines() {
        let Some((edits, want)) = row.split_once(" => ") else {
            continue;
        };
        let mut bytes = bytes_of(alloc, CERTIFICATE)?;
        for text in edits.split("; ") {
            edit(alloc, &mut bytes, text)?;
        }
        let whole = told(alloc, read_cert(alloc, &bytes))?;
        assert!(rt; whole.as_str() == want, "{row}");
        let pieces = told(alloc, in_pieces(alloc, &bytes, 7))?;
        assert!(rt; pieces.as_str() == want, "{row}");
    }
    Ok(())
}

/// A file `cert` with these bytes, of which the calls with these numbers fail.
fn files_of(alloc: Global, bytes: Vec<u8>, failing: &[u64]) -> Result<MemFiles, Fail> {
    let mut names = Vec::new(alloc);
    names.push(String::from_str(alloc, "cert")?)?;
    let mut files = Vec::new(alloc);
    files.push(bytes)?;
    Ok(MemFiles::new(names, files, Vec::from_slice(alloc, failing)?))
}

#[test]
fn faults_of_reading_come_before_faults_of_form(rt: HostRuntime) -> Result<(), Fail> {
    let alloc = rt.alloc();
    let good = bytes_of(alloc, CERTIFICATE)?;
    let mut files = files_of(alloc, good, &[])?;
    assert!(rt; read_cert_file(alloc, &mut files, "cert", 1_371).is_ok());
    assert!(rt; read_cert_file(alloc, &mut files, "cert", 1_370).err() == Some(CertEnd::TooLong));
    assert!(rt; read_cert_file(alloc, &mut files, "other", 1_371).err() == Some(CertEnd::Fault));
    let letters = CertFault {
        kind: CertKind::BadMagic,
        at: 0,
    };
    let mut files = files_of(alloc, bytes_of(alloc, "75756b6b75")?, &[2])?;
    assert!(rt; read_cert_file(alloc, &mut files, "cert", 4).err() == Some(CertEnd::TooLong));
    assert!(rt; read_cert_file(alloc, &mut files, "cert", 5).err() == Some(CertEnd::Fault));
    assert!(rt; read_cert_file(alloc, &mut files, "cert", 5).err() == Some(CertEnd::Form(letters)));
    Ok(())
}
