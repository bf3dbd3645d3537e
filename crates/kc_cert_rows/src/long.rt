//! Files of 2^34 bytes, which nobody holds: all are zeros but for the first ones and the number of contexts. Where their
//! faults are follows from the layout: 8 bytes of magic, 4 of version, 64 of digests, 1 of stacks, 2 of latches and 2
//! for the number of slots, so that contexts are counted at 81. A fault of form is answered at the file's end.

ghost use Rattle.std.specs.Prelude.{[], None};

use kc_certfields::CertKind;
use kc_certfmt::{CertEnd, CertFault, read_cert_file};
use kc_io::{Failed, Files};
use std::test::Fail;

const LENGTH: u64 = 1 << 34;

/// Where contexts are counted.
const COUNT_AT: usize = 81;

/// A file that is read from its beginning on.
#[derive(Drop)]
struct Long<'a> {
    first: &'a [u8],
    contexts: u8,
    taken: u64,
}

impl<'a> Files for Long<'a> {
    ghost state = { λ l. record { held = None; faults = λ n. 0; failing = []; taken = l.taken } };

    fn read_at(&mut self, _name: &str, at: u64, buf: &mut [u8]) -> Result<usize, Failed> {
        let count = buf.len().min(LENGTH.saturating_sub(at) as usize);
        buf[..count].fill(0);
        let first = self.first.len();
        if at == 0 && first <= count && COUNT_AT < count {
            buf[..first].copy_from_slice(self.first);
            buf[COUNT_AT] = self.contexts;
        }
        self.taken = self.taken.saturating_add(count as u64);
        Ok(count)
    }
}

/// The first bytes and the number of contexts; what the file's first fault is, and where.
const ROWS: [(&[u8], u8, CertKind, u64); 4] = [
    (b"", 0, CertKind::BadMagic, 0),
    (b"ENTRYCRT", 0, CertKind::Version, 8),
    // No context and no node, and then zeros.
    (b"ENTRYCRT\x02", 0, CertKind::Trailing, 89),
    // The stack of a context's key is 0, where SYSCALL has none.
    (b"ENTRYCRT\x02", 1, CertKind::Range, 90),
];

#[test]
fn a_file_is_never_held(rt: HostRuntime) -> Result<(), Fail> {
    for (first, contexts, kind, at) in ROWS {
        let mut long = Long {
            first,
            contexts,
            taken: 0,
        };
        let end = read_cert_file(rt.alloc(), &mut long, "long", LENGTH).err();
        let due = CertEnd::Form(CertFault { kind, at });
        assert!(rt; end == Some(due), "{kind:?}");
        assert!(rt; long.taken == LENGTH);
    }
    Ok(())
}
