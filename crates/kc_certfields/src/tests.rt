//! Fields as an independent model spells them: each is read to its end and written back the same.

use crate::{
    Input, Record, put_key, put_state, put_summary, put_user, read_key, read_state, read_summary,
    read_user,
};
use std::alloc::Global;
use std::test::Fail;

/// A user state, a context, and a state with the floors of three stacks. Between them they have each
/// tag of a value and of a floor.
const ROWS: &str = "\
user 02010200000000faffffffffffffff05000000000000000000010027000203000000000000000001000000000000000\
7000000\n\
context 0000000800ff000000000000000000ffff0000ffffffffff000000010002\n\
state 00ff8fffffffffffff00700000000000000000010001d8ffffffffffffff0000000000000000000000000000000001\
00000001ffffffffffffff7f0000000000000000000000000000000002000000010000000000000080050000000000000002\
00000000000000ffff0100020000000000000000000000000000000000ffff01000213ff0000000000000000010000000000\
000000000003000000000080ffff0000000000000000000001000300000000000000000100000000000000ffff010000ffff\
ffffffffffff000000000000000000000100000000000000000000ffffffffffffffff008000000210070000000000000000\
00000000000000030000000000000000000000000000000000000000ffff01000000000000000000000000000000000000ff\
ff01000000000000000000000000000000000000ffff01000000000000000000000000000000000000ffff01000000000000\
000000000000000000000000ffff01000300000000000000000100000000000000ffff010001010102000000000000000000\
0000ffffffffffffffff010000\n\
";

/// What a field of this kind is written as after it was read from all of the bytes.
fn rewritten(alloc: Global, kind: &str, bytes: &[u8]) -> Option<Record> {
    let mut input = Input::new(0, bytes);
    let mut out = Record::new();
    match kind {
        "user" => put_user(&mut out, &read_user(alloc, &mut input).ok()?),
        "context" => {
            put_key(&mut out, &read_key(&mut input, 3).ok()?);
            put_summary(&mut out, &read_summary(&mut input).ok()?);
        }
        "state" => put_state(&mut out, &read_state(alloc, &mut input, 3).ok()?, 3),
        _ => return None,
    }
    if input.rest().is_empty() {
        Some(out)
    } else {
        None
    }
}

#[test]
fn fields_are_read_and_written_back(rt: HostRuntime) -> Result<(), Fail> {
    let alloc = rt.alloc();
    for row in ROWS.lines() {
        let Some((kind, digits)) = row.split_once(' ') else {
            continue;
        };
        let bytes = hex::decode(alloc, digits.as_bytes())?;
        let out = rewritten(alloc, kind, &bytes).expect(&rt, kind);
        assert!(rt; out.as_slice() == bytes.as_slice(), "{kind}");
    }
    Ok(())
}
