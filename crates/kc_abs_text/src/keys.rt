//! Keys of contexts.

use crate::locations::stack_number;
use crate::numbers::number;
use crate::spaces::{gs, map};
use kc_state::Key;

// How a context is entered: `sysu`, or a vector and `u` or `k` for the side that is interrupted.
#[derive(Clone, Copy)]
struct Entered {
    syscall: bool,
    vector: u8,
    kernel: bool,
}

fn entry(text: &str) -> Option<Entered> {
    if text == "sysu" {
        return Some(Entered {
            syscall: true,
            vector: 0,
            kernel: false,
        });
    }
    match text.strip_suffix('k') {
        Some(vector) => event(vector, true),
        None => event(text.strip_suffix('u')?, false),
    }
}

fn event(vector: &str, kernel: bool) -> Option<Entered> {
    Some(Entered {
        syscall: false,
        vector: u8::from_str_radix(vector, 10).ok()?,
        kernel,
    })
}

// An address, or `-`.
fn base(text: &str) -> Option<Option<u64>> {
    match text {
        "-" => Some(None),
        _ => Some(Some(number(text)?)),
    }
}

/// The entry, the GS pair, the map, the stack and the base, apart by `/`; `-` is no stack and no
/// constant base.
pub fn key(text: &str) -> Option<Key> {
    let (kind, rest) = text.split_once('/')?;
    let (pair, rest) = rest.split_once('/')?;
    let (space, rest) = rest.split_once('/')?;
    let (stack, end) = rest.split_once('/')?;
    let entered = entry(kind)?;
    Some(Key {
        syscall: entered.syscall,
        vector: entered.vector,
        kernel: entered.kernel,
        gs: gs(pair)?,
        map: map(space)?,
        stack: stack_number(stack)?,
        base: base(end)?,
    })
}
