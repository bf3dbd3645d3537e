//! Fields written into a record of a certificate.

ghost use Rattle.std.specs.Prelude.{◌≡◌, ◌+◌, ◌≤◌, ◌∷◌, ◌++◌, [], cond, length};
ghost use Rattle.kc_plain.specs.Appended.{Appended};
ghost use Rattle.kc_certfields.specs.Room.{HasRoom, GrowsAtMost};
ghost use Rattle.kc_certfields.specs.Spelling.{u8_bytes, u16_bytes, u32_bytes, u64_bytes, latches_bytes, symbol_bytes, value_bytes, floor_bytes, key_head_bytes, key_bytes, summary_bytes};

use arrayvec::ArrayVec;
use kc_frames::Floor;
use kc_space::Latches;
use kc_state::{Key, Summary};
use kc_value::{Sym, Value};

/// No record of a certificate is longer, in bytes: 17 for a node's head, 17 values of 29, 5 for the
/// spaces and latches, 16 floors of 9, and 296 slots of 31 after their count.
pub const LONGEST_RECORD: usize = 9_837;

/// A record's bytes.
pub type Record = ArrayVec<u8, LONGEST_RECORD>;

/// Adds these bytes.
pub fn put_bytes(out: &mut Record, bytes: &[u8])
    requires room { HasRoom out.old.items (length bytes.now) }
    ensures text { Appended out.old.items out.new.items bytes.now }
    ensures len { length out.new.items ≡ length out.old.items + length bytes.now }
{
    match out.try_extend_from_slice(bytes) {
        Ok(()) => {}
        Err(_) => unreachable!(),
    }
}

/// Adds a number of one byte.
pub fn put_u8(out: &mut Record, n: u8)
    requires room { HasRoom out.old.items 1 }
    ensures text { Appended out.old.items out.new.items (u8_bytes n) }
    ensures len { length out.new.items ≡ length out.old.items + 1 }
{
    put_bytes(out, &[n]);
}

/// Adds a number of two bytes.
pub fn put_u16(out: &mut Record, n: u16)
    requires room { HasRoom out.old.items 2 }
    ensures text { Appended out.old.items out.new.items (u16_bytes n) }
    ensures len { length out.new.items ≡ length out.old.items + 2 }
{
    put_bytes(out, &n.to_le_bytes());
}

/// Adds a number of four bytes.
pub fn put_u32(out: &mut Record, n: u32)
    requires room { HasRoom out.old.items 4 }
    ensures text { Appended out.old.items out.new.items (u32_bytes n) }
    ensures len { length out.new.items ≡ length out.old.items + 4 }
{
    put_bytes(out, &n.to_le_bytes());
}

/// Adds a number of eight bytes.
pub fn put_u64(out: &mut Record, n: u64)
    requires room { HasRoom out.old.items 8 }
    ensures text { Appended out.old.items out.new.items (u64_bytes n) }
    ensures len { length out.new.items ≡ length out.old.items + 8 }
{
    put_bytes(out, &n.to_le_bytes());
}

/// Adds the three latches.
pub fn put_latches(out: &mut Record, latches: &Latches)
    requires room { HasRoom out.old.items 3 }
    ensures text { Appended out.old.items out.new.items (latches_bytes latches.now) }
    ensures len { length out.new.items ≡ length out.old.items + 3 }
{
    put_bytes(
        out,
        &[
            latches.nmi_blocked.number(),
            latches.shadow.number(),
            latches.mcip.number(),
        ],
    );
}

/// Adds a symbol.
fn put_symbol(out: &mut Record, sym: Sym)
    requires room { HasRoom out.old.items 9 }
    ensures text { Appended out.old.items out.new.items (symbol_bytes sym) }
    ensures len { GrowsAtMost out.old.items out.new.items 9 }
{
    match sym {
        Sym::Plain => put_u8(out, 0),
        Sym::Base(offset) => {
            put_u8(out, 1);
            put_u64(out, offset.cast_unsigned());
        }
        Sym::Entry(word) => put_bytes(out, &[2, word]),
        Sym::UserGs => put_u8(out, 3),
    }
}

/// Adds a value.
pub fn put_value(out: &mut Record, value: &Value)
    requires room { HasRoom out.old.items 29 }
    ensures text { Appended out.old.items out.new.items (value_bytes value.now) }
    ensures len { GrowsAtMost out.old.items out.new.items 29 }
{
    put_symbol(out, value.sym);
    put_u64(out, value.bits.zeros);
    put_u64(out, value.bits.ones);
    put_u32(out, value.stacks);
}

/// Adds a floor.
pub fn put_floor(out: &mut Record, floor: Floor)
    requires room { HasRoom out.old.items 9 }
    ensures text { Appended out.old.items out.new.items (floor_bytes floor) }
    ensures len { GrowsAtMost out.old.items out.new.items 9 }
{
    match floor {
        Floor::At(at) => {
            put_u8(out, 0);
            put_u64(out, at);
        }
        Floor::Base => put_u8(out, 1),
    }
}

// 1 for true.
fn bit(b: bool) -> u8
    ensures value { result ≡ cond b 1 0 }
{
    if b { 1 } else { 0 }
}

// A key's numbers before its base.
fn key_head(key: &Key) -> [u8; 7]
    ensures value { result ≡ key_head_bytes key.now }
{
    [
        bit(!key.syscall),
        key.vector,
        bit(key.kernel),
        key.gs.number(),
        key.map.number(),
        key.stack.unwrap_or(255),
        bit(key.base.is_some()),
    ]
}

/// Adds a key.
pub fn put_key(out: &mut Record, key: &Key)
    requires room { HasRoom out.old.items 15 }
    ensures text { Appended out.old.items out.new.items (key_bytes key.now) }
    ensures len { length out.new.items ≡ length out.old.items + 15 }
{
    put_bytes(out, &key_head(key));
    put_u64(out, key.base.unwrap_or(0));
}

/// Adds a summary.
pub fn put_summary(out: &mut Record, summary: &Summary)
    requires room { HasRoom out.old.items 15 }
    ensures text { Appended out.old.items out.new.items (summary_bytes summary.now) }
    ensures len { length out.new.items ≡ length out.old.items + 15 }
{
    put_u32(out, summary.clobber.stacks);
    put_u64(out, summary.clobber.words);
    put_latches(out, &summary.latches);
}
