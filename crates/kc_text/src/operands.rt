//! The text of operands.

ghost use Rattle.std.specs.Prelude.{◌≡◌, ◌+◌, ◌≤◌, ◌++◌, length};
ghost use Rattle.kc_plain.specs.Appended.{Appended};
ghost use Rattle.kc_text.specs.Text.{register_text, index_text, parts_text, disp_text, address_text, memory_text};
ghost use Rattle.kc_text.specs.Text.{place_text, source_text, sized_text, operands_text};
ghost use Rattle.kc_text.specs.LineSteps.{HasRoom, GrowsAtMost};

use crate::line::{Line, put, put_hex, put_number};
use crate::names::{register_name, scale_name, size_word};
use kc_insn::{Base, Mem, Place, Reg, Source};
use kc_words::Width;

/// Puts the register's name at this width.
pub fn put_register(line: &mut Line, w: Width, r: Reg)
    requires room { HasRoom line.old.items 4 }
    ensures text { Appended line.old.items line.new.items (register_text w r) }
    ensures len { GrowsAtMost line.old.items line.new.items 4 }
{
    put(line, register_name(w, r));
}

fn put_index(line: &mut Line, index: (Reg, u8))
    requires room { HasRoom line.old.items 6 }
    ensures text { Appended line.old.items line.new.items (index_text index) }
    ensures len { GrowsAtMost line.old.items line.new.items 6 }
{
    put_register(line, Width::Quad, index.0);
    put(line, scale_name(index.1));
}

fn put_parts(line: &mut Line, base: Base, index: Option<(Reg, u8)>)
    requires room { HasRoom line.old.items 11 }
    ensures text { Appended line.old.items line.new.items (parts_text base index) }
    ensures len { GrowsAtMost line.old.items line.new.items 11 }
{
    match base {
        Base::Absent => {}
        Base::Rip => put(line, "rip"),
        Base::Reg(r) => put_register(line, Width::Quad, r),
    }
    if let Some(i) = index {
        if base != Base::Absent {
            put(line, "+");
        }
        put_index(line, i);
    }
}

/// A displacement after a base or an index.
fn put_disp(line: &mut Line, disp: i32)
    requires room { HasRoom line.old.items 19 }
    ensures text { Appended line.old.items line.new.items (disp_text disp) }
    ensures len { GrowsAtMost line.old.items line.new.items 19 }
{
    if disp > 0 {
        put(line, "+");
    }
    if disp < 0 {
        put(line, "-");
    }
    if disp != 0 {
        put_hex(line, u64::from(disp.unsigned_abs()));
    }
}

fn put_address(line: &mut Line, m: Mem)
    requires room { HasRoom line.old.items 30 }
    ensures text { Appended line.old.items line.new.items (address_text m.base m.index m.disp) }
    ensures len { GrowsAtMost line.old.items line.new.items 30 }
{
    if m.base == Base::Absent && m.index.is_none() {
        put_number(line, i64::from(m.disp));
    } else {
        put_parts(line, m.base, m.index);
        put_disp(line, m.disp);
    }
}

/// Puts the memory operand, without a size word.
pub fn put_memory(line: &mut Line, m: Mem)
    requires room { HasRoom line.old.items 35 }
    ensures text { Appended line.old.items line.new.items (memory_text m) }
    ensures len { GrowsAtMost line.old.items line.new.items 35 }
{
    if m.gs {
        put(line, "gs:");
    }
    put(line, "[");
    put_address(line, m);
    put(line, "]");
}

/// Puts the operand that is written, without a size word.
pub fn put_place(line: &mut Line, w: Width, p: Place)
    requires room { HasRoom line.old.items 35 }
    ensures text { Appended line.old.items line.new.items (place_text w p) }
    ensures len { GrowsAtMost line.old.items line.new.items 35 }
{
    match p {
        Place::Reg(r) => put_register(line, w, r),
        Place::Mem(m) => put_memory(line, m),
    }
}

/// Puts the operand that is read, without a size word.
pub fn put_source(line: &mut Line, w: Width, s: Source)
    requires room { HasRoom line.old.items 35 }
    ensures text { Appended line.old.items line.new.items (source_text w s) }
    ensures len { GrowsAtMost line.old.items line.new.items 35 }
{
    match s {
        Source::Reg(r) => put_register(line, w, r),
        Source::Mem(m) => put_memory(line, m),
        Source::Imm(z) => put_number(line, z),
    }
}

/// An operand that has no register beside it.
pub fn put_sized(line: &mut Line, w: Width, p: Place)
    requires room { HasRoom line.old.items 41 }
    ensures text { Appended line.old.items line.new.items (sized_text w p) }
    ensures len { GrowsAtMost line.old.items line.new.items 41 }
{
    match p {
        Place::Reg(r) => put_register(line, w, r),
        Place::Mem(m) => {
            put(line, size_word(w));
            put_memory(line, m);
        }
    }
}

/// Two operands, the one that is written first.
pub fn put_operands(line: &mut Line, w: Width, p: Place, s: Source)
    requires room { HasRoom line.old.items 78 }
    ensures text { Appended line.old.items line.new.items (operands_text w p s) }
    ensures len { GrowsAtMost line.old.items line.new.items 78 }
{
    match s {
        Source::Imm(z) => {
            put_sized(line, w, p);
            put(line, ", ");
            put_number(line, z);
        }
        Source::Reg(r) => {
            put_place(line, w, p);
            put(line, ", ");
            put_register(line, w, r);
        }
        Source::Mem(m) => {
            put_place(line, w, p);
            put(line, ", ");
            put_memory(line, m);
        }
    }
}
