//! The names of registers, conditions, widths and operations.

ghost use Rattle.std.specs.Prelude.{◌≡◌, ◌≤◌, ℕ, length};
ghost use Rattle.kc_text.specs.Text.{by_width, register_text, size_word, scale_text, condition_text, alu_text};
ghost use Rattle.kc_text.specs.Text.{bit_text};

use kc_insn::{AluOp, BitOp, Reg};
use kc_words::Width;

fn by_width(w: Width, quad: &'static str, long: &'static str, byte: &'static str) -> &'static str
    ensures is { result.now ≡ by_width quad.now long.now byte.now w }
    ensures short { (n : ℕ) → length quad.now ≤ n → length long.now ≤ n → length byte.now ≤ n → length result.now ≤ n }
{
    match w {
        Width::Quad => quad,
        Width::Long => long,
        Width::Byte => byte,
    }
}

/// A register's name at this width; none beyond the sixteen registers.
pub fn register_name(w: Width, r: Reg) -> &'static str
    ensures is { result.now ≡ register_text w r }
    ensures short { length result.now ≤ 4 }
{
    match r.0 {
        0 => by_width(w, "rax", "eax", "al"),
        1 => by_width(w, "rcx", "ecx", "cl"),
        2 => by_width(w, "rdx", "edx", "dl"),
        3 => by_width(w, "rbx", "ebx", "bl"),
        4 => by_width(w, "rsp", "esp", "spl"),
        5 => by_width(w, "rbp", "ebp", "bpl"),
        6 => by_width(w, "rsi", "esi", "sil"),
        7 => by_width(w, "rdi", "edi", "dil"),
        8 => by_width(w, "r8", "r8d", "r8b"),
        9 => by_width(w, "r9", "r9d", "r9b"),
        10 => by_width(w, "r10", "r10d", "r10b"),
        11 => by_width(w, "r11", "r11d", "r11b"),
        12 => by_width(w, "r12", "r12d", "r12b"),
        13 => by_width(w, "r13", "r13d", "r13b"),
        14 => by_width(w, "r14", "r14d", "r14b"),
        15 => by_width(w, "r15", "r15d", "r15b"),
        _ => "",
    }
}

/// The word before a memory operand that has no register beside it.
pub fn size_word(w: Width) -> &'static str
    ensures is { result.now ≡ size_word w }
    ensures short { length result.now ≤ 6 }
{
    by_width(w, "qword ", "dword ", "byte ")
}

/// The star and the scale of an index.
pub fn scale_name(scale: u8) -> &'static str
    ensures is { result.now ≡ scale_text scale }
    ensures short { length result.now ≤ 2 }
{
    match scale {
        2 => "*2",
        4 => "*4",
        8 => "*8",
        _ => "",
    }
}

/// The suffix of a condition; none for a code of 16 and more.
pub fn condition_name(code: u8) -> &'static str
    ensures is { result.now ≡ condition_text code }
    ensures short { length result.now ≤ 2 }
{
    match code {
        0 => "o",
        1 => "no",
        2 => "b",
        3 => "ae",
        4 => "z",
        5 => "nz",
        6 => "be",
        7 => "a",
        8 => "s",
        9 => "ns",
        10 => "p",
        11 => "np",
        12 => "l",
        13 => "ge",
        14 => "le",
        15 => "g",
        _ => "",
    }
}

/// The mnemonic of the arithmetic.
pub fn alu_name(op: AluOp) -> &'static str
    ensures is { result.now ≡ alu_text op }
    ensures short { length result.now ≤ 3 }
{
    match op {
        AluOp::Add => "add",
        AluOp::Or => "or",
        AluOp::And => "and",
        AluOp::Sub => "sub",
        AluOp::Xor => "xor",
        AluOp::Cmp => "cmp",
    }
}

/// The mnemonic of the bit's operation.
pub fn bit_name(op: BitOp) -> &'static str
    ensures is { result.now ≡ bit_text op }
    ensures short { length result.now ≤ 3 }
{
    match op {
        BitOp::Test => "bt",
        BitOp::Set => "bts",
        BitOp::Reset => "btr",
    }
}
