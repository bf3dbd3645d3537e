//! The text of an instruction: its mnemonic and its operands.

ghost use Rattle.std.specs.Prelude.{◌≡◌, ◌+◌, ◌≤◌, ◌++◌, OnOk, OnErr, length, codes};
ghost use Rattle.kc_plain.specs.Appended.{Appended};
ghost use Rattle.kc_io.specs.Sink.{SinkKept, Writes, Refuses};
ghost use Rattle.kc_insn.specs.declared.insn.Insn.TheVariants.{ReadCr3, Lea, Xchg, Bit, Jcc};
ghost use Rattle.kc_words.specs.declared.width.Width.TheVariants.{Quad};
ghost use Rattle.kc_text.specs.Text.{text_of, register_text, operands_text, source_text, place_text, target_text};
ghost use Rattle.kc_text.specs.LineSteps.{HasRoom, GrowsAtMost};

use crate::line::{LONGEST_TEXT, Line, put, put_number, put_target};
use crate::names::{alu_name, bit_name, condition_name};
use crate::operands::{put_memory, put_operands, put_place, put_register, put_sized, put_source};
use kc_insn::{BitOp, Insn, Mem, Place, Reg, Source};
use kc_io::{Failed, Sink, write_all};
use kc_words::Width;

/// A word and a register of 64 bits.
fn put_word_register(line: &mut Line, word: &str, r: Reg)
    requires room { HasRoom line.old.items (length word.now + 4) }
    ensures text { Appended line.old.items line.new.items (word.now ++ register_text Quad r) }
    ensures len { GrowsAtMost line.old.items line.new.items (length word.now + 4) }
{
    put(line, word);
    put_register(line, Width::Quad, r);
}

fn put_read_cr3(line: &mut Line, r: Reg)
    requires room { HasRoom line.old.items 13 }
    ensures text { Appended line.old.items line.new.items (text_of (ReadCr3 r)) }
{
    put_word_register(line, "mov ", r);
    put(line, ", cr3");
}

/// A mnemonic and two operands.
fn put_pair(line: &mut Line, name: &str, w: Width, p: Place, s: Source)
    requires room { HasRoom line.old.items (length name.now + 79) }
    ensures text { Appended line.old.items line.new.items (name.now ++ codes " " ++ operands_text w p s) }
{
    put(line, name);
    put(line, " ");
    put_operands(line, w, p, s);
}

fn put_lea(line: &mut Line, w: Width, r: Reg, m: Mem)
    requires room { HasRoom line.old.items 45 }
    ensures text { Appended line.old.items line.new.items (text_of (Lea w r m)) }
{
    put(line, "lea ");
    put_register(line, w, r);
    put(line, ", ");
    put_memory(line, m);
}

fn put_xchg(line: &mut Line, w: Width, p: Place, r: Reg)
    requires room { HasRoom line.old.items 46 }
    ensures text { Appended line.old.items line.new.items (text_of (Xchg w p r)) }
{
    put(line, "xchg ");
    put_place(line, w, p);
    put(line, ", ");
    put_register(line, w, r);
}

fn put_push(line: &mut Line, s: Source)
    requires room { HasRoom line.old.items 40 }
    ensures text { Appended line.old.items line.new.items (codes "push " ++ source_text Quad s) }
{
    put(line, "push ");
    put_source(line, Width::Quad, s);
}

fn put_pop(line: &mut Line, p: Place)
    requires room { HasRoom line.old.items 39 }
    ensures text { Appended line.old.items line.new.items (codes "pop " ++ place_text Quad p) }
{
    put(line, "pop ");
    put_place(line, Width::Quad, p);
}

fn put_bit(line: &mut Line, op: BitOp, w: Width, p: Place, n: u8)
    requires room { HasRoom line.old.items 66 }
    ensures text { Appended line.old.items line.new.items (text_of (Bit op w p n)) }
{
    put(line, bit_name(op));
    put(line, " ");
    put_sized(line, w, p);
    put(line, ", ");
    put_number(line, i64::from(n));
}

fn put_jcc(line: &mut Line, condition: u8, target: u64)
    requires room { HasRoom line.old.items 22 }
    ensures text { Appended line.old.items line.new.items (text_of (Jcc condition target)) }
{
    put(line, "j");
    put(line, condition_name(condition));
    put(line, " ");
    put_target(line, target);
}

/// A word and a target.
fn put_jump(line: &mut Line, word: &str, target: u64)
    requires room { HasRoom line.old.items (length word.now + 18) }
    ensures text { Appended line.old.items line.new.items (word.now ++ target_text target) }
{
    put(line, word);
    put_target(line, target);
}

fn put_insn(line: &mut Line, insn: Insn)
    requires room { HasRoom line.old.items 83 }
    ensures text { Appended line.old.items line.new.items (text_of insn) }
{
    match insn {
        Insn::Nop => put(line, "nop"),
        Insn::Endbr64 => put(line, "endbr64"),
        Insn::Lfence => put(line, "lfence"),
        Insn::Ud2 => put(line, "ud2"),
        Insn::Cld => put(line, "cld"),
        Insn::Clac => put(line, "clac"),
        Insn::Stac => put(line, "stac"),
        Insn::Cli => put(line, "cli"),
        Insn::Sti => put(line, "sti"),
        Insn::Swapgs => put(line, "swapgs"),
        Insn::Sysretq => put(line, "sysretq"),
        Insn::Iretq => put(line, "iretq"),
        Insn::Rdmsr => put(line, "rdmsr"),
        Insn::Wrmsr => put(line, "wrmsr"),
        Insn::Pushfq => put(line, "pushfq"),
        Insn::Popfq => put(line, "popfq"),
        Insn::Ret => put(line, "ret"),
        Insn::ReadCr3(r) => put_read_cr3(line, r),
        Insn::WriteCr3(r) => put_word_register(line, "mov cr3, ", r),
        Insn::ReadGs(r) => put_word_register(line, "rdgsbase ", r),
        Insn::WriteGs(r) => put_word_register(line, "wrgsbase ", r),
        Insn::Mov(w, p, s) => put_pair(line, "mov", w, p, s),
        Insn::Lea(w, r, m) => put_lea(line, w, r, m),
        Insn::Xchg(w, p, r) => put_xchg(line, w, p, r),
        Insn::Push(s) => put_push(line, s),
        Insn::Pop(p) => put_pop(line, p),
        Insn::Alu(op, w, p, s) => put_pair(line, alu_name(op), w, p, s),
        Insn::Test(w, p, s) => put_pair(line, "test", w, p, s),
        Insn::Bit(op, w, p, n) => put_bit(line, op, w, p, n),
        Insn::Jcc(c, target) => put_jcc(line, c, target),
        Insn::Jmp(target) => put_jump(line, "jmp ", target),
        Insn::Call(target) => put_jump(line, "call ", target),
    }
}

/// Writes the text of the instruction without taking memory: the mnemonic in lower case, one blank,
/// and the operands with `, ` between them. The whole text is one piece of `write_all`: `Failed`
/// comes where the sink refused a part of it, and then a prefix of it was added; after `Ok` nothing
/// was refused. An instruction that isn't encodable has a text too, in which a register, a scale or
/// a condition beyond its range is left out.
pub fn write_insn<S: Sink>(out: &mut S, insn: &Insn) -> Result<(), Failed>
    ensures all { OnOk result (Writes (S.state out.old) (S.state out.new) (text_of insn.now)) }
    ensures part { OnErr result (Refuses (S.state out.old) (S.state out.new) (text_of insn.now)) }
    ensures longest { length (text_of insn.now) ≤ LONGEST_TEXT }
    ensures kept { SinkKept (S.state out.old) (S.state out.new) }
{
    let mut line = Line::new();
    put_insn(&mut line, *insn);
    write_all(out, &line)
}
