//! Which instructions the grammar can spell, this project's own choice of operands.

ghost use Rattle.std.specs.Prelude.{◌≡◌, ℕ, List, IsTrue};
ghost use Rattle.kc_insn.specs.Spells.{Spells};
ghost use Rattle.kc_insn.specs.Encodable.{is_register as register, is_index as index, is_address as address, is_memory as memory, is_place as place, is_wide as wide, is_signed_long as signed_long, is_immediate as immediate, is_move as move_operands, is_pair as pair, is_test as test, is_pushed as pushed, is_encodable};
ghost use Rattle.kc_insn.specs.declared.insn.Place.TheVariants.{Reg as Register, Mem as Memory};

use crate::insn::{Base, Insn, Mem, Place, Reg, Source};
use kc_words::Width;

fn is_register(r: Reg) -> bool
    ensures { result ≡ register r }
{
    r.0 < 16
}

fn is_index(i: Option<(Reg, u8)>) -> bool
    ensures { result ≡ index i }
{
    match i {
        None => true,
        Some((r, scale)) => {
            r.0 < 16 && (r.0 != 4 && (scale == 1 || (scale == 2 || (scale == 4 || scale == 8))))
        }
    }
}

fn is_address(base: Base, i: Option<(Reg, u8)>) -> bool
    ensures { result ≡ address base i }
{
    match base {
        Base::Absent => is_index(i),
        Base::Rip => i.is_none(),
        Base::Reg(r) => is_register(r) && is_index(i),
    }
}

fn is_memory(m: Mem) -> bool
    ensures { result ≡ memory m }
{
    is_address(m.base, m.index)
}

fn is_place(p: Place) -> bool
    ensures { result ≡ place p }
{
    match p {
        Place::Reg(r) => is_register(r),
        Place::Mem(m) => is_memory(m),
    }
}

fn is_wide(w: Width) -> bool
    ensures { result ≡ wide w }
{
    match w {
        Width::Byte => false,
        Width::Long | Width::Quad => true,
    }
}

fn is_signed_long(z: i64) -> bool
    ensures { result ≡ signed_long z }
{
    -2_147_483_648 <= z && z < 2_147_483_648
}

fn is_immediate(w: Width, z: i64) -> bool
    ensures { result ≡ immediate w z }
{
    match w {
        Width::Byte => 0 <= z && z < 256,
        Width::Long => 0 <= z && z < 4_294_967_296,
        Width::Quad => is_signed_long(z),
    }
}

fn is_move_to_register(w: Width, d: Reg, s: Source) -> bool
    ensures { result ≡ move_operands w (Register d) s }
{
    match s {
        Source::Reg(s) => is_register(d) && is_register(s),
        Source::Mem(m) => is_register(d) && is_memory(m),
        Source::Imm(z) => match w {
            Width::Byte => false,
            Width::Long => is_register(d) && is_immediate(w, z),
            Width::Quad => is_register(d),
        },
    }
}

fn is_move_to_memory(w: Width, m: Mem, s: Source) -> bool
    ensures { result ≡ move_operands w (Memory m) s }
{
    match s {
        Source::Reg(s) => is_memory(m) && is_register(s),
        Source::Mem(_) => false,
        Source::Imm(z) => is_memory(m) && is_immediate(w, z),
    }
}

fn is_move(w: Width, p: Place, s: Source) -> bool
    ensures { result ≡ move_operands w p s }
{
    match p {
        Place::Reg(d) => is_move_to_register(w, d, s),
        Place::Mem(m) => is_move_to_memory(w, m, s),
    }
}

fn is_pair(w: Width, p: Place, s: Source) -> bool
    ensures { result ≡ pair w p s }
{
    match s {
        Source::Imm(z) => is_place(p) && is_immediate(w, z),
        Source::Reg(s) => is_place(p) && is_register(s),
        Source::Mem(n) => match p {
            Place::Reg(d) => is_register(d) && is_memory(n),
            Place::Mem(_) => false,
        },
    }
}

fn is_test(w: Width, p: Place, s: Source) -> bool
    ensures { result ≡ test w p s }
{
    match s {
        Source::Reg(s) => is_wide(w) && (is_place(p) && is_register(s)),
        Source::Mem(_) => false,
        Source::Imm(z) => is_place(p) && is_immediate(w, z),
    }
}

fn is_pushed(s: Source) -> bool
    ensures { result ≡ pushed s }
{
    match s {
        Source::Reg(r) => is_register(r),
        Source::Mem(m) => is_memory(m),
        Source::Imm(z) => is_signed_long(z),
    }
}

fn is_encodable_insn(insn: Insn) -> bool
    ensures { result ≡ is_encodable insn }
{
    match insn {
        Insn::ReadCr3(r) | Insn::WriteCr3(r) | Insn::ReadGs(r) | Insn::WriteGs(r) => {
            is_register(r)
        }
        Insn::Mov(w, p, s) => is_wide(w) && is_move(w, p, s),
        Insn::Lea(w, r, m) => is_wide(w) && (is_register(r) && (!m.gs && is_memory(m))),
        Insn::Xchg(w, p, r) => is_wide(w) && (is_place(p) && is_register(r)),
        Insn::Push(s) => is_pushed(s),
        Insn::Pop(p) => is_place(p),
        Insn::Alu(_, w, p, s) => is_wide(w) && is_pair(w, p, s),
        Insn::Test(w, p, s) => is_test(w, p, s),
        Insn::Bit(_, w, p, _) => is_wide(w) && is_place(p),
        Insn::Jcc(c, _) => c < 16,
        Insn::Nop
        | Insn::Endbr64
        | Insn::Lfence
        | Insn::Ud2
        | Insn::Cld
        | Insn::Clac
        | Insn::Stac
        | Insn::Cli
        | Insn::Sti
        | Insn::Swapgs
        | Insn::Sysretq
        | Insn::Iretq
        | Insn::Rdmsr
        | Insn::Wrmsr
        | Insn::Pushfq
        | Insn::Popfq
        | Insn::Ret
        | Insn::Jmp(_)
        | Insn::Call(_) => true,
    }
}

impl Insn {
    /// Whether some spelling of the grammar gives this instruction, reach of targets aside.
    pub fn encodable(&self) -> bool
        ensures is { result ≡ is_encodable self.now }
        // What is spelled is encodable.
        ensures spelled { (bytes : List ℕ) (at : ℕ) → Spells bytes at self.now → IsTrue result }
    {
        is_encodable_insn(*self)
    }
}
