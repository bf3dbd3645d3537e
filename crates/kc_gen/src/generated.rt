//! Inputs of any size: S1 with instructions that a seed chooses (this project's own).

ghost use Rattle.std.specs.Prelude.{◌≡◌, ◌≤◌, ◌<◌, ◌^◌, ◌++◌, OnOk, IfOk};
ghost use Rattle.kc_gen.specs.Generated.{
  number_after,
  operand,
  chosen,
  chosen_lines,
  generated_lines,
  generated_image,
  generated_config,
};

use crate::image::assemble;
use crate::line::Line::{self, At, Code};
use crate::listing::SYSCALL_FRAME;
use crate::parts::{joined, joined_text};
use crate::samples::{LOAD, after_frame};
use crate::texts::{
    CPU, ENTRY, GATES, GENERATED_REGION, HANDLERS, HEAD, NMI_HANDLER, OTHER_HANDLERS, QUIET_REGION,
    STACKS, USER,
};
use kc_insn::{AluOp, Base, Insn, Mem, Place, Reg, Source};
use kc_plain::NoMemory;
use kc_words::Width;
use std::alloc::Global;

// The linear congruential generator of MMIX (D. E. Knuth, The Art of Computer Programming, vol. 2,
// 3.3.4, table 1).
const MULTIPLIER: u64 = 6_364_136_223_846_793_005;

const INCREMENT: u64 = 1_442_695_040_888_963_407;

// Where the instructions stand.
const INSTRUCTIONS: u64 = 0xffff_ffff_8110_0000;

// After the jump to them, where the handler of SYSCALL is called.
const CALL: u64 = 0xffff_ffff_8100_0036;

const TO_INSTRUCTIONS: &[Line] = &[
    // jmp INSTRUCTIONS
    Code(Insn::Jmp(INSTRUCTIONS)),
];

/// The number after this one.
fn next_number(x: u64) -> u64
    ensures { result ≡ number_after x }
{
    x.wrapping_mul(MULTIPLIER).wrapping_add(INCREMENT)
}

/// The operand of the instruction that a number chooses: its bits 32 to 61.
fn operand_of(x: u64) -> u32
    ensures is { result ≡ operand x }
    ensures below { result < 2 ^ 30 }
{
    ((x >> 32) % (1 << 30)) as u32
}

/// The instruction that the top two bits of a number choose.
fn choose(x: u64) -> Insn
    ensures { result ≡ chosen x }
{
    let operand = operand_of(x);
    match x >> 62 {
        0 => Insn::Nop,
        // mov rax, operand
        1 => Insn::Mov(
            Width::Quad,
            Place::Reg(Reg::RAX),
            Source::Imm(i64::from(operand)),
        ),
        // add rax, operand
        2 => Insn::Alu(
            AluOp::Add,
            Width::Quad,
            Place::Reg(Reg::RAX),
            Source::Imm(i64::from(operand)),
        ),
        // lea rdx, [rax+operand]
        _ => Insn::Lea(
            Width::Quad,
            Reg::RDX,
            Mem {
                gs: false,
                base: Base::Reg(Reg::RAX),
                index: None,
                disp: operand as i32,
            },
        ),
    }
}

/// Adds the instructions that the numbers after the seed choose, one for each number.
fn put_chosen(lines: &mut Vec<Line>, seed: u64, size: u32) -> Result<(), NoMemory>
    ensures { OnOk result (lines.new.items ≡ lines.old.items ++ chosen_lines seed size) }
{
    let mut x = seed;
    for _ in 0..size {
        x = next_number(x);
        lines.push(Code(choose(x)))?;
    }
    Ok(())
}

/// The listing: S1's, where a jump leads from before the handler's call to the instructions, and
/// another one back.
fn listing(alloc: Global, seed: u64, size: u32) -> Result<Vec<Line>, NoMemory>
    ensures { IfOk result (λ v. v.items ≡ generated_lines seed size) }
{
    let mut lines = joined(alloc, &[SYSCALL_FRAME, TO_INSTRUCTIONS])?;
    let rest = after_frame(alloc)?;
    lines.extend_from_slice(&rest)?;
    lines.push(At(INSTRUCTIONS))?;
    put_chosen(&mut lines, seed, size)?;
    lines.push(Code(Insn::Jmp(CALL)))?;
    Ok(lines)
}

fn image(alloc: Global, seed: u64, size: u32) -> Result<Vec<u8>, NoMemory>
    requires { size ≤ 6000 }
    ensures { IfOk result (λ v. v.items ≡ generated_image seed size) }
{
    let lines = listing(alloc, seed, size)?;
    assemble(alloc, LOAD, &lines)
}

fn config(alloc: Global) -> Result<Vec<u8>, NoMemory>
    ensures { IfOk result (λ v. v.items ≡ generated_config) }
{
    joined_text(
        alloc,
        &[
            HEAD,
            ENTRY,
            QUIET_REGION,
            GENERATED_REGION,
            STACKS,
            USER,
            GATES,
            HANDLERS,
            NMI_HANDLER,
            OTHER_HANDLERS,
            CPU,
        ],
    )
}

/// The bytes of an image and of its configuration, for tests of large inputs: S1, whose SYSCALL
/// routine passes through `size` instructions more that `seed` chooses. Each line of the
/// configuration ends with 0A; it is the same for every seed and size.
pub fn generate(alloc: Global, seed: u64, size: u32) -> Result<(Vec<u8>, Vec<u8>), NoMemory>
    requires least { 1 ≤ size }
    requires most { size ≤ 6000 }
    ensures image { IfOk result (λ s. s.0.items ≡ generated_image seed size) }
    ensures config { IfOk result (λ s. s.1.items ≡ generated_config) }
{
    let image = image(alloc, seed, size)?;
    let config = config(alloc)?;
    Ok((image, config))
}
