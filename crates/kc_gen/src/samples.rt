//! The samples: small kernels' entry code with the configuration that describes them.

ghost use Rattle.std.specs.Prelude.{◌≡◌, ◌++◌, IfOk};
ghost use Rattle.kc_gen.specs.declared.kind.Sample.TheVariants.{S0, S1, S2};
ghost use Rattle.kc_gen.specs.Samples.{
  syscall_handler,
  s1_events,
  s1_lines,
  s2_lines,
  sample_image,
  sample_config,
};

use crate::image::assemble;
use crate::kind::Sample;
use crate::line::Line;
use crate::listing::{S1_AFTER_FRAME, S2_PARTS, SYSCALL_FRAME};
use crate::parts::{joined, joined_text};
use crate::texts::{
    CPU, ENTRY, FAULTING_NMI_HANDLER, GATES, HANDLERS, HEAD, NMI_HANDLER, ONE_ENTRY_GATES,
    OTHER_HANDLERS, QUIET_ENTRY, QUIET_REGION, STACKS, USER, WORK_STACK,
};
use kc_plain::NoMemory;
use std::alloc::Global;

/// Where the code of each sample begins.
pub const LOAD: u64 = 0xffff_ffff_8100_0000;

/// The lines of S1 after the first eleven of its SYSCALL routine.
pub fn after_frame(alloc: Global) -> Result<Vec<Line>, NoMemory>
    ensures { IfOk result (λ v. v.items ≡ syscall_handler ++ s1_events) }
{
    joined(alloc, S1_AFTER_FRAME)
}

fn s1_lines(alloc: Global) -> Result<Vec<Line>, NoMemory>
    ensures { IfOk result (λ v. v.items ≡ s1_lines) }
{
    let mut lines = joined(alloc, &[SYSCALL_FRAME])?;
    let rest = after_frame(alloc)?;
    lines.extend_from_slice(&rest)?;
    Ok(lines)
}

fn s2_lines(alloc: Global) -> Result<Vec<Line>, NoMemory>
    ensures { IfOk result (λ v. v.items ≡ s2_lines) }
{
    joined(alloc, S2_PARTS)
}

fn s0_image(alloc: Global) -> Result<Vec<u8>, NoMemory>
    ensures { IfOk result (λ v. v.items ≡ sample_image S0) }
{
    let mut image = assemble(alloc, LOAD, &[])?;
    image.extend_from_slice(&[0xEB, 0xFE])?;
    Ok(image)
}

fn s1_image(alloc: Global) -> Result<Vec<u8>, NoMemory>
    ensures { IfOk result (λ v. v.items ≡ sample_image S1) }
{
    let lines = s1_lines(alloc)?;
    assemble(alloc, LOAD, &lines)
}

fn s2_image(alloc: Global) -> Result<Vec<u8>, NoMemory>
    ensures { IfOk result (λ v. v.items ≡ sample_image S2) }
{
    let lines = s2_lines(alloc)?;
    assemble(alloc, LOAD, &lines)
}

fn image(alloc: Global, which: Sample) -> Result<Vec<u8>, NoMemory>
    ensures { IfOk result (λ v. v.items ≡ sample_image which) }
{
    match which {
        Sample::S0 => s0_image(alloc),
        Sample::S1 => s1_image(alloc),
        Sample::S2 => s2_image(alloc),
    }
}

fn config(alloc: Global, which: Sample) -> Result<Vec<u8>, NoMemory>
    ensures { IfOk result (λ v. v.items ≡ sample_config which) }
{
    match which {
        Sample::S0 => joined_text(
            alloc,
            &[
                HEAD,
                QUIET_ENTRY,
                QUIET_REGION,
                STACKS,
                USER,
                ONE_ENTRY_GATES,
                CPU,
            ],
        ),
        Sample::S1 => joined_text(
            alloc,
            &[
                HEAD,
                ENTRY,
                QUIET_REGION,
                STACKS,
                USER,
                GATES,
                HANDLERS,
                NMI_HANDLER,
                OTHER_HANDLERS,
                CPU,
            ],
        ),
        Sample::S2 => joined_text(
            alloc,
            &[
                HEAD,
                QUIET_ENTRY,
                QUIET_REGION,
                STACKS,
                WORK_STACK,
                USER,
                GATES,
                HANDLERS,
                FAULTING_NMI_HANDLER,
                OTHER_HANDLERS,
                CPU,
            ],
        ),
    }
}

/// The bytes of a sample's image and of its configuration. Each line of the configuration ends with
/// 0A.
pub fn sample(alloc: Global, which: Sample) -> Result<(Vec<u8>, Vec<u8>), NoMemory>
    ensures image { IfOk result (λ s. s.0.items ≡ sample_image which) }
    ensures config { IfOk result (λ s. s.1.items ≡ sample_config which) }
{
    let image = image(alloc, which)?;
    let config = config(alloc, which)?;
    Ok((image, config))
}
