//! The rules on the loaded segments of an ELF file.

ghost use Rattle.std.specs.Prelude.{◌≡◌, ◌+◌, ◌≤◌, length, [], Ok};
ghost use Rattle.kc_rules.specs.Rules.{Gives, over};
ghost use Rattle.kc_image.specs.Fault.{no_memory};
ghost use Rattle.kc_image.specs.FirstFault.{add_load, add_segment, entries, program_table};

use crate::elf::{FileHeader, PHDR_SIZE, PT_LOAD, ProgramHeader, read_program_header};
use crate::fault::{ImageFault, ImageKind, refuse_if};
use crate::header::passes_end;
use crate::segments::{Place, Segments};
use kc_words::Span;
use std::alloc::Global;

/// With the segment of a PT_LOAD header, which is at this offset.
#[tactic(auto, unfolding(crate::specs::FirstFault::add_load))]
fn with_load(
    segments: Segments,
    file: &[u8],
    header: &ProgramHeader,
    at: u64,
) -> Result<Segments, ImageFault>
    ensures { Gives no_memory (λ s. s) result (add_load file.now segments header.now at) }
{
    refuse_if(
        passes_end(file, header.p_offset, header.p_filesz),
        ImageKind::SegmentOut,
        at,
    )?;
    refuse_if(header.p_memsz < header.p_filesz, ImageKind::SegmentOut, at)?;
    let Some(end) = header.p_vaddr.checked_add(header.p_memsz) else {
        return Err(ImageFault {
            kind: ImageKind::SegmentOut,
            at,
        });
    };
    let span = Span {
        from: header.p_vaddr,
        to: end,
    };
    if segments.meets(&span) {
        return Err(ImageFault {
            kind: ImageKind::SegmentsMeet,
            at,
        });
    }
    segments.with(&Place {
        span,
        offset: header.p_offset,
        size: header.p_filesz,
    })
}

/// With what the program header at this offset adds.
#[tactic(auto, unfolding(crate::specs::FirstFault::add_segment))]
fn with_segment(segments: Segments, file: &[u8], at: u64) -> Result<Segments, ImageFault>
    requires { at + PHDR_SIZE ≤ length file.now }
    ensures { Gives no_memory (λ s. s) result (add_segment file.now segments at) }
{
    let header = read_program_header(file, at);
    if header.p_type == PT_LOAD {
        with_load(segments, file, &header, at)
    } else {
        Ok(segments)
    }
}

/// The segments of the program headers, whose table lies in the file.
pub(crate) fn read_segments(
    alloc: Global,
    file: &[u8],
    header: &FileHeader,
) -> Result<Segments, ImageFault>
    requires { program_table file.now header.now ≡ Ok tt }
    ensures { Gives no_memory (λ s. s) result
        (over (add_segment file.now) [] (entries header.now.e_phoff PHDR_SIZE header.now.e_phnum)) }
{
    let mut segments = Segments::new(alloc);
    for i in 0..header.e_phnum {
        let at = header.e_phoff + PHDR_SIZE * u64::from(i);
        segments = with_segment(segments, file, at)?;
    }
    Ok(segments)
}
