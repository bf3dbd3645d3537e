//! Raw images, this project's own: the letters ENTRYRAW, the load address in eight little-endian
//! bytes, and the code up to the file's end.

ghost use Rattle.std.specs.Prelude.{◌≡◌, []};
ghost use Rattle.kc_image.specs.Image.{contents};
ghost use Rattle.kc_image.specs.Raw.{is_raw, raw};
ghost use Rattle.kc_rules.specs.Rules.{Gives};
ghost use Rattle.kc_image.specs.Fault.{no_memory};

use crate::elf::read_xword;
use crate::fault::{ImageFault, ImageKind};
use crate::segments::{Place, Segments};
use kc_words::Span;
use std::alloc::Global;

pub(crate) const RAW_MAGIC: [u8; 8] = *b"ENTRYRAW";
/// The offset of the load address.
pub(crate) const RAW_ADDRESS: u64 = 8;
/// The offset of the code.
pub(crate) const RAW_HEADER: u64 = 16;

pub(crate) fn begins_raw(file: &[u8]) -> bool
    ensures { result ≡ is_raw file.now }
{
    file.starts_with(&RAW_MAGIC)
}

/// The code as one segment.
#[tactic(auto, unfolding(crate::specs::Raw::raw))]
pub(crate) fn read_raw(alloc: Global, file: &[u8]) -> Result<Segments, ImageFault>
    ensures { Gives no_memory (λ s. contents file.now s []) result (raw file.now) }
{
    let len = file.len() as u64;
    if len < RAW_HEADER {
        return Err(ImageFault {
            kind: ImageKind::HeaderOut,
            at: len,
        });
    }
    let address = read_xword(file, RAW_ADDRESS);
    let size = len - RAW_HEADER;
    let Some(end) = address.checked_add(size) else {
        return Err(ImageFault {
            kind: ImageKind::SegmentOut,
            at: RAW_ADDRESS,
        });
    };
    let place = Place {
        span: Span {
            from: address,
            to: end,
        },
        offset: RAW_HEADER,
        size,
    };
    Segments::new(alloc).with(&place)
}
