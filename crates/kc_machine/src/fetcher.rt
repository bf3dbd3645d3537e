//! An image with the instructions that were fetched last, which aren't read and decoded again.

ghost use Rattle.std.specs.Prelude.{◌≡◌, IfSome, Some};
ghost use Rattle.kc_image.specs.Image.{Contents};
ghost use Rattle.kc_machine.specs.FetchSteps.{IsFetched, IsKept};

use kc_events::fetch;
use kc_image::Image;
use kc_insn::Insn;
use std::marker::Model;

/// How many instructions are kept: one of those whose addresses have the same last eight bits.
const KEPT: usize = 256;

/// An instruction of the image, with its address and the number of its bytes.
#[derive(Clone, Copy)]
struct Kept {
    at: u64,
    insn: Insn,
    len: u8,
}

const NONE: Option<Kept> = None;

/// Contracts see the image.
#[derive(Drop)]
pub(crate) struct Fetcher {
    image: Image,
    kept: [Option<Kept>; KEPT],
}

impl Model for Fetcher {
    ghost use Rattle.std.specs.Prelude.{All, IfSome};
    ghost use Rattle.kc_image.specs.Image.{Contents};
    ghost use Rattle.kc_machine.specs.FetchSteps.{IsKept};

    ghost Value = { Contents };

    ghost view = { λ f. f.image };

    ghost invariant = { λ f. All (λ k. IfSome k (IsKept f.image)) f.kept };
}

// The instruction at the address, where it was kept.
fn find(kept: Option<Kept>, at: u64) -> Option<(Insn, u8)>
    ensures { (image : Contents) → IfSome kept (IsKept image) → IfSome result (λ r. IsFetched image at (Some r)) }
{
    match kept {
        Some(kept) => {
            if kept.at == at {
                Some((kept.insn, kept.len))
            } else {
                None
            }
        }
        None => None,
    }
}

// What is kept of an instruction that was fetched.
fn keep(at: u64, found: Option<(Insn, u8)>) -> Option<Kept>
    ensures { (image : Contents) → IsFetched image at found → IfSome result (IsKept image) }
{
    match found {
        Some((insn, len)) => Some(Kept { at, insn, len }),
        None => None,
    }
}

impl Fetcher {
    /// The image, of which nothing was fetched.
    pub(crate) fn new(image: Image) -> Fetcher
        ensures { result ≡ image }
    {
        Fetcher {
            image,
            kept: [NONE; KEPT],
        }
    }

    /// The image.
    pub(crate) fn image(&self) -> &Image
        ensures { result.now ≡ self.now }
    {
        &self.image
    }

    // Fetches the instruction at the address from the image.
    fn fetch_anew(&mut self, at: u64) -> Option<(Insn, u8)>
        ensures image { self.new ≡ self.old }
        ensures fetched { IsFetched self.old at result }
    {
        let found = fetch(&self.image, at);
        self.kept[(at % 256) as usize] = keep(at, found);
        found
    }

    /// The instruction that the image's bytes spell at this address and the number of its bytes. None
    /// where they spell none.
    pub(crate) fn fetch(&mut self, at: u64) -> Option<(Insn, u8)>
        ensures image { self.new ≡ self.old }
        ensures fetched { IsFetched self.old at result }
    {
        match find(self.kept[(at % 256) as usize], at) {
            Some(found) => Some(found),
            None => self.fetch_anew(at),
        }
    }
}
