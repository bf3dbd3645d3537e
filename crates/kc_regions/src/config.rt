//! A whole description, with the rules between its parts.

ghost use Rattle.std.specs.Prelude.{◌≡◌, ◌≤◌, IfOk, IfErr, length};
ghost use Rattle.kc_regions.specs.Description.{of_parts};
ghost use Rattle.kc_regions.specs.Ranges.{AreInRange};
ghost use Rattle.kc_regions.specs.CrossRules.{IsFirstCrossFault};
ghost use Rattle.kc_regions.specs.Valid.{IsValid};
ghost use Rattle.kc_regions.specs.Lookup.{gate_of, handler_of};
ghost use Rattle.kc_regions.specs.Permission.{in_guard, is_present, has_right, permits, user_cs64, user_ss, is_user_cs};

use crate::check::check_rules;
use crate::cpu::CpuSetup;
use crate::cross::find_gate;
use crate::entry::{Gate, Handler, Word};
use crate::region::Region;
use crate::regions::Regions;
use crate::touch::Touch;
use kc_plain::Items;
use std::marker::Model;

/// The most gates of a description.
pub const MAX_GATES: usize = 256;

/// The most handlers of a description.
pub const MAX_HANDLERS: usize = 256;

/// The most tracked words of a description.
pub const MAX_WORDS: usize = 32;

/// Rule 2, after rule 1, which is that of `Regions`: user regions lie below all others.
pub const SIDES: u8 = 2;

/// Rule 3: the number, size and alignment of stacks.
pub const STACKS: u8 = 3;

/// Rule 4: a guard below each stack.
pub const GUARDS: u8 = 4;

/// Rule 5: the CR3 values differ, and neither is the number of an address in a stack.
pub const CR3_VALUES: u8 = 5;

/// Rule 6: the TSS lies in an area.
pub const TSS: u8 = 6;

/// Rule 7: the gates' vectors differ.
pub const VECTORS: u8 = 7;

/// Rule 8: the gates of debug exception, NMI, page fault and machine check are there.
pub const GATES: u8 = 8;

/// Rule 9: the handlers' entries differ.
pub const ENTRIES: u8 = 9;

/// Rule 10: tracked words lie in areas and meet no other word.
pub const WORDS: u8 = 10;

/// The first rule between the parts that fails, by its number from 2 to 10, and the first element
/// that breaks it: the index of a region, gate, handler or word, for `GATES` the missing vector,
/// and 0 for `CR3_VALUES` and `TSS`.
#[derive(Clone, Copy, PartialEq, Eq, Debug)]
pub struct CrossFault {
    pub rule: u8,
    pub index: u16,
}

/// A valid description: every value is in its range, and every rule between the parts holds.
#[derive(Debug, Drop)]
pub struct Config {
    pub cpu: CpuSetup,
    pub regions: Regions,
    pub gates: Items<Gate>,
    pub handlers: Items<Handler>,
    pub words: Items<Word>,
}

impl Model for Config {
    ghost use Rattle.kc_regions.specs.Description.{Description, of_parts};

    ghost Value = { Description };

    ghost use Rattle.kc_regions.specs.Valid.{IsValid};

    ghost view = { λ c. of_parts c.cpu c.regions c.gates c.handlers c.words };

    ghost invariant = { λ c. IsValid (of_parts c.cpu c.regions c.gates c.handlers c.words) };
}

impl Config {
    /// The description of these parts. It takes no memory. A refusal is the first rule between them
    /// that fails, with the first element that breaks it.
    pub fn new(
        cpu: CpuSetup,
        regions: Regions,
        gates: Items<Gate>,
        handlers: Items<Handler>,
        words: Items<Word>,
    ) -> Result<Config, CrossFault>
        requires { AreInRange (of_parts cpu regions gates handlers words) }
        ensures parts { IfOk result (λ c. c ≡ of_parts cpu regions gates handlers words) }
        ensures valid { IfOk result IsValid }
        ensures fault { IfErr result (IsFirstCrossFault (of_parts cpu regions gates handlers words)) }
    {
        check_rules(
            &cpu,
            &regions,
            gates.as_slice(),
            handlers.as_slice(),
            words.as_slice(),
        )?;
        Ok(Config {
            cpu,
            regions,
            gates,
            handlers,
            words,
        })
    }

    /// Does nothing, and tells a proof that the description is valid.
    pub fn tell(&self)
        ensures valid { IsValid self.now }
    {
        let _cpu = self.cpu;
    }

    /// Whether the address lies in a guard: an access to it stops the machine.
    pub fn is_guard(&self, a: u64) -> bool
        ensures is { result ≡ in_guard self.now.regions a }
    {
        match self.regions.of(a) {
            Some(region) => region.kind.is_guard(),
            None => false,
        }
    }

    /// Whether the address lies in a region that is present under this CR3 and has the right that
    /// the access needs.
    pub fn permits(&self, cr3: u64, touch: Touch, a: u64) -> bool
        ensures is { result ≡ permits self.now cr3 touch a }
    {
        match self.regions.of(a) {
            Some(region) => self.is_present(cr3, region) && has_right(touch, region),
            None => false,
        }
    }

    // Whether the region is present under this CR3.
    fn is_present(&self, cr3: u64, region: &Region) -> bool
        ensures { result ≡ is_present self.now.cpu cr3 region.now }
    {
        let cpu = &self.cpu;
        !region.kind.is_guard()
            && (cr3 == cpu.kernel_cr3 || (cr3 == cpu.user_cr3 && region.user_map))
    }

    /// The gate of this vector.
    pub fn gate(&self, vector: u8) -> Option<Gate>
        ensures value { result ≡ gate_of self.now.gates vector }
    {
        find_gate(self.gates.as_slice(), vector)
    }

    /// The number of the handler that begins at this address.
    pub fn handler_of(&self, entry: u64) -> Option<u16>
        ensures value { result ≡ handler_of self.now.handlers entry }
    {
        find_handler(self.handlers.as_slice(), entry)
    }

    /// The CS of 64-bit user code.
    pub fn user_cs64(&self) -> u16
        ensures value { result ≡ user_cs64 self.now.cpu }
    {
        (self.cpu.star_user + 16) | 3
    }

    /// The SS of user code.
    pub fn user_ss(&self) -> u16
        ensures value { result ≡ user_ss self.now.cpu }
    {
        (self.cpu.star_user + 8) | 3
    }

    /// Whether user code may have this CS.
    pub fn is_user_cs(&self, cs: u16) -> bool
        ensures is { result ≡ is_user_cs self.now.cpu cs }
    {
        cs == self.user_cs64() || self.cpu.user_cs32 == Some(cs)
    }
}

fn has_right(touch: Touch, region: &Region) -> bool
    ensures { result ≡ has_right touch region.now }
{
    match touch {
        Touch::Fetch => region.exec,
        Touch::Read => true,
        Touch::Write => region.write,
    }
}

fn find_handler(handlers: &[Handler], entry: u64) -> Option<u16>
    requires { length handlers.now ≤ MAX_HANDLERS }
    ensures { result ≡ handler_of handlers.now entry }
{
    match place_of(handlers, entry) {
        Some(number) => Some(number as u16),
        None => None,
    }
}

fn place_of(handlers: &[Handler], entry: u64) -> Option<usize>
    ensures { result ≡ handler_of handlers.now entry }
{
    handlers.iter().position(|h| h.entry == entry)
}
