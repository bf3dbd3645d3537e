//! A node as its conditions read it, and C4 and C5. This project's own.

ghost use Rattle.std.specs.Prelude.{◌≡◌, ◌≤◌, ◌&&◌, ◌||◌, not, is_some, true, option_map};
ghost use Rattle.kc_bits.specs.Bits.{word};
ghost use Rattle.kc_regions.specs.declared.touch.Touch.TheVariants.{Fetch};
ghost use Rattle.kc_state.specs.Access.{may_bytes};
ghost use Rattle.kc_state.specs.AbsEffect.{moment_of};
ghost use Rattle.kc_state.specs.AbsEvents.{handler_called_by};
ghost use Rattle.kc_state.specs.Conditions.{is_exact};
ghost use Rattle.kc_cert.specs.Code.{insn_at};
ghost use Rattle.kc_cert.specs.Conditions.{is_text};
ghost use Rattle.kc_cert.specs.Placed.{next_address};
ghost use Rattle.kc_placed.specs.Placing.{placed_at};

use kc_cert::insn_at;
use kc_image::Image;
use kc_insn::Insn;
use kc_regions::{Config, Touch};
use kc_space::MapState;
use kc_state::{AbsState, Key, Location, Moment, Site, cpu_of, is_exact, may};
use std::marker::Model;

/// What is known at a site of a context, and the instruction there, which has `len` bytes.
#[derive(Drop)]
pub struct PlacedNode<'a> {
    pub key: &'a Key,
    pub site: Site,
    pub state: &'a AbsState,
    pub insn: Insn,
    pub len: u8,
}

impl<'a> Model for PlacedNode<'a> {
    ghost use Rattle.std.specs.Prelude.{◌≡◌, ◌≤◌, true};
    ghost use Rattle.kc_insn.specs.Encodable.{is_encodable};
    ghost use Rattle.kc_cert.specs.Placed.{Placed};

    ghost Value = { Placed };

    ghost view = { λ p. record { key = p.key.now; site = p.site; state = p.state.now; insn = p.insn; len = p.len } };

    ghost invariant = { λ p. ((1 ≤ p.len) × (p.len ≤ 15)) × (is_encodable p.insn ≡ true) };
}

impl<'a> PlacedNode<'a> {
    /// The address after the instruction.
    pub fn next(&self) -> u64
        ensures value { result ≡ next_address self.now }
    {
        self.site.at.wrapping_add(u64::from(self.len))
    }
}

/// C4: the GS pair, CR3 and RSP are exact in what is known at the site of a context of this key.
pub fn is_exact_at(cfg: &Config, key: &Key, site: &Site, state: &AbsState) -> bool
    ensures value { result ≡ is_exact (moment_of cfg.now key.now state.now 0) site.now.inside }
{
    let cpu = cpu_of(state);
    let m = Moment {
        cfg,
        key,
        cpu: &cpu,
        slots: &state.slots,
        next: 0,
    };
    is_exact(&m, site.inside)
}

/// Whether the instruction calls a handler.
pub fn calls_handler(cfg: &Config, insn: &Insn) -> bool
    ensures value { result ≡ is_some (handler_called_by cfg.now insn.now) }
{
    match *insn {
        Insn::Call(target) => match cfg.handler_of(target) {
            Some(h) => cfg.handlers.get(usize::from(h)).is_some(),
            None => false,
        },
        _ => false,
    }
}

// Whether the bytes may be executed under the map.
fn may_fetch(cfg: &Config, key: &Key, map: MapState, at: u64, len: u8) -> bool
    ensures { result ≡ may_bytes cfg.now map Fetch at len }
{
    may(cfg, key, map, Location::Number(at), len, Touch::Fetch)
}

/// C5: the instruction is executable text, and inside a handler it calls one.
pub fn is_text(cfg: &Config, p: &PlacedNode) -> bool
    ensures value { result ≡ is_text cfg.now p.now }
{
    may_fetch(cfg, p.key, p.state.map, p.site.at, p.len)
        && (!p.site.inside || calls_handler(cfg, &p.insn))
}

/// What is known at a site of a context of this key, with the instruction there. None where the image's bytes spell
/// none.
pub fn place<'a>(
    image: &Image,
    key: &'a Key,
    site: Site,
    state: &'a AbsState,
) -> Option<PlacedNode<'a>>
    ensures value { result ≡ option_map (placed_at key.now site state.now) (insn_at image.now site.at) }
{
    let (insn, len) = insn_at(image, site.at)?;
    Some(PlacedNode {
        key,
        site,
        state,
        insn,
        len,
    })
}
