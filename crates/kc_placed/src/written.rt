//! What an event's frame and an instruction may write: stacks, and words of the TSS and of the description. This
//! project's own.

ghost use Rattle.std.specs.Prelude.{◌≡◌, ◌<◌, cond, false, Some};
ghost use Rattle.kc_cert.specs.Placed.{called_stack, moment, rising, with_bytes, with_stack_in, with_stacks_at, with_stacks_of, with_store, with_words_at, written_by};
ghost use Rattle.kc_frames.specs.Clobber.{nothing_written, with_word};
ghost use Rattle.kc_regions.specs.Region.{stack_of};
ghost use Rattle.kc_state.specs.AbsEvents.{HasStack, handler_called_by};
ghost use Rattle.kc_state.specs.Memory.{meets_word};
ghost use Rattle.kc_state.specs.Places.{home_stack, location_stack, word_of};
ghost use Rattle.kc_value.specs.Made.{IsPlace};

use crate::placed::{PlacedNode, calls_handler};
use kc_frames::Clobber;
use kc_regions::Config;
use kc_state::{Key, Location, Moment, cpu_of, home, loc, meets_word, pushed, stack_at, word_of};
use kc_transfer::{Store, abs_row};

fn add_stack_in(all: &mut Clobber, stack: Option<u8>)
    requires { IsPlace stack }
    ensures { all.new ≡ with_stack_in all.old stack }
{
    if let Some(s) = stack {
        all.add_stack(s);
    }
}

// The stack of the byte at this address.
#[tactic(auto, using(kc_state::proofs::StackLemmas::is_place))]
fn add_stack_of(cfg: &Config, all: &mut Clobber, a: u64)
    ensures { all.new ≡ with_stack_in all.old (stack_of cfg.now.regions a) }
{
    cfg.tell();
    add_stack_in(all, cfg.regions.stack_of(a));
}

#[tactic(auto, using(crate::proofs::WrittenLemmas::stacks_first, crate::proofs::WrittenLemmas::stacks_none))]
fn add_stacks_of(cfg: &Config, all: &mut Clobber, a: u64, size: u8)
    ensures { all.new ≡ with_stacks_of cfg.now all.old a size }
{
    let mut at = a;
    let mut left = size;
    while left > 0 {
        add_stack_of(cfg, all, at);
        at = at.wrapping_add(1);
        left -= 1;
    }
}

// Word `i`, where the bytes meet it.
fn add_word_at(cfg: &Config, key: &Key, all: &mut Clobber, l: Location, size: u8, i: u16)
    requires { i < 40 }
    ensures { all.new ≡ cond (meets_word l size (word_of cfg.now key.now i)) (with_word all.old i) all.old }
{
    if meets_word(l, u32::from(size), word_of(cfg, key, i)) {
        all.add_word(i);
    }
}

#[tactic(auto, using(crate::proofs::WrittenLemmas::words_first, crate::proofs::WrittenLemmas::words_none, crate::proofs::WrittenLemmas::words_all))]
fn add_words_at(cfg: &Config, key: &Key, all: &mut Clobber, l: Location, size: u8)
    ensures { all.new ≡ with_words_at cfg.now key.now l size all.old (rising 0 40) }
{
    for i in 0..40 {
        add_word_at(cfg, key, all, l, size, i);
    }
}

fn add_stacks_at(cfg: &Config, key: &Key, all: &mut Clobber, l: Location, size: u8)
    requires { IsPlace key.now.stack }
    ensures { all.new ≡ with_stacks_at cfg.now key.now all.old l size }
{
    match l {
        Location::Number(a) => add_stacks_of(cfg, all, a, size),
        Location::Relative(_) => add_stack_in(all, key.stack),
    }
}

fn add_bytes(cfg: &Config, key: &Key, all: &mut Clobber, l: Location, size: u8)
    requires { IsPlace key.now.stack }
    ensures { all.new ≡ with_bytes cfg.now key.now all.old (Some l) size }
{
    add_stacks_at(cfg, key, all, l, size);
    add_words_at(cfg, key, all, l, size);
}

fn add_store(cfg: &Config, key: &Key, all: &mut Clobber, store: Option<Store>)
    requires { IsPlace key.now.stack }
    ensures { all.new ≡ with_store cfg.now key.now all.old store }
{
    if let Some(s) = store {
        if let Some(l) = s.at {
            add_bytes(cfg, key, all, l, s.size);
        }
    }
}

// The stack of a location that is known.
#[tactic(auto, using(kc_state::proofs::StackLemmas::is_place))]
fn stack_in(cfg: &Config, key: &Key, at: Option<Location>) -> Option<u8>
    requires { IsPlace key.now.stack }
    ensures stack { result ≡ location_stack cfg.now key.now at }
    ensures place { IsPlace result }
{
    cfg.tell();
    match at {
        Some(l) => stack_at(cfg, key, l),
        None => None,
    }
}

// The stack on which a handler is called.
fn called_stack(m: &Moment, p: &PlacedNode) -> Option<u8>
    requires moment { m.now ≡ moment m.now.d p.now }
    requires stack { IsPlace p.now.key.stack }
    ensures stack { result ≡ called_stack m.now.d p.now (handler_called_by m.now.d p.now.insn) }
    ensures place { IsPlace result }
{
    if calls_handler(m.cfg, &p.insn) {
        stack_in(m.cfg, p.key, loc(p.key, &pushed(m)))
    } else {
        None
    }
}

// What an instruction, which isn't inside a handler, and the handler that it calls may write.
fn written_at(cfg: &Config, p: &PlacedNode) -> Clobber
    requires stack { IsPlace p.now.key.stack }
    requires outside { p.now.site.inside ≡ false }
    ensures { result ≡ written_by cfg.now p.now }
{
    let cpu = cpu_of(p.state);
    let m = Moment {
        cfg,
        key: p.key,
        cpu: &cpu,
        slots: &p.state.slots,
        next: p.next(),
    };
    let mut all = Clobber::none();
    add_stack_in(&mut all, called_stack(&m, p));
    add_store(cfg, p.key, &mut all, abs_row(&m, &p.insn).store);
    all
}

/// What the instruction, and the handler that it calls, may write; inside a handler it was counted at the call.
#[tactic(auto, using(kc_state::proofs::KeyLemmas::key_place))]
pub fn written_by(cfg: &Config, p: &PlacedNode) -> Clobber
    requires stack { HasStack cfg.now p.now.key }
    ensures value { result ≡ written_by cfg.now p.now }
{
    cfg.tell();
    if p.site.inside {
        Clobber::none()
    } else {
        written_at(cfg, p)
    }
}

/// The stack of the frame of an event with this key, which its delivery writes; nothing for SYSCALL.
pub fn home_written(cfg: &Config, key: &Key) -> Clobber
    requires stack { HasStack cfg.now key.now }
    ensures value { result ≡ with_stack_in nothing_written (home_stack cfg.now key.now) }
{
    cfg.tell();
    let mut all = Clobber::none();
    if let Some(s) = home(cfg, key) {
        all.add_stack(s);
    }
    all
}
