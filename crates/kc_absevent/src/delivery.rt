//! The delivery of an event, over abstract states (Intel SDM vol. 3A, "64-Bit Mode Stack Frame" and
//! "Interrupt Stack Table").

ghost use Rattle.std.specs.Prelude.{◌≡◌, ◌≤◌, ◌&&◌, ◌||◌, not, get_or, is_some, true, IsSome, IfSome, IfOk, Option, Some, length};
ghost use Rattle.std.proofs.Props.{props};
ghost use Rattle.kc_regions.specs.Lookup.{gate_of};
ghost use Rattle.kc_regions.specs.Region.{stacks_of};
ghost use Rattle.kc_value.specs.Made.{IsPlace};
ghost use Rattle.kc_value.specs.Value.{value_top};
ghost use Rattle.kc_insn.specs.Encodable.{is_encodable};
ghost use Rattle.kc_state.specs.AbsEffect.{moment_of};
ghost use Rattle.kc_state.specs.AbsEvents.{HasStack, handler_called_by};
ghost use Rattle.kc_state.specs.Conditions.{clear_at, is_exact};
ghost use Rattle.kc_state.specs.Key.{IsKey};
ghost use Rattle.kc_state.specs.Location.{location_of};
ghost use Rattle.kc_state.specs.WellFormed.{IsStateWellFormed, IsUserWellFormed};
ghost use Rattle.kc_state.specs.AbsDelivery.{delivered_from, delivered_at, delivered_below, delivered, delivery, interrupted_at, user_delivery, user_entry};
ghost use Rattle.kc_absevent.specs.Covers.{CoversEntry};
ghost use Rattle.kc_absevent.specs.Ends.{Delivers};

use crate::accesses::{may_push, may_touch};
use crate::entered::{enter_key, enter_syscall, own_frame};
use crate::entry::Entry;
use crate::events::handler_called_by;
use crate::floors::put_floor;
use crate::interrupted::{interrupt_kernel, interrupt_user, is_relative};
use crate::stack::{align, choose_rsp, choose_word, frame_size};
use kc_frames::{Floor, Slots};
use kc_insn::Insn;
use kc_lattice::Domain;
use kc_regions::{Config, Gate, Handler};
use kc_state::{
    AbsState, Condition, Interrupted, Key, Location, Moment, Scratch, Site, UserState, clear,
    cpu_of, is_exact, is_stack_present, loc, number_value,
};
use kc_value::Value;

const REFUSED: Condition = Condition::EVENT_COVERED;

// RSP's number among the registers.
const RSP: usize = 4;

// The gate of the vector, which has one; its IST is in range.
#[tactic(auto, using(crate::proofs::RegionLemmas::ist_range))]
fn gate_at(cfg: &Config, vector: u8) -> Gate
    requires { IsSome (gate_of cfg.now.gates vector) }
    ensures gate { gate_of cfg.now.gates vector ≡ Some result }
    ensures ist { result.ist ≤ 7 }
{
    cfg.tell();
    match cfg.gate(vector) {
        Some(gate) => gate,
        None => unreachable!(),
    }
}

// From a constant base.
fn deliver_from<'a>(
    cfg: &Config,
    i: &'a Interrupted,
    slots: &'a Slots<Value>,
    gate: &Gate,
    base: u64,
) -> Option<Entry<'a>>
    requires ist { gate.now.ist ≤ 7 }
    ensures { result ≡ delivered_from cfg.now i.now slots.now gate.now base }
{
    let key = enter_key(i, gate.vector, Some(base));
    let n = frame_size(gate.vector);
    let word = choose_word(gate.ist, i.kernel);
    if !may_touch(cfg, &key, i.map, gate.vector, word)
        || !may_push(cfg, &key, i.map, &i.floors, base, n)
    {
        return None;
    }
    Some(Entry {
        key,
        interrupted: i,
        slots,
        gate: *gate,
        rsp: number_value(cfg, base.wrapping_sub(u64::from(n))),
        floors: i.floors,
    })
}

fn deliver_at<'a>(
    cfg: &Config,
    i: &'a Interrupted,
    slots: &'a Slots<Value>,
    gate: &Gate,
    rsp: Option<u64>,
) -> Option<Entry<'a>>
    requires ist { gate.now.ist ≤ 7 }
    ensures { result ≡ delivered_at cfg.now i.now slots.now gate.now rsp }
{
    match rsp {
        Some(n) => deliver_from(cfg, i, slots, gate, align(n)),
        None => None,
    }
}

// On the interrupted stack, where `clear` says whether the bytes below RSP are.
fn deliver_below<'a>(
    cfg: &Config,
    i: &'a Interrupted,
    slots: &'a Slots<Value>,
    gate: &Gate,
    clear: bool,
) -> Option<Entry<'a>>
    requires stack { IsPlace i.now.stack }
    ensures { result ≡ delivered_below cfg.now i.now slots.now gate.now clear }
{
    let key = enter_key(i, gate.vector, None);
    if !may_touch(cfg, &key, i.map, gate.vector, None)
        || !(clear && is_stack_present(cfg, i.stack, i.map))
    {
        return None;
    }
    Some(Entry {
        key,
        interrupted: i,
        slots,
        gate: *gate,
        rsp: own_frame(i.stack, frame_size(gate.vector)),
        floors: put_floor(&i.floors, i.stack, Floor::Base),
    })
}

// Whether the bytes below RSP hold no live one.
fn is_clear(cfg: &Config, key: &Key, state: &AbsState, rsp: Option<Location>) -> bool
    ensures { result ≡ clear_at (moment_of cfg.now key.now state.now 0) state.now.floors rsp 0 }
{
    match rsp {
        Some(l) => clear(cfg, key, &state.floors, l, 0),
        None => false,
    }
}

// Whether condition C4 holds of the state.
fn is_state_exact(cfg: &Config, key: &Key, site: &Site, state: &AbsState) -> bool
    ensures { result ≡ is_exact (moment_of cfg.now key.now state.now 0) site.now.inside }
{
    let cpu = cpu_of(state);
    let m = Moment {
        cfg,
        key,
        cpu: &cpu,
        slots: &state.slots,
        next: 0,
    };
    is_exact(&m, site.inside)
}

// Whether C4 holds, and at an inside site a handler runs.
fn may_deliver(
    cfg: &Config,
    key: &Key,
    site: &Site,
    state: &AbsState,
    handler: Option<Handler>,
) -> bool
    ensures { result ≡ (is_exact (moment_of cfg.now key.now state.now 0) site.now.inside &&
        (not site.now.inside || is_some handler)) }
{
    is_state_exact(cfg, key, site, state) && (!site.inside || handler.is_some())
}

/// Kernel code that events interrupt at a site, and what is the same for each of them.
#[derive(Drop)]
pub struct Interruption<'a> {
    pub cfg: &'a Config,
    pub key: &'a Key,
    pub site: &'a Site,
    pub state: &'a AbsState,
    pub insn: &'a Insn,
    /// The handler that the instruction calls.
    handler: Option<Handler>,
    /// Whether C4 holds, and at an inside site a handler runs.
    ready: bool,
    interrupted: Interrupted,
    rsp: Option<Location>,
    /// Whether the bytes below RSP hold no live one.
    clear: bool,
    ghost its_handler: { handler ≡ handler_called_by cfg.now insn.now },
    ghost is_ready: { ready ≡ (is_exact (moment_of cfg.now key.now state.now 0) site.now.inside &&
        (not site.now.inside || is_some handler)) },
    ghost its_context: { interrupted ≡ interrupted_at cfg.now key.now site.now state.now handler },
    ghost its_stack: { IsPlace interrupted.stack } by { Prim.hlevel props },
    ghost its_rsp: { rsp ≡ location_of key.now (get_or state.now.regs 4 value_top) },
    ghost is_clear: { clear ≡ clear_at (moment_of cfg.now key.now state.now 0) state.now.floors rsp 0 },
}

impl<'a> Interruption<'a> {
    /// Kernel code at this site, before the instruction `insn` or inside the handler that it calls.
    pub fn of(
        cfg: &'a Config,
        key: &'a Key,
        site: &'a Site,
        state: &'a AbsState,
        insn: &'a Insn,
    ) -> Interruption<'a>
        requires stack { HasStack cfg.now key.now }
        ensures cfg { result.cfg.now ≡ cfg.now }
        ensures key { result.key.now ≡ key.now }
        ensures site { result.site.now ≡ site.now }
        ensures state { result.state.now ≡ state.now }
        ensures insn { result.insn.now ≡ insn.now }
    {
        let handler = handler_called_by(cfg, insn);
        let rsp = loc(key, &state.regs[RSP]);
        Interruption {
            cfg,
            key,
            site,
            state,
            insn,
            handler,
            ready: may_deliver(cfg, key, site, state, handler),
            interrupted: interrupt_kernel(cfg, key, site, state, handler),
            rsp,
            clear: is_clear(cfg, key, state, rsp),
        }
    }

    fn deliver_through<'b>(&'b self, gate: &Gate) -> Option<Entry<'b>>
        requires ist { gate.now.ist ≤ 7 }
        ensures { result ≡ delivered self.now.cfg.now self.now.key.now self.now.site.now self.now.state.now
            self.now.handler gate.now }
    {
        let (cfg, i, slots) = (self.cfg, &self.interrupted, &self.state.slots);
        if gate.ist == 0 && (self.site.inside || is_relative(self.rsp)) {
            deliver_below(cfg, i, slots, gate, self.clear)
        } else {
            let chosen = choose_rsp(slots, self.rsp, choose_word(gate.ist, true));
            deliver_at(cfg, i, slots, gate, chosen)
        }
    }

    /// What the event of this vector enters; none where C4 fails, where at an inside site no handler runs, or where
    /// there is no permitted frame. It takes no memory.
    pub fn deliver<'b>(&'b self, vector: u8) -> Option<Entry<'b>>
        requires gate { IsSome (gate_of self.now.cfg.now.gates vector) }
        ensures value { result ≡ delivery self.now.cfg.now self.now.key.now self.now.site.now self.now.state.now
            self.now.insn.now vector }
    {
        if !self.ready {
            return None;
        }
        let gate = gate_at(self.cfg, vector);
        self.deliver_through(&gate)
    }
}

// The entry, if there is one, with what is known there in `out.out`.
fn put_entry(entry: Option<Entry>, out: &mut Scratch) -> Result<Key, Condition>
    ensures { Delivers result out.old out.new entry.entry }
{
    match entry {
        Some(entry) => {
            entry.put(&mut out.out);
            Ok(entry.key)
        }
        None => Err(REFUSED),
    }
}

/// Delivers the event of this vector at a site: the context that is entered and, in `out.out`, what is
/// known there. C14 comes exactly where there is no permitted frame, and then `out` is as before. The
/// key keeps the rules of keys, and where `state` is well-formed for `key`, the entry state is for the
/// one that is entered. It takes no memory.
pub fn deliver_abs(
    cfg: &Config,
    key: &Key,
    site: &Site,
    state: &AbsState,
    insn: &Insn,
    vector: u8,
    out: &mut Scratch,
) -> Result<Key, Condition>
    requires encodable { is_encodable insn.now ≡ true }
    requires stack { HasStack cfg.now key.now }
    requires gate { IsSome (gate_of cfg.now.gates vector) }
    ensures value { Delivers result out.old out.new (delivery cfg.now key.now site.now state.now insn.now vector) }
    ensures key { IfOk result (IsKey (length (stacks_of cfg.now.regions))) }
    ensures well_formed { IsStateWellFormed cfg.now key.now state.now
        → IfOk result (λ k. IsStateWellFormed cfg.now k out.new.out) }
{
    cfg.tell();
    let interruption = Interruption::of(cfg, key, site, state, insn);
    put_entry(interruption.deliver(vector), out)
}

fn deliver_user_vector(
    cfg: &Config,
    user: &UserState,
    vector: u8,
    out: &mut Scratch,
) -> Result<Key, Condition>
    requires gate { IsSome (gate_of cfg.now.gates vector) }
    ensures { Delivers result out.old out.new (user_delivery cfg.now user.now vector) }
{
    let gate = gate_at(cfg, vector);
    let i = interrupt_user(cfg, user);
    let chosen = choose_rsp(&user.slots, None, choose_word(gate.ist, false));
    put_entry(deliver_at(cfg, &i, &user.slots, &gate, chosen), out)
}

fn enter_from_user(
    cfg: &Config,
    user: &UserState,
    entry: Option<u8>,
    out: &mut Scratch,
) -> Result<Key, Condition>
    requires gate { IfSome entry (λ v. IsSome (gate_of cfg.now.gates v)) }
    ensures value { Delivers result out.old out.new (user_entry cfg.now user.now entry) }
    ensures key { IfOk result (IsKey (length (stacks_of cfg.now.regions))) }
    ensures well_formed { IsUserWellFormed user.now → IfOk result (λ k. IsStateWellFormed cfg.now k out.new.out) }
{
    match entry {
        Some(v) => deliver_user_vector(cfg, user, v, out),
        None => Ok(enter_syscall(cfg, user, &mut out.out)),
    }
}

/// The same while the user runs; None is SYSCALL, which always enters.
pub fn deliver_user(
    cfg: &Config,
    user: &UserState,
    entry: Option<u8>,
    out: &mut Scratch,
) -> Result<Key, Condition>
    requires gate { IfSome entry (λ v. IsSome (gate_of cfg.now.gates v)) }
    ensures value { Delivers result out.old out.new (user_entry cfg.now user.now entry) }
    ensures key { IfOk result (IsKey (length (stacks_of cfg.now.regions))) }
    ensures well_formed { IsUserWellFormed user.now → IfOk result (λ k. IsStateWellFormed cfg.now k out.new.out) }
    // Where the user state describes the machine, the event or SYSCALL breaks nothing, and the entry state
    // describes the machine that it leads to.
    ensures covers { IfOk result (λ k. CoversEntry cfg.now user.now entry k out.new.out) }
{
    cfg.tell();
    user.tell();
    enter_from_user(cfg, user, entry, out)
}
