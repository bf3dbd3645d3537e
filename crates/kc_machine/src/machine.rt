//! The machine and its steps.

ghost use Rattle.std.specs.Prelude.{◌≡◌, ℕ, Ok, Err, IfOk, OnErr, ◌↔◌, [], true, false};
ghost use Rattle.kc_exec.specs.Admitted.{IsAdmittedStart, clear_latches};
ghost use Rattle.kc_events.specs.Attempt.{attempt};
ghost use Rattle.kc_events.specs.Breaks.{BreaksWith};
ghost use Rattle.kc_events.specs.Run.{Stops, BreaksFirst, IsLike};
ghost use Rattle.kc_machine.specs.declared.end.StepEnd.TheVariants.{NotAllowed, Done, Stopped, Broke};
ghost use Rattle.kc_machine.specs.declared.end.StartEnd.TheVariants.{NotAdmitted};
ghost use Rattle.kc_machine.specs.Ends.{Ends, listed_after};
ghost use Rattle.kc_machine.specs.Step.{Refused, Taken, Lists};
ghost use Rattle.kc_machine.specs.Start.{MayStart, first_cpu, first_bytes};

use crate::code::go;
use crate::end::{StartEnd, StepEnd};
use crate::event::{event, syscall};
use crate::fetcher::Fetcher;
use crate::handler::{body, leave};
use crate::start::{may_start, start_cpu, start_memory};
use crate::user::user;
use kc_cpu::{Cpu, Latch};
use kc_events::{Turn, UserSet, allowed};
use kc_exec::{Access, Log, State};
use kc_image::Image;
use kc_insn::Insn;
use kc_mem::Memory;
use kc_plain::{Items, NoMemory};
use kc_regions::Config;
use std::alloc::Global;
use std::marker::Model;

/// The vectors of events that have turns of their own.
const DEBUG: u8 = 1;

const NMI: u8 = 2;

const PAGE_FAULT: u8 = 14;

const MACHINE_CHECK: u8 = 18;

/// A description, an image and a state, and the accesses of the last turn.
#[derive(Drop)]
pub struct Machine {
    config: Config,
    fetcher: Fetcher,
    state: State,
    log: Log,
}

impl Model for Machine {
    ghost use Rattle.std.specs.Coded.{codes};
    ghost use Rattle.kc_exec.specs.Moment.{bytes_code};
    ghost use Rattle.kc_machine.specs.Machine.{MachineValue};

    ghost Value = { MachineValue };

    ghost coded = { Prim.hlevel (codes, bytes_code) };

    ghost view = { λ m. record { config = m.config; image = m.fetcher; state = m.state; accesses = m.log } };
}

impl Machine {
    /// The admitted start with the processor and the writes of this user set: mode User, no
    /// activation, clear latches, the words of the TSS and the tracked words as the description
    /// sets them, and every other byte 0 but for those that the set writes.
    pub fn start(
        alloc: Global,
        config: Config,
        image: Image,
        first: &UserSet,
    ) -> Result<Machine, StartEnd>
        ensures not_admitted { (result ≡ Err NotAdmitted) ↔ ¬ MayStart config first.now }
        ensures parts { IfOk result (λ m. (m.config ≡ config) × (m.image ≡ image)) }
        ensures admitted { IfOk result (λ m. IsAdmittedStart config m.state) }
        ensures processor { IfOk result (λ m. m.state.cpu ≡ first_cpu config first.now) }
        ensures writes { IfOk result (λ m. m.state.mem.bytes ≡ first_bytes config first.now) }
        ensures accesses { IfOk result (λ m. m.accesses ≡ []) }
    {
        config.tell();
        if may_start(&config, first) {
            let cpu = start_cpu(&config, first);
            match start_memory(alloc, &config, first) {
                Ok(mem) => Ok(Machine {
                    config,
                    fetcher: Fetcher::new(image),
                    state: start_state(alloc, cpu, mem),
                    log: Log::new(),
                }),
                Err(_) => Err(StartEnd::NoMemory),
            }
        } else {
            Err(StartEnd::NotAdmitted)
        }
    }

    /// Takes the turn.
    ///
    /// After a stop or a break the machine is stopped, and no more of its state is promised; no later
    /// turn may come. Out of memory nothing has changed.
    pub fn step(&mut self, turn: &Turn) -> Result<StepEnd, NoMemory>
        ensures parts { (self.new.config ≡ self.old.config) × (self.new.image ≡ self.old.image) }
        ensures not_allowed { result ≡ Ok NotAllowed
            → Refused self.old.config self.old.image self.old.state turn.now self.new.state }
        ensures done { result ≡ Ok Done
            → Taken self.old.config self.old.image self.old.state turn.now self.new.state }
        ensures stopped { result ≡ Ok Stopped
            → Stops self.old.config self.old.image self.old.state turn.now × (self.new.state.stopped ≡ true) }
        ensures broke { (b : ℕ) → result ≡ Ok (Broke b)
            → BreaksFirst self.old.config self.old.image self.old.state turn.now b × (self.new.state.stopped ≡ true) }
        ensures no_memory { OnErr result (IsLike self.new.state self.old.state) }
        // Those of the turn, also from a guard on; none of a turn that may not come, and none after B1.
        ensures accesses { Lists self.old.config self.old.image self.old.state turn.now result self.old.accesses
            self.new.accesses }
    {
        let found = self.fetcher.fetch(self.state.cpu.rip);
        if allowed(&self.config, self.fetcher.image(), &self.state, turn) {
            take(&self.config, &mut self.state, &mut self.log, turn, found)
        } else {
            self.log.clear();
            Ok(StepEnd::NotAllowed)
        }
    }

    /// The machine's state.
    pub fn state(&self) -> &State
        ensures state { result.now ≡ self.now.state }
    {
        &self.state
    }

    /// The description.
    pub fn config(&self) -> &Config
        ensures config { result.now ≡ self.now.config }
    {
        &self.config
    }

    /// The image.
    pub fn image(&self) -> &Image
        ensures image { result.now ≡ self.now.image }
    {
        self.fetcher.image()
    }

    /// The accesses of the last turn in their order, those from a guard on too. There are none
    /// after a turn that may not come, and none after B1.
    pub fn accesses(&self) -> &[Access]
        ensures accesses { result.now ≡ self.now.accesses }
    {
        self.log.items()
    }
}

// The state of a run that begins with this processor and memory.
fn start_state(alloc: Global, cpu: Cpu, mem: Memory) -> State
    ensures { result ≡ record { cpu = cpu; latch = clear_latches; mem = mem; stopped = false; chain = [] } }
{
    State {
        cpu,
        latch: Latch {
            nmi_blocked: false,
            shadow: false,
            mcip: false,
        },
        mem,
        stopped: false,
        chain: Items::new(alloc),
    }
}

// Takes a turn that may come, where `found` is the instruction at RIP.
fn take(
    cfg: &Config,
    state: &mut State,
    log: &mut Log,
    turn: &Turn,
    found: Option<(Insn, u8)>,
) -> Result<StepEnd, NoMemory>
    ensures end { let t = attempt cfg.now found state.old turn.now in
        Ends cfg.now state.old t (BreaksWith cfg.now found state.old turn.now t) state.new result }
    ensures accesses { let t = attempt cfg.now found state.old turn.now in
        log.new ≡ listed_after log.old t.accesses result }
{
    match turn {
        Turn::Go => go(cfg, state, log, found),
        Turn::Irq(vector) => event(cfg, state, log, *vector, 0),
        Turn::Nmi => event(cfg, state, log, NMI, 0),
        Turn::Debug => event(cfg, state, log, DEBUG, 0),
        Turn::Check => event(cfg, state, log, MACHINE_CHECK, 0),
        Turn::Fault(_, code) => event(cfg, state, log, PAGE_FAULT, *code),
        Turn::Trap(vector, code) => event(cfg, state, log, *vector, *code),
        Turn::Syscall => syscall(cfg, state, log),
        Turn::User(set) => user(cfg, state, log, set),
        Turn::Body(set) => body(cfg, state, log, set),
        Turn::Leave(set) => leave(cfg, state, log, set),
    }
}
