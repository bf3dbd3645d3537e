//! A run over the lines of a trace, and what is told of it.

ghost use Rattle.std.specs.Prelude.{Bool, ℕ, List, ◌≡◌, ◌+◌, ◌∷◌, ◌++◌, [], ◌<◌, ◌^◌, IfOk, OnOk, length, replicate, string_bytes};
ghost use Rattle.kc_image.specs.Image.{Contents};
ghost use Rattle.kc_regions.specs.Description.{Description};
ghost use Rattle.kc_trace.specs.declared.line.Line.{Line as LineValue};
ghost use Rattle.kc_events.specs.declared.turn.Turn.TheVariants.{Go};
ghost use Rattle.kc_machine.specs.Start.{MayStart};
ghost use Rattle.kc_replay.specs.Turns.{turn_at, turns_at, turns_of, first_set, one};
ghost use Rattle.kc_replay.specs.Told.{IsReplayed, turns_line};
ghost use Rattle.kc_replay.specs.Progress.{Advances, IsFresh, is_clean};

use crate::lines::{break_line, not_allowed_line, stopped_line, turns_line};
use crate::script::Script;
use crate::turns::{first_set, steps_of, turn_at};
use kc_decode::one_reading;
use kc_events::{Turn, UserSet};
use kc_image::Image;
use kc_machine::{Machine, StartEnd, StepEnd};
use kc_plain::{NoMemory, Text};
use kc_regions::Config;
use kc_trace::Line;
use std::alloc::Global;

/// What is told of a run.
#[derive(Debug, Drop)]
pub struct Replayed {
    /// A line for each turn that may not come, that stops or that breaks; then the number of turns.
    pub text: Text,
    /// Whether no turn broke.
    pub clean: bool,
}

/// Whether a run goes on.
#[derive(Clone, Copy, PartialEq, Eq, Debug)]
enum Progress {
    /// The next turn comes.
    GoesOn,
    /// It is over; whether it is clean.
    Over(bool),
}

/// A run so far.
#[derive(Drop)]
struct Run {
    machine: Machine,
    /// How many turns were tried.
    count: u32,
    /// The lines that were told.
    told: String,
}

// Whether no turn broke.
fn is_clean(progress: Progress) -> bool
    ensures { result ≡ is_clean progress }
{
    match progress {
        Progress::GoesOn => true,
        Progress::Over(clean) => clean,
    }
}

impl Run {
    // The run that begins with this set.
    fn start(alloc: Global, image: Image, config: Config, first: &UserSet) -> Result<Run, NoMemory>
        requires { MayStart config first.now }
        ensures { IfOk result (IsFresh config image first.now) }
    {
        match Machine::start(alloc, config, image, first) {
            Ok(machine) => Ok(Run {
                machine,
                count: 0,
                told: String::new(alloc),
            }),
            Err(StartEnd::NoMemory) => Err(NoMemory),
            Err(StartEnd::NotAdmitted) => unreachable!(),
        }
    }

    // Tells how many turns were tried.
    fn finish(mut self, alloc: Global, progress: Progress) -> Result<Replayed, NoMemory>
        ensures text { IfOk result (λ r. r.text ≡ string_bytes self.told ++ turns_line self.count) }
        ensures clean { IfOk result (λ r. r.clean ≡ is_clean progress) }
    {
        let count = self.count;
        self.tell(turns_line(alloc, count)?)?;
        Ok(Replayed {
            text: Text::from_string(self.told),
            clean: is_clean(progress),
        })
    }

    // Tells a line.
    fn tell(&mut self, line: String) -> Result<(), NoMemory>
        ensures told { OnOk result (string_bytes self.new.told ≡ string_bytes self.old.told ++ string_bytes line) }
        ensures rest { (self.new.machine ≡ self.old.machine) × (self.new.count ≡ self.old.count) }
    {
        Ok(self.told.push_str(line.as_str())?)
    }

    // Takes the next turn.
    fn take(&mut self, alloc: Global, turn: &Turn) -> Result<Progress, NoMemory>
        requires { self.old.count + 1 < 2 ^ 32 }
        ensures { IfOk result (Advances self.old self.new ((λ _. turn.now) ∷ [])) }
    {
        self.count += 1;
        match self.machine.step(turn)? {
            StepEnd::Done => Ok(Progress::GoesOn),
            StepEnd::NotAllowed => {
                self.tell(not_allowed_line(alloc, self.count)?)?;
                Ok(Progress::GoesOn)
            }
            StepEnd::Stopped => {
                self.tell(stopped_line(alloc, self.count)?)?;
                Ok(Progress::Over(true))
            }
            StepEnd::Broke(number) => {
                self.tell(break_line(alloc, self.count, number)?)?;
                Ok(Progress::Over(false))
            }
        }
    }

    // Takes so many turns Go.
    fn go(&mut self, alloc: Global, count: u32) -> Result<Progress, NoMemory>
        requires { self.old.count + count < 2 ^ 32 }
        ensures { IfOk result (Advances self.old self.new (replicate count (λ _. Go))) }
    {
        for _ in 0..count {
            if let Progress::Over(clean) = self.take(alloc, &Turn::Go)? {
                return Ok(Progress::Over(clean));
            }
        }
        Ok(Progress::GoesOn)
    }

    // Takes the turn of a line that is one turn other than Go, and none of another line.
    fn take_one(&mut self, alloc: Global, line: &Line, rest: &[Line]) -> Result<Progress, NoMemory>
        requires { self.old.count + length (one (turn_at self.old.machine.config line.now rest.now)) < 2 ^ 32 }
        ensures { IfOk result (Advances self.old self.new (one (turn_at self.old.machine.config line.now rest.now))) }
    {
        let cfg = self.machine.config();
        match turn_at(alloc, cfg, &self.machine.state().cpu, line, rest)? {
            Some(turn) => self.take(alloc, &turn),
            None => Ok(Progress::GoesOn),
        }
    }

    // Takes the turns of a line.
    fn take_line(&mut self, alloc: Global, line: &Line, rest: &[Line]) -> Result<Progress, NoMemory>
        requires { self.old.count + length (turns_at self.old.machine.config line.now rest.now) < 2 ^ 32 }
        ensures { IfOk result (Advances self.old self.new (turns_at self.old.machine.config line.now rest.now)) }
    {
        match self.go(alloc, steps_of(line))? {
            Progress::GoesOn => self.take_one(alloc, line, rest),
            Progress::Over(clean) => Ok(Progress::Over(clean)),
        }
    }

    // Takes the turns of the lines.
    fn take_lines(&mut self, alloc: Global, lines: &[Line]) -> Result<Progress, NoMemory>
        requires { self.old.count + length (turns_of self.old.machine.config lines.now) < 2 ^ 32 }
        ensures { IfOk result (Advances self.old self.new (turns_of self.old.machine.config lines.now)) }
    {
        for (i, line) in lines.iter().enumerate() {
            if let Progress::Over(clean) = self.take_line(alloc, line, &lines[i + 1..])? {
                return Ok(Progress::Over(clean));
            }
        }
        Ok(Progress::GoesOn)
    }
}

/// Runs the script, and tells the run.
pub fn replay_text(
    alloc: Global,
    image: Image,
    config: Config,
    script: &Script,
) -> Result<Replayed, NoMemory>
    requires admitted { MayStart config (first_set config script.now) }
    ensures told { IfOk result (λ r. IsReplayed config image script.now r.text r.clean) }
{
    let first = first_set(alloc, &config, script.lines())?;
    let mut run = Run::start(alloc, image, config, &first)?;
    let progress = run.take_lines(alloc, script.lines())?;
    run.finish(alloc, progress)
}

/// One text is told of a run, and it says whether a turn broke.
pub fn one_text()
    ensures once { (cfg : Description) (image : Contents) (lines : List LineValue) (text other : List ℕ)
        (clean same : Bool) → IsReplayed cfg image lines text clean → IsReplayed cfg image lines other same
        → (text ≡ other) × (clean ≡ same) }
{
    one_reading();
}
