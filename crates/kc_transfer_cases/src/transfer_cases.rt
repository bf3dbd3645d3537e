//! A case by its line.

ghost use Rattle.kc_state.specs.AbsEvents.{HasStack};

use crate::answers::{Answer, answer};
use kc_abs_text::{Code, code_at, is_same_state, key, number, state, with_all};
use kc_case_files::{Descriptions, Judge};
use kc_plain::NoMemory;
use kc_regions::Config;
use kc_state::{AbsState, Condition, Key, Scratch, Succ};
use kc_transfer::{has_stack, leave_abs, transfer};
use std::alloc::Global;

/// Cases of instructions, with room for their states.
#[derive(Drop)]
pub struct TransferCases {
    before: AbsState,
    due: AbsState,
    out: Scratch,
    /// How often each call is made.
    times: u32,
}

// What stands before ` -> `: the description and the key; the state before; the instruction.
#[derive(Clone, Copy)]
struct Case<'a> {
    cfg: &'a Config,
    key: Key,
    before: &'a str,
    at: u64,
    code: Code,
}

fn case_of<'a>(all: &'a Descriptions, text: &'a str) -> Option<Case<'a>> {
    let (config, rest) = text.split_once(" | ")?;
    let (context, rest) = rest.split_once(" | ")?;
    let (before, place) = rest.split_once(" | ")?;
    let (at, bytes) = place.split_once(' ')?;
    let at = number(at)?;
    Some(Case {
        cfg: all.get(config)?,
        key: key(context)?,
        before,
        at,
        code: code_at(at, bytes)?,
    })
}

impl TransferCases {
    /// With states of which nothing is known; each call is made `times` times.
    pub fn new(alloc: Global, times: u32) -> Result<TransferCases, NoMemory> {
        Ok(TransferCases {
            before: AbsState::new(alloc)?,
            due: AbsState::new(alloc)?,
            out: Scratch::new(alloc)?,
            times,
        })
    }

    // Whether the state that the last call left is that before with these changes.
    fn is_due(&mut self, cfg: &Config, changes: &str) -> Option<bool> {
        self.due.copy_from(&self.before);
        with_all(cfg, &mut self.due, changes)?;
        Some(is_same_state(&self.out.out, &self.due))
    }

    fn transfer_agrees(&mut self, case: &Case<'_>, due: &str) -> Option<bool> {
        state(case.cfg, case.before, &mut self.before)?;
        let found = self.transferred(case)?;
        match due.split_once(" ; ") {
            Some((due, changes)) if found == answer(due)? => self.is_due(case.cfg, changes),
            Some(_) => Some(false),
            None => Some(found == answer(due)?),
        }
    }

    fn transferred(&mut self, case: &Case<'_>) -> Option<Answer> {
        if !has_stack(case.cfg, &case.key) {
            return None;
        }
        let mut found = self.step(case);
        for _ in 1..self.times {
            found = self.step(case);
        }
        Some(found)
    }

    fn step(&mut self, case: &Case<'_>) -> Result<Succ, Condition>
        requires stack { HasStack case.now.cfg.now case.now.key }
    {
        let Case {
            cfg,
            key,
            code,
            at,
            ..
        } = case;
        let Code { insn, len } = code;
        transfer(cfg, key, &self.before, insn, *len, *at, &mut self.out)
    }

    fn leave_agrees(&mut self, case: &Case<'_>, due: &str) -> Option<bool> {
        state(case.cfg, case.before, &mut self.before)?;
        let left = leave_abs(
            case.cfg,
            &case.key,
            &self.before,
            &case.code.insn,
            &mut self.out,
        );
        match due.split_once(" ; ") {
            Some(("yes", changes)) if left => self.is_due(case.cfg, changes),
            Some(_) => Some(false),
            None if due == "no" => Some(!left),
            None => None,
        }
    }
}

impl Judge for TransferCases {
    fn agrees(&mut self, all: &Descriptions, line: &str) -> Option<bool> {
        let (text, due) = line.split_once(" -> ")?;
        match text.strip_prefix("leave ") {
            Some(text) => self.leave_agrees(&case_of(all, text)?, due),
            None => self.transfer_agrees(&case_of(all, text)?, due),
        }
    }
}
