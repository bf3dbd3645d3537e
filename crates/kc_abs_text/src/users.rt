//! What is known while the user runs.

use crate::numbers::count;
use crate::spaces::tri;
use crate::values::value;
use kc_lattice::Domain;
use kc_regions::Config;
use kc_space::Tri;
use kc_state::{UserState, number_value};

/// Assignments of `nmi`, `mcip` and slots, apart by blanks, behind `fixed` where the latches are clear
/// and the TSS and the tracked words hold the description's numbers, and else behind nothing.
pub fn user(cfg: &Config, text: &str, out: &mut UserState) -> Option<()> {
    match text.strip_prefix("fixed") {
        Some(rest) => {
            fix(cfg, out);
            with_all(cfg, out, rest.trim_start())
        }
        None => {
            out.set_top();
            with_all(cfg, out, text)
        }
    }
}

fn fix(cfg: &Config, out: &mut UserState) {
    out.set_top();
    out.nmi_blocked = Tri::No;
    out.mcip = Tri::No;
    out.slots.set(0, number_value(cfg, cfg.cpu.rsp0));
    for n in 0..7u16 {
        let at = cfg.cpu.ist[usize::from(n)];
        out.slots.set(n + 1, number_value(cfg, at));
    }
    fix_words(cfg, out);
}

fn fix_words(cfg: &Config, out: &mut UserState) {
    for n in 0..32u16 {
        if let Some(word) = cfg.words.get(usize::from(n)) {
            out.slots.set(n + 8, number_value(cfg, word.value));
        }
    }
}

fn with_all(cfg: &Config, out: &mut UserState, assignments: &str) -> Option<()> {
    if !assignments.is_empty() {
        for assignment in assignments.split(' ') {
            let (name, text) = assignment.split_once('=')?;
            with(cfg, out, name, text)?;
        }
    }
    Some(())
}

fn with(cfg: &Config, out: &mut UserState, name: &str, text: &str) -> Option<()> {
    match name {
        "nmi" => out.nmi_blocked = tri(text)?,
        "mcip" => out.mcip = tri(text)?,
        _ => with_slot(cfg, out, count(name.strip_prefix('s')?)?, text)?,
    }
    Some(())
}

// Only the TSS's words and the description's may be known.
fn with_slot(cfg: &Config, out: &mut UserState, i: u16, text: &str) -> Option<()> {
    if i >= 40 {
        return None;
    }
    out.slots.set(i, value(cfg, text)?);
    Some(())
}
