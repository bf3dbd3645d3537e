//! What values, spaces, latches and floors stand for.

use kc_abs_text::{answer, count, floor, map, number, tri, value, who};
use kc_lattice::Meaning;
use kc_regions::Config;
use kc_space::SpaceEnv;
use kc_value::{Value, ValueEnv};
use kc_words::Span;

// The stacks by their numbers; those past the last one are empty.
fn stacks(cfg: &Config) -> [Span; 16] {
    let mut all = [Span { from: 0, to: 0 }; 16];
    for s in 0..16u8 {
        if let Some(stack) = cfg.regions.stack(s) {
            all[usize::from(s)] = stack.span;
        }
    }
    all
}

// `W:N,..`, the words that aren't 0; `-` is none.
fn words(list: &str) -> Option<[u64; 20]> {
    let mut all = [0; 20];
    if list != "-" {
        for word in list.split(',') {
            let (w, n) = word.split_once(':')?;
            *all.get_mut(usize::from(count(w)?))? = number(n)?;
        }
    }
    Some(all)
}

// `words=LIST base=N ugs=N`.
fn environment(cfg: &Config, text: &str) -> Option<ValueEnv> {
    let (first, rest) = text.strip_prefix("words=")?.split_once(" base=")?;
    let (base, user_gs) = rest.split_once(" ugs=")?;
    Some(ValueEnv {
        words: words(first)?,
        base: number(base)?,
        user_gs: number(user_gs)?,
        stacks: stacks(cfg),
    })
}

// Whether the value stands for the number.
fn stands_in(v: &Value, env: &ValueEnv, n: u64) -> bool {
    v.stands(env, &n)
}

/// The environment; the value and a number.
pub(crate) fn value_stands(cfg: &Config, arguments: (&str, &str), due: &str) -> Option<bool> {
    let (v, n) = arguments.1.split_once(' ')?;
    let (v, n, due) = (value(cfg, v)?, number(n)?, answer(due)?);
    match environment(cfg, arguments.0) {
        Some(env) => Some(stands_in(&v, &env, n) == due),
        None => None,
    }
}

// `kernel=N user=N`.
fn space(text: &str) -> Option<SpaceEnv> {
    let (kernel, user) = text.strip_prefix("kernel=")?.split_once(" user=")?;
    Some(SpaceEnv {
        kernel: number(kernel)?,
        user: number(user)?,
    })
}

pub(crate) fn who_stands(arguments: &str, due: &str) -> Option<bool> {
    let (env, case) = arguments.split_once(" | ")?;
    let (base, n) = case.split_once(' ')?;
    Some(who(base)?.stands(&space(env)?, &number(n)?) == answer(due)?)
}

pub(crate) fn map_stands(arguments: &str, due: &str) -> Option<bool> {
    let (env, case) = arguments.split_once(" | ")?;
    let (cr3, n) = case.split_once(' ')?;
    Some(map(cr3)?.stands(&space(env)?, &number(n)?) == answer(due)?)
}

pub(crate) fn tri_stands(arguments: &str, due: &str) -> Option<bool> {
    let (latch, set) = arguments.split_once(' ')?;
    Some(tri(latch)?.stands(&(), &answer(set)?) == answer(due)?)
}

// The least live byte, or `-` for none.
fn live(text: &str) -> Option<Option<u64>> {
    match text {
        "-" => Some(None),
        _ => Some(Some(number(text)?)),
    }
}

pub(crate) fn floor_stands(arguments: &str, due: &str) -> Option<bool> {
    let (base, case) = arguments.strip_prefix("base=")?.split_once(" | ")?;
    let (bound, least) = case.split_once(' ')?;
    Some(floor(bound)?.stands(&number(base)?, &live(least)?) == answer(due)?)
}
