//! GS bases, CR3 and latches.

use crate::order::is_ordered;
use crate::stands_cases::{map_stands, tri_stands, who_stands};
use kc_abs_text::{gs, latches, map, tri, who};

// Two arguments; the second is empty where there is one.
fn two(arguments: &str) -> (&str, &str) {
    match arguments.split_once(' ') {
        Some(both) => both,
        None => (arguments, ""),
    }
}

pub(crate) fn agrees(kind: &str, name: &str, arguments: &str, due: &str) -> Option<bool> {
    match name {
        "stands" => stands(kind, arguments, due),
        _ => ordered(kind, name, two(arguments), due),
    }
}

fn stands(kind: &str, arguments: &str, due: &str) -> Option<bool> {
    match kind {
        "who" => who_stands(arguments, due),
        "map" => map_stands(arguments, due),
        "tri" => tri_stands(arguments, due),
        _ => None,
    }
}

fn ordered(kind: &str, name: &str, arguments: (&str, &str), due: &str) -> Option<bool> {
    match kind {
        "who" => is_ordered(name, arguments, due, |text| who(text)),
        "map" => is_ordered(name, arguments, due, |text| map(text)),
        "tri" => is_ordered(name, arguments, due, |text| tri(text)),
        "gs" => is_ordered(name, arguments, due, |text| gs(text)),
        "latches" => is_ordered(name, arguments, due, |text| latches(text)),
        _ => None,
    }
}
