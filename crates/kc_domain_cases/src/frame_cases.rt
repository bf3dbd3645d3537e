//! Floors, clobbers and summaries.

use crate::order::is_ordered;
use crate::stands_cases::floor_stands;
use kc_abs_text::{clobber, floor, summary};

pub(crate) fn floor_agrees(name: &str, arguments: &str, due: &str) -> Option<bool> {
    match name {
        "stands" => floor_stands(arguments, due),
        "top" => is_ordered(name, (arguments, ""), due, |text| floor(text)),
        _ => is_ordered(name, arguments.split_once(' ')?, due, |text| floor(text)),
    }
}

pub(crate) fn clobber_agrees(name: &str, arguments: &str, due: &str) -> Option<bool> {
    is_ordered(
        name,
        arguments.split_once(" | ")?,
        due,
        |text| clobber(text),
    )
}

pub(crate) fn summary_agrees(name: &str, arguments: &str, due: &str) -> Option<bool> {
    is_ordered(
        name,
        arguments.split_once(" | ")?,
        due,
        |text| summary(text),
    )
}
