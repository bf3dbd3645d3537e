//! Tests of memory, instructions and traces, as tables of cases.
#![tactic(auto)]

#[cfg(test)]
mod exec;
#[cfg(test)]
mod memory;
#[cfg(test)]
mod trace;
