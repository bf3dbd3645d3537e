//! Runs of the mode `replay`, as tables of cases.
#![tactic(auto)]

#[cfg(test)]
mod faults;
#[cfg(test)]
mod rows;
