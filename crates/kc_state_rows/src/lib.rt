//! Tests of spaces, floors, clobbers and states.
#![tactic(auto)]

#[cfg(test)]
mod frames;
#[cfg(test)]
mod spaces;
#[cfg(test)]
mod states;
