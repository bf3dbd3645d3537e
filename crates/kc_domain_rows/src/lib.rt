//! Tests of known bits and of values.
#![tactic(auto)]

#[cfg(test)]
mod bits;
#[cfg(test)]
mod values;
