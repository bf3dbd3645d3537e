//! Tests of `print_checked` on tables that are handed to it, right ones and wrong ones.
#![tactic(auto)]

#[cfg(test)]
mod printed;
