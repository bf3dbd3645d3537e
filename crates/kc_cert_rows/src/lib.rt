//! Tests of the reader of certificates: as tables of cases from an independent model, and on files that are too long to
//! hold.
#![tactic(auto)]

#[cfg(test)]
mod long;
#[cfg(test)]
mod pieces;
