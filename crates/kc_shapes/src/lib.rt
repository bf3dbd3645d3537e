//! Domains of the usual shapes: flat orders, sets of bits, lists of one length, and records that are
//! ordered part by part, each with the laws of a domain. This crate has definitions and laws alone,
//! and no code.
#![tactic(auto)]
