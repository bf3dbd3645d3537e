//! Rules that are asked one after the other, where the first that is broken is the answer: the words
//! in which the readers of images, instructions and descriptions say what they answer, and lemmas on
//! them. This crate has definitions and lemmas alone, and no code.
#![tactic(auto)]
