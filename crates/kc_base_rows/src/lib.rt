//! Tests of words, files and sinks.
#![tactic(auto)]

#[cfg(test)]
mod files;
#[cfg(test)]
mod plain;
#[cfg(test)]
mod words;
