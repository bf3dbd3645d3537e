//! Traces as they are written, as a table of cases; an independent model computed the text.
#![tactic(auto)]

#[cfg(test)]
mod printed;
