//! Tests of the decoder, the encoder, texts and samples, as tables of cases.
#![tactic(auto)]

#[cfg(test)]
mod decode;
#[cfg(test)]
mod encode;
#[cfg(test)]
mod insn;
#[cfg(test)]
mod samples;
#[cfg(test)]
mod texts;
