//! Each field of a certificate is read exactly where it is spelled: `specs/Exact.antt`, and the laws of
//! `proofs`.
#![tactic(auto)]
