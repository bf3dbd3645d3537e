//! The decoder: an instruction at the beginning of some bytes (Intel SDM vol. 2, "Instruction Format").

ghost use Rattle.std.specs.Prelude.{◌≡◌, ℕ, ◌<◌, ◌≤◌, ◌↔◌, List, ◌++◌, length, take, IfOk, Ok, Err};
ghost use Rattle.kc_insn.specs.declared.insn.Insn.{Insn as InsnValue};
ghost use Rattle.kc_insn.specs.Spells.{resolve as resolved, Spells};
ghost use Rattle.kc_decode.specs.Views.{draft_of, jump_of};
ghost use Rattle.kc_rules.specs.Rules.{GivesExactly};
ghost use Rattle.kc_decode.specs.Reading.{decode_at};
ghost use Rattle.kc_decode.specs.Begins.{BeginsUnbounded, IsProperPrefix, HasSpelledPrefix};
ghost use Rattle.kc_decode.specs.declared.fault.DecodeFault.TheVariants.{Short, Unknown, TooLong};

use crate::draft::Draft;
use crate::fault::{DecodeFault, DraftFault};
use crate::form::Jump;
use crate::length::{MAX_LENGTH, fits};
use crate::reading::draft;
use kc_insn::Insn;

fn jump_to(jump: Jump, target: u64) -> Insn
    ensures { result ≡ jump_of jump target }
{
    match jump {
        Jump::If(condition) => Insn::Jcc(condition, target),
        Jump::Always => Insn::Jmp(target),
        Jump::Call => Insn::Call(target),
    }
}

/// The instruction, where the address after it is `next`.
fn resolve(draft: Draft, next: u64) -> Insn
    ensures { result ≡ resolved next (draft_of draft) }
{
    match draft {
        Draft::Whole(insn) => insn,
        Draft::Jump(jump, distance) => {
            jump_to(jump, next.wrapping_add(i64::from(distance).cast_unsigned()))
        }
    }
}

#[tactic(auto, unfolding(crate::specs::Reading::decode_at))]
fn decode_front(bytes: &[u8], at: u64) -> Result<(Insn, u8), DecodeFault>
    ensures { GivesExactly (λ x. (x.0, x.1)) result (decode_at bytes.now at) }
{
    match draft(bytes) {
        Ok((found, rest)) => {
            let len = bytes.len() - rest.len();
            if len > MAX_LENGTH {
                return Err(DecodeFault::TooLong);
            }
            let insn = resolve(found, at.wrapping_add(len as u64));
            Ok((insn, len as u8))
        }
        Err(DraftFault::Short) => {
            if fits(bytes) {
                Err(DecodeFault::Short)
            } else {
                Err(DecodeFault::TooLong)
            }
        }
        Err(DraftFault::Unknown) => Err(DecodeFault::Unknown),
    }
}

/// The instruction that a prefix of `bytes` spells at address `at`, and the number of its bytes, 1 to
/// 15. Bytes may follow it.
pub fn decode(bytes: &[u8], at: u64) -> Result<(Insn, u8), DecodeFault>
    // What is answered is spelled so.
    ensures found { IfOk result (λ x. (x.1 ≤ length bytes.now) × Spells (take x.1 bytes.now) at x.0) }
    // An instruction has at least one byte, and at most fifteen.
    ensures length { IfOk result (λ x. (0 < x.1) × (x.1 ≤ 15)) }
    // What a prefix of the bytes spells is answered.
    ensures only { (n : ℕ) (insn : InsnValue)
        → n ≤ length bytes.now → Spells (take n bytes.now) at insn → result ≡ Ok (insn, n) }
    // The bytes are a proper prefix of a spelling.
    ensures short { (result ≡ Err Short) ↔ IsProperPrefix bytes.now at }
    // Neither that holds nor is a prefix a spelling, but one of them would hold without the bound of
    // fifteen bytes.
    ensures too_long { (result ≡ Err TooLong)
        ↔ (¬ (IsProperPrefix bytes.now at) × ¬ (HasSpelledPrefix bytes.now at) × BeginsUnbounded bytes.now at) }
    // No instruction begins so, whatever the number of its bytes.
    ensures unknown { (result ≡ Err Unknown) ↔ ¬ (BeginsUnbounded bytes.now at) }
{
    decode_front(bytes, at)
}

/// No spelling of an instruction is a proper prefix of another, and one list of bytes spells at most
/// one instruction at an address.
pub fn one_reading()
    ensures reading { (a b x y : List ℕ) (at : ℕ) (i j : InsnValue) → Spells a at i
        → Spells b at j → a ++ x ≡ b ++ y → (a ≡ b) × (i ≡ j) }
{}
