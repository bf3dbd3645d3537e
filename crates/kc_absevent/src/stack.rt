//! Which stack a delivery takes (Intel SDM vol. 3A, "Interrupt Stack Table" and "Stack Switching in IA-32e
//! Mode"), and how much it pushes.

ghost use Rattle.std.specs.Prelude.{◌≡◌, ◌≤◌, ◌<◌, IfSome};
ghost use Rattle.kc_state.specs.AbsDelivery.{without_ist, stack_taken, number_of, chosen_rsp, aligned, pushes_code, frame_size};

use kc_frames::Slots;
use kc_state::Location;
use kc_value::Value;

// The number of the TSS word that holds the new RSP; none where the stack stays.
pub(crate) fn choose_word(ist: u8, kernel: bool) -> Option<u8>
    requires { ist ≤ 7 }
    ensures value { result ≡ stack_taken ist kernel }
    ensures word { IfSome result (λ n. n < 8) }
{
    if ist != 0 {
        Some(ist)
    } else if kernel {
        None
    } else {
        Some(0)
    }
}

fn number_of(l: Option<Location>) -> Option<u64>
    ensures { result ≡ number_of l }
{
    match l {
        Some(Location::Number(a)) => Some(a),
        Some(Location::Relative(_)) | None => None,
    }
}

// RSP before it is aligned, where it is a constant.
pub(crate) fn choose_rsp(
    slots: &Slots<Value>,
    rsp: Option<Location>,
    word: Option<u8>,
) -> Option<u64>
    requires { IfSome word (λ n. n < 8) }
    ensures { result ≡ chosen_rsp slots.now rsp word }
{
    match word {
        Some(n) => slots.get(u16::from(n)).bits.single(),
        None => number_of(rsp),
    }
}

// RSP aligned down to 16.
pub(crate) fn align(rsp: u64) -> u64
    ensures { result ≡ aligned rsp }
{
    rsp - rsp % 16
}

// Whether the vector's delivery pushes an error code (Intel SDM vol. 3A, "Error Code").
fn has_code(vector: u8) -> bool
    ensures { result ≡ pushes_code vector }
{
    10 <= vector && vector <= 14 || (vector == 17 || vector == 21)
}

// How many bytes are pushed.
pub(crate) fn frame_size(vector: u8) -> u8
    ensures value { result ≡ frame_size vector }
    ensures bound { result ≤ 48 }
{
    if has_code(vector) { 48 } else { 40 }
}
