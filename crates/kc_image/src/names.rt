//! The names in an ELF file's string tables (System V ABI, "String Table").

ghost use Rattle.std.specs.Prelude.{◌≡◌, ◌==◌, drop, length, position};
ghost use Rattle.std.specs.Cmp.Lexicographic.{slice_cmp};
ghost use Rattle.std.specs.Ordering.{nat_cmp};
ghost use Rattle.kc_image.specs.FirstFault.{text, is_kept_name};

use std::cmp::Ordering;

/// The most bytes of a name that is kept, this project's own.
pub(crate) const MAX_NAME: usize = 128;

/// Whether the name at this place has at least one byte and at most `MAX_NAME`.
pub(crate) fn is_kept(strings: &[u8], at: usize) -> bool
    ensures { result ≡ is_kept_name (text (drop at strings.now)) }
{
    if strings.len() <= at {
        return false;
    }
    let rest = &strings[at..];
    let len = text_len(&rest[..rest.len().min(MAX_NAME + 1)]);
    0 < len && len <= MAX_NAME
}

/// The bytes from this offset up to the first 0.
pub(crate) fn text_at(file: &[u8], at: u64) -> &[u8]
    ensures { result.now ≡ text (drop at file.now) }
{
    let rest = rest_at(file, at);
    &rest[..text_len(rest)]
}

/// The order of the texts at two offsets.
pub(crate) fn compare_texts(file: &[u8], first: u64, second: u64) -> Ordering
    ensures { result ≡ slice_cmp nat_cmp (text (drop first file.now)) (text (drop second file.now)) }
{
    compare_bytes(rest_at(file, first), rest_at(file, second))
}

/// The order of the texts with which these bytes begin, by the first byte that differs.
fn compare_bytes(first: &[u8], second: &[u8]) -> Ordering
    ensures { result ≡ slice_cmp nat_cmp (text first.now) (text second.now) }
{
    for i in 0..first.len().min(second.len()) {
        if first[i] != second[i] {
            return first[i].cmp(&second[i]);
        }
        if first[i] == 0 {
            return Ordering::Equal;
        }
    }
    // One of them ends without a 0.
    first[..text_len(first)].cmp(&second[..text_len(second)])
}

/// The bytes from this offset on.
fn rest_at(file: &[u8], at: u64) -> &[u8]
    ensures { result.now ≡ drop at file.now }
{
    &file[(at as usize).min(file.len())..]
}

/// How many bytes come before the first 0.
fn text_len(bytes: &[u8]) -> usize
    ensures { result ≡ length (text bytes.now) }
{
    match first_zero(bytes) {
        Some(place) => place,
        None => bytes.len(),
    }
}

fn first_zero(bytes: &[u8]) -> Option<usize>
    ensures { result ≡ position (λ b. b == 0) bytes.now }
{
    bytes.iter().position(|byte| *byte == 0)
}
