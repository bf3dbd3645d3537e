//! How a text is cut into lines, and a line into words.

ghost use Rattle.std.specs.Prelude.{◌≡◌, ◌∷◌, ◌<◌, ◌==◌, IfOk, length};
ghost use Rattle.std.specs.List.{position};
ghost use Rattle.kc_trace.specs.Words.{is_passed_over, lines_of, texts, words_of};

use std::alloc::{AllocError, Global};

/// Where the byte first stands.
pub(crate) fn find(text: &[u8], wanted: u8) -> Option<usize>
    ensures { result ≡ position (λ byte. byte == wanted) text.now }
{
    text.iter().position(|byte| *byte == wanted)
}

/// Whether the line is empty or begins with `#`.
pub(crate) fn is_passed_over(line: &[u8]) -> bool
    ensures { result ≡ is_passed_over line.now }
{
    match line {
        [] => true,
        [first, ..] => *first == b'#',
    }
}

/// The first line, and the text after it.
pub(crate) fn cut_line(text: &[u8]) -> (&[u8], &[u8])
    requires some { 0 < length text.now }
    ensures lines { lines_of text.now ≡ result.0.now ∷ lines_of result.1.now }
    ensures shorter { length result.1.now < length text.now }
{
    match find(text, b'\n') {
        Some(end) => (&text[..end], &text[end + 1..]),
        None => (text, &[]),
    }
}

/// The words of the line.
pub(crate) fn cut_words(alloc: Global, line: &[u8]) -> Result<Vec<&[u8]>, AllocError>
    ensures { IfOk result (λ v. texts v.items ≡ words_of line.now) }
{
    line.split(|byte| *byte == b' ').collect(alloc)
}
