//! The numbers of a command.

ghost use Rattle.std.specs.Prelude.{◌≡◌, ◌≤◌, ◌&&◌, nat_le, length, None, Some, IfSome};
ghost use Rattle.std.specs.Char.{is_ascii_digit};
ghost use Rattle.std.specs.List.{list_all};
ghost use Rattle.kc_trace.specs.Numbers.{are_digits};
ghost use Rattle.kc_top.specs.Words.{seed_of, size_of, gen_by};

/// The seed and the size of an input that is made.
#[derive(Clone, Copy)]
pub struct GenInputs {
    pub seed: u64,
    /// 1 to 6,000.
    pub size: u32,
    ghost at_least: { 1 ≤ size },
    ghost at_most: { size ≤ 6000 },
}

fn are_so_many(word: &[u8]) -> bool
    ensures { result ≡ (nat_le 1 (length word.now) && nat_le (length word.now) 20) }
{
    1 <= word.len() && word.len() <= 20
}

fn are_all_decimal(word: &[u8]) -> bool
    ensures { result ≡ list_all is_ascii_digit word.now }
{
    word.iter().all(|digit| digit.is_ascii_digit())
}

/// Whether the word is 1 to 20 decimal digits.
fn are_digits(word: &[u8]) -> bool
    ensures { result ≡ are_digits is_ascii_digit 20 word.now }
{
    are_so_many(word) && are_all_decimal(word)
}

/// The number that 1 to 20 decimal digits write, where it is below 2^64.
fn number(word: &str) -> Option<u64>
    ensures { result ≡ seed_of word.now }
{
    if !are_digits(word.as_bytes()) {
        return None;
    }
    word.parse::<u64>().ok()
}

/// The two numbers, where each is in its range.
pub fn gen_inputs(seed: &str, size: &str) -> Option<GenInputs>
    ensures some { IfSome result (λ g. (seed_of seed.now ≡ Some g.seed) × (size_of size.now ≡ Some g.size)) }
    ensures none { result ≡ None → gen_by (seed_of seed.now) (size_of size.now) ≡ None }
{
    let Some(seed) = number(seed) else {
        return None;
    };
    let Some(size) = number(size) else {
        return None;
    };
    if 1 <= size && size <= 6000 {
        Some(GenInputs {
            seed,
            size: size as u32,
        })
    } else {
        None
    }
}
