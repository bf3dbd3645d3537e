//! What the words ask for.

ghost use Rattle.std.specs.Prelude.{◌≡◌, map, string_bytes, option_map};
ghost use Rattle.std.specs.List.{list_any};
ghost use Rattle.kc_top.specs.Words.{is_faulty, check_of, find_of, explain_of, replay_of, gen_of, upgrade_of};
ghost use Rattle.kc_top.specs.Words.{mode_of, request_of};
ghost use Rattle.kc_top.specs.RequestSteps.{asked};

use crate::numbers::{GenInputs, gen_inputs};

/// The files that a mode begins with, by name.
#[derive(Clone, Copy)]
pub struct Inputs<'a> {
    pub image: &'a str,
    pub config: &'a str,
}

/// A mode with its operands.
#[derive(Clone, Copy)]
pub enum Request<'a> {
    /// `check IMAGE CONFIG CERT`
    Check { inputs: Inputs<'a>, cert: &'a str },
    /// `find IMAGE CONFIG`
    Find { inputs: Inputs<'a> },
    /// `explain IMAGE CONFIG`
    Explain { inputs: Inputs<'a> },
    /// `explain IMAGE CONFIG CERT`
    ExplainCert { inputs: Inputs<'a>, cert: &'a str },
    /// `replay IMAGE CONFIG TRACE`
    Replay { inputs: Inputs<'a>, trace: &'a str },
    /// `gen SEED SIZE`
    Gen { made: GenInputs },
    /// `upgrade CERT`
    Upgrade { cert: &'a str },
}

/// Whether a word is neither a mode nor an operand: it is empty or begins with `-`.
fn is_faulty(word: &str) -> bool
    ensures { result ≡ is_faulty word.now }
{
    match word.as_bytes() {
        [] => true,
        [first, ..] => *first == b'-',
    }
}

/// Whether one of the words is faulty.
fn has_faulty(words: &[String]) -> bool
    ensures { result ≡ list_any (λ s. is_faulty (string_bytes s)) words.now }
{
    words.iter().any(|word| is_faulty(word.as_str()))
}

/// The operands of `check`.
fn check_of(operands: &[String]) -> Option<Request<'_>>
    ensures { option_map asked result ≡ check_of (map (λ s. string_bytes s) operands.now) }
{
    match operands {
        [image, config, cert] => Some(Request::Check {
            inputs: Inputs {
                image: image.as_str(),
                config: config.as_str(),
            },
            cert: cert.as_str(),
        }),
        _ => None,
    }
}

/// The operands of `find`.
fn find_of(operands: &[String]) -> Option<Request<'_>>
    ensures { option_map asked result ≡ find_of (map (λ s. string_bytes s) operands.now) }
{
    match operands {
        [image, config] => Some(Request::Find {
            inputs: Inputs {
                image: image.as_str(),
                config: config.as_str(),
            },
        }),
        _ => None,
    }
}

/// The operands of `explain`.
fn explain_of(operands: &[String]) -> Option<Request<'_>>
    ensures { option_map asked result ≡ explain_of (map (λ s. string_bytes s) operands.now) }
{
    match operands {
        [image, config] => Some(Request::Explain {
            inputs: Inputs {
                image: image.as_str(),
                config: config.as_str(),
            },
        }),
        [image, config, cert] => Some(Request::ExplainCert {
            inputs: Inputs {
                image: image.as_str(),
                config: config.as_str(),
            },
            cert: cert.as_str(),
        }),
        _ => None,
    }
}

/// The operands of `replay`.
fn replay_of(operands: &[String]) -> Option<Request<'_>>
    ensures { option_map asked result ≡ replay_of (map (λ s. string_bytes s) operands.now) }
{
    match operands {
        [image, config, trace] => Some(Request::Replay {
            inputs: Inputs {
                image: image.as_str(),
                config: config.as_str(),
            },
            trace: trace.as_str(),
        }),
        _ => None,
    }
}

/// The operands of `gen`.
fn gen_of(operands: &[String]) -> Option<Request<'_>>
    ensures { option_map asked result ≡ gen_of (map (λ s. string_bytes s) operands.now) }
{
    match operands {
        [seed, size] => match gen_inputs(seed.as_str(), size.as_str()) {
            Some(made) => Some(Request::Gen { made }),
            None => None,
        },
        _ => None,
    }
}

/// The operand of `upgrade`.
fn upgrade_of(operands: &[String]) -> Option<Request<'_>>
    ensures { option_map asked result ≡ upgrade_of (map (λ s. string_bytes s) operands.now) }
{
    match operands {
        [cert] => Some(Request::Upgrade {
            cert: cert.as_str(),
        }),
        _ => None,
    }
}

/// By the first word, the mode.
fn mode_of(words: &[String]) -> Option<Request<'_>>
    ensures { option_map asked result ≡ mode_of (map (λ s. string_bytes s) words.now) }
{
    match words {
        [] => None,
        [mode, operands @ ..] => {
            if mode.as_str() == "check" {
                check_of(operands)
            } else if mode.as_str() == "find" {
                find_of(operands)
            } else if mode.as_str() == "explain" {
                explain_of(operands)
            } else if mode.as_str() == "replay" {
                replay_of(operands)
            } else if mode.as_str() == "gen" {
                gen_of(operands)
            } else if mode.as_str() == "upgrade" {
                upgrade_of(operands)
            } else {
                None
            }
        }
    }
}

/// The request, where the words are one.
pub fn request_of(words: &[String]) -> Option<Request<'_>>
    ensures { option_map asked result ≡ request_of (map (λ s. string_bytes s) words.now) }
{
    if has_faulty(words) {
        return None;
    }
    mode_of(words)
}
