//! A text whose address no contract sees.

ghost use Rattle.std.specs.Prelude.{◌≡◌, string_bytes, IfOk};

use crate::NoMemory;
use std::alloc::Global;
use std::marker::Model;

/// A `String` that contracts see as the list of its bytes. It is made from a `String` and gives it
/// back without memory.
#[derive(Debug, Drop)]
pub struct Text {
    text: String,
}

impl Model for Text {
    ghost use Rattle.std.specs.Prelude.{List, ℕ, string_bytes};

    ghost Value = { List ℕ };

    ghost view = { λ t. string_bytes t.text };
}

impl Text {
    /// The bytes of `text`. It takes no memory.
    pub fn from_string(text: String) -> Text
        ensures bytes { result ≡ string_bytes text }
    {
        Text { text }
    }

    /// A copy of `text`.
    pub fn copied(alloc: Global, text: &str) -> Result<Text, NoMemory>
        ensures bytes { IfOk result (λ t. t ≡ text.now) }
    {
        let text = String::from_str(alloc, text)?;
        Ok(Text { text })
    }

    /// The `String` of these bytes. It takes no memory.
    pub fn into_string(self) -> String
        ensures bytes { string_bytes result ≡ self }
    {
        let Text { text } = self;
        text
    }

    /// The text.
    pub fn as_str(&self) -> &str
        ensures bytes { result.now ≡ self.now }
    {
        self.text.as_str()
    }
}
