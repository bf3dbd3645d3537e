//! The words of a command.

ghost use Rattle.std.specs.Prelude.{◌≡◌, [], ◌∷◌, ◌++◌, drop, map, string_bytes, IfOk, OnOk, OnErr};
ghost use Rattle.std.specs.Vec.Iter.{into_iter_items};
ghost use Rattle.kc_plain.specs.Appended.{Appended};

use kc_plain::NoMemory;
use std::alloc::Global;
use std::env::Args;
use std::marker::Model;

/// The words after the program's own name, in their order, each seen as its bytes.
#[derive(Drop)]
pub struct Words {
    alloc: Global,
    words: Vec<String>,
}

impl Model for Words {
    ghost use Rattle.std.specs.Prelude.{List, ℕ, map, string_bytes};

    ghost Value = { List (List ℕ) };

    ghost view = { λ w. map (λ s. string_bytes s) w.words.items };
}

impl Words {
    /// No words. It takes no memory.
    pub fn new(alloc: Global) -> Words
        ensures empty { result ≡ [] }
    {
        Words {
            alloc,
            words: Vec::new(alloc),
        }
    }

    /// The words of a program's arguments, the first of which is its own name.
    pub fn after_name(alloc: Global, mut args: Args) -> Result<Words, NoMemory>
        ensures words { IfOk result (λ w. w ≡ drop 1 (map (λ s. string_bytes s) (into_iter_items args))) }
    {
        let mut words = Words::new(alloc);
        let _name = args.next();
        for word in args {
            words.push(word.as_str())?;
        }
        Ok(words)
    }

    /// Adds a word after the others; after `NoMemory` they are as before.
    pub fn push(&mut self, word: &str) -> Result<(), NoMemory>
        ensures added { OnOk result (Appended self.old self.new (word.now ∷ [])) }
        ensures unchanged { OnErr result (self.new ≡ self.old) }
    {
        let word = String::from_str(self.alloc, word)?;
        self.words.push(word)?;
        Ok(())
    }

    /// The words.
    pub(crate) fn as_slice(&self) -> &[String]
        ensures words { map (λ s. string_bytes s) result.now ≡ self.now }
    {
        self.words.as_slice()
    }
}
