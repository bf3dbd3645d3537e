//! A set of numbers as a flat list.

ghost use Rattle.std.specs.Prelude.{◌≡◌, ℕ, [], OnOk, OnErr, ◌==◌, if◌then◌else◌};
ghost use Rattle.kc_rising.specs.Listed.{times};

use kc_plain::NoMemory;
use std::alloc::Global;
use std::marker::Model;

/// Numbers, each once, in the order in which they came.
#[derive(Drop)]
pub struct Numbers {
    items: Vec<usize>,
    /// For each number whether it is there.
    marks: Vec<bool>,
}

impl Model for Numbers {
    ghost use Rattle.std.specs.Prelude.{ℕ, List, get_or, false};
    ghost use Rattle.kc_rising.specs.Listed.{AreListed};

    ghost Value = { List ℕ };

    ghost view = { λ s. s.items.items };

    ghost invariant = { λ s. AreListed s.items.items (λ n. get_or s.marks.items n false) };
}

impl Numbers {
    /// No number. It takes no memory.
    pub fn new(alloc: Global) -> Numbers
        ensures empty { result ≡ [] }
    {
        Numbers {
            items: Vec::new(alloc),
            marks: Vec::new(alloc),
        }
    }

    /// Adds the number, where it isn't there.
    pub fn add(&mut self, number: usize) -> Result<(), NoMemory>
        ensures added { OnOk result ((n : ℕ) → times self.new n ≡ if number == n then 1 else times self.old n) }
        ensures unchanged { OnErr result (self.new ≡ self.old) }
    {
        while self.marks.len() <= number {
            self.marks.push(false)?;
        }
        if !self.marks[number] {
            self.items.push(number)?;
            self.marks[number] = true;
        }
        Ok(())
    }

    /// Takes all numbers away.
    pub fn clear(&mut self)
        ensures empty { self.new ≡ [] }
    {
        while let Some(number) = self.items.pop() {
            if number < self.marks.len() {
                self.marks[number] = false;
            }
        }
    }

    /// The numbers in the order in which they came.
    pub fn as_slice(&self) -> &[usize]
        ensures items { result.now ≡ self.now }
    {
        self.items.as_slice()
    }
}
