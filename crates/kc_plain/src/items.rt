//! A list whose address no contract sees.

ghost use Rattle.std.specs.Prelude.{◌≡◌, [], ◌∷◌, ◌++◌, ◌<◌, length, slice_get, slice_set, remove, ◌↔◌, IsTrue};
ghost use Rattle.std.specs.Prelude.{MatchOption, OnOk, OnErr};
ghost use Rattle.std.specs.Option.{option_copied};
ghost use Rattle.kc_plain.specs.Appended.{Appended};

use crate::NoMemory;
use std::alloc::Global;
use std::marker::Model;

/// A `Vec` that contracts see as the list of its elements, so that a struct that holds one can be
/// compared with a definition's value. It is made from a `Vec` and gives it back without memory.
#[derive(Debug, Drop)]
pub struct Items<T> {
    items: Vec<T>,
}

impl<T> Model for Items<T> {
    ghost use Rattle.std.specs.Prelude.{List};
    ghost use Rattle.std.specs.Coded.{coded_list};

    ghost Value = { List T };

    ghost coded = { coded_list T.code };

    ghost view = { λ it. it.items.items };
}

impl<T> Items<T> {
    /// The empty list. It takes no memory.
    pub fn new(alloc: Global) -> Items<T>
        ensures empty { result ≡ [] }
    {
        Items {
            items: Vec::new(alloc),
        }
    }

    /// The elements of `items`. It takes no memory.
    pub fn from_vec(items: Vec<T>) -> Items<T>
        ensures items { result ≡ items.items }
    {
        Items { items }
    }

    /// The `Vec` of these elements. It takes no memory.
    pub fn into_vec(self) -> Vec<T>
        ensures items { result.items ≡ self }
    {
        let Items { items } = self;
        items
    }

    /// The elements in their order.
    pub fn as_slice(&self) -> &[T]
        ensures items { result.now ≡ self.now }
    {
        self.items.as_slice()
    }

    /// How many elements there are.
    pub fn len(&self) -> usize
        ensures len { result ≡ length self.now }
    {
        self.items.len()
    }

    /// Whether there is no element.
    pub fn is_empty(&self) -> bool
        ensures empty { IsTrue result ↔ (self.now ≡ []) }
    {
        self.items.is_empty()
    }

    /// The element at this index, counted from 0.
    pub fn get(&self, at: usize) -> Option<&T>
        ensures item { option_copied result ≡ slice_get self.now at }
    {
        self.items.get(at)
    }

    /// Takes the last element away.
    pub fn pop(&mut self) -> Option<T>
        ensures last { MatchOption result ((self.old ≡ []) × (self.new ≡ []))
            (λ last. self.old ≡ self.new ++ last ∷ []) }
    {
        self.items.pop()
    }
}

impl<T: Drop> Items<T> {
    /// Adds `item` after the last element; after `NoMemory` the list is as before.
    pub fn push(&mut self, item: T) -> Result<(), NoMemory>
        ensures added { OnOk result (Appended self.old self.new (item ∷ [])) }
        ensures unchanged { OnErr result (self.new ≡ self.old) }
    {
        self.items.push(item)?;
        Ok(())
    }

    /// Replaces the element at this index by `item`.
    pub fn set(&mut self, at: usize, item: T)
        requires within { at < length self.old }
        ensures items { self.new ≡ slice_set self.old at item }
    {
        self.items[at] = item;
    }

    /// Takes the element at this index away; those after it move up.
    pub fn remove(&mut self, at: usize) -> T
        requires within { at < length self.old }
        ensures item { slice_get self.old at ≡ Some result }
        ensures rest { self.new ≡ remove self.old at }
    {
        self.items.remove(at)
    }
}
