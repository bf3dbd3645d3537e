//! Values that rise by joins, by their numbers.

ghost use Rattle.std.specs.Prelude.{◌≡◌, ◌<◌, ◌≤◌, ◌+◌, ◌^◌, ℕ, [], ◌∷◌, ◌++◌, ◌⊎◌, ◌↔◌, None, Option, false};
ghost use Rattle.std.specs.Prelude.{IsTrue, OnOk, OnErr, IfOk, cond, length, map, set, take, drop, sum_by, slice_get};
ghost use Rattle.std.specs.Option.{option_copied};
ghost use Rattle.kc_rising.specs.Listed.{IsListed};
ghost use Rattle.kc_rising.specs.Values.{next_value, raised_at, HasChanged, has_risen};

use crate::cell::{Cell, join_into};
use crate::kept::Kept;
use crate::numbers::Numbers;
use crate::rooms::Rooms;
use kc_lattice::Domain;
use kc_plain::NoMemory;
use std::alloc::Global;
use std::marker::Model;
use std::mem::replace;

/// Values by their numbers, counted from 0. Until the round ends each stays as it stood when the round began, beside
/// what it will be; those that came in this round aren't read yet. Contracts see them as they stood and as they will
/// be.
#[derive(Drop)]
pub struct Rising<D: Domain> {
    alloc: Global,
    cells: Vec<Cell<D>>,
    /// The values that came in this round, whose numbers follow those of the cells.
    fresh: Vec<D>,
    /// The numbers of the cells that were raised in this round.
    raised: Vec<usize>,
    rooms: Rooms<D>,
}

impl<D: Domain> Model for Rising<D> {
    ghost use Rattle.std.specs.Prelude.{◌++◌, List, map};
    ghost use Rattle.std.specs.Coded.{coded_list, coded×};
    ghost use Rattle.kc_rising.specs.Listed.{AreListed};
    ghost use Rattle.kc_rising.specs.Values.{has_risen, next_value};

    ghost Value = { List D × List D };

    ghost coded = { coded× (coded_list D.code) (coded_list D.code) };

    ghost view = { λ r. (
      map (λ c. c.value) r.cells.items,
      map (λ c. next_value c.value c.next) r.cells.items ++ r.fresh.items,
    ) };

    ghost invariant = { λ r. AreListed r.raised.items (has_risen (map (λ c. c.next) r.cells.items)) };
}

impl<D: Kept + Drop> Rising<D> {
    /// No value. It takes no memory.
    pub fn new(alloc: Global) -> Rising<D>
        ensures empty { result ≡ ([], []) }
    {
        Rising {
            alloc,
            cells: Vec::new(alloc),
            fresh: Vec::new(alloc),
            raised: Vec::new(alloc),
            rooms: Rooms::new(alloc),
        }
    }

    /// How many there were when the round began.
    pub fn stood(&self) -> usize
        ensures count { result ≡ length self.now.0 }
    {
        self.cells.len()
    }

    /// The value of this number as it stood when the round began.
    pub fn now(&self, number: usize) -> Option<&D>
        ensures value { option_copied result ≡ slice_get self.now.0 number }
    {
        match self.cells.get(number) {
            Some(cell) => Some(cell.now()),
            None => None,
        }
    }

    /// How many there will be.
    pub fn len(&self) -> usize
        requires { length self.now.1 < 2 ^ 32 }
        ensures count { result ≡ length self.now.1 }
    {
        self.cells.len() + self.fresh.len()
    }

    /// Whether there will be `most` values.
    pub fn is_full(&self, most: usize) -> bool
        ensures full { IsTrue result ↔ (most ≤ length self.now.1) }
    {
        let stood = self.cells.len();
        stood >= most || self.fresh.len() >= most - stood
    }

    /// Adds a value.
    pub fn add(&mut self, value: &D) -> Result<(), NoMemory>
        ensures added { OnOk result (self.new ≡ (self.old.0, self.old.1 ++ value.now ∷ [])) }
        ensures unchanged { OnErr result (self.new ≡ self.old) }
    {
        let mut room = self.rooms.take()?;
        room.overwrite(value);
        self.fresh.push(room)?;
        Ok(())
    }

    /// Joins `by` into what the value of this number will be.
    pub fn raise(&mut self, number: usize, by: &D) -> Result<(), NoMemory>
        ensures raised { OnOk result (self.new ≡ (self.old.0, raised_at D.joined self.old.1 number by.now)) }
        ensures unchanged { OnErr result (self.new ≡ self.old) }
    {
        if number < self.cells.len() {
            self.raise_cell(number, by)
        } else {
            let at = number - self.cells.len();
            self.raise_fresh(at, by);
            Ok(())
        }
    }

    fn raise_cell(&mut self, number: usize, by: &D) -> Result<(), NoMemory>
        requires { number < length self.old.0 }
        ensures raised { OnOk result (self.new ≡ (self.old.0, raised_at D.joined self.old.1 number by.now)) }
        ensures unchanged { OnErr result (self.new ≡ self.old) }
    {
        if self.cells[number].begins(by) {
            let next = self.cells[number].raised(by, &mut self.rooms)?;
            self.raised.push(number)?;
            self.cells[number].begin(next);
        } else {
            self.cells[number].raise_more(by);
        }
        Ok(())
    }

    // `at` counts from the first of those that came in this round.
    fn raise_fresh(&mut self, at: usize, by: &D)
        ensures { self.new ≡ (self.old.0, raised_at D.joined self.old.1 (length self.old.0 + at) by.now) }
    {
        raise_one(&mut self.fresh, at, by);
    }

    /// What the values will be is what they are from now on. Adds the numbers of those that changed or came, and tells
    /// whether one changed.
    pub fn settle(&mut self, changed: &mut Numbers) -> Result<bool, NoMemory>
        ensures settled { OnOk result (self.new ≡ (self.old.1, self.old.1)) }
        ensures listed { OnOk result ((n : ℕ) → IsListed changed.new n
            ↔ (IsListed changed.old n ⊎ HasChanged self.old n)) }
        ensures same { IfOk result (λ rose. rose ≡ false → self.old.0 ≡ take (length self.old.0) self.old.1) }
        ensures rank { IfOk result (λ rose. sum_by D.rank (take (length self.old.0) self.old.1) + cond rose 1 0
            ≤ sum_by D.rank self.old.0) }
        ensures few { length self.new.1 ≤ length self.old.1 }
    {
        let rose = self.settle_raised(changed)?;
        self.settle_fresh(changed)?;
        Ok(rose)
    }

    // The cells alone.
    fn settle_raised(&mut self, changed: &mut Numbers) -> Result<bool, NoMemory>
        ensures length { length self.new.0 ≡ length self.old.0 }
        ensures next { self.new.1 ≡ self.old.1 }
        ensures settled { OnOk result (self.new.0 ≡ take (length self.old.0) self.old.1) }
        ensures listed { OnOk result ((n : ℕ) → IsListed changed.new n
            ↔ (IsListed changed.old n ⊎ ((n < length self.old.0) × HasChanged self.old n))) }
        ensures same { IfOk result (λ rose. rose ≡ false → self.new.0 ≡ self.old.0) }
        ensures rank { IfOk result (λ rose. sum_by D.rank self.new.0 + cond rose 1 0 ≤ sum_by D.rank self.old.0) }
    {
        let mut rose = false;
        while let Some(number) = self.raised.pop() {
            rose |= settle_at(&mut self.cells, &mut self.rooms, number)?;
            changed.add(number)?;
        }
        Ok(rose)
    }

    // The values that came alone.
    fn settle_fresh(&mut self, changed: &mut Numbers) -> Result<(), NoMemory>
        ensures settled { OnOk result (self.new ≡ (self.old.0 ++ drop (length self.old.0) self.old.1, self.old.1)) }
        ensures listed { OnOk result ((n : ℕ) → IsListed changed.new n
            ↔ (IsListed changed.old n ⊎ ((length self.old.0 ≤ n) × (n < length self.old.1)))) }
        ensures few { length self.new.1 ≤ length self.old.1 }
    {
        let fresh = replace(&mut self.fresh, Vec::new(self.alloc));
        push_each(&mut self.cells, fresh, changed)
    }

    /// The values as they stood when the round began, in the order of their numbers.
    pub fn into_values(self) -> Result<Vec<D>, NoMemory>
        ensures values { IfOk result (λ values. values.items ≡ self.0) }
    {
        let Rising {
            alloc,
            cells,
            fresh: _fresh,
            raised: _raised,
            rooms: _rooms,
        } = self;
        let mut values = Vec::new(alloc);
        for cell in cells {
            values.push(cell.into_value())?;
        }
        Ok(values)
    }
}

// Joins `by` into the value of this number, if there is one.
fn raise_one<D: Kept + Drop>(values: &mut Vec<D>, number: usize, by: &D)
    ensures { values.new.items ≡ raised_at D.joined values.old.items number by.now }
{
    if number < values.len() {
        join_into(&mut values[number], by);
    }
}

// The next value of the cell becomes its present one, where it has one: whether it changed.
fn settle_at<D: Kept + Drop>(
    cells: &mut Vec<Cell<D>>,
    rooms: &mut Rooms<D>,
    number: usize,
) -> Result<bool, NoMemory>
    ensures length { length cells.new.items ≡ length cells.old.items }
    ensures nexts { map (λ c. c.next) cells.new.items ≡ set (map (λ c. c.next) cells.old.items) number None }
    ensures stays { map (λ c. next_value c.value c.next) cells.new.items
        ≡ map (λ c. next_value c.value c.next) cells.old.items }
    ensures same { IfOk result (λ rose. rose ≡ false
        → map (λ c. c.value) cells.new.items ≡ map (λ c. c.value) cells.old.items) }
    ensures rank { IfOk result (λ rose. sum_by D.rank (map (λ c. c.value) cells.new.items) + cond rose 1 0
        ≤ sum_by D.rank (map (λ c. c.value) cells.old.items)) }
{
    if number < cells.len() {
        cells[number].settle(rooms)
    } else {
        Ok(false)
    }
}

// The values are the last cells.
fn push_each<D: Kept + Drop>(
    cells: &mut Vec<Cell<D>>,
    values: Vec<D>,
    changed: &mut Numbers,
) -> Result<(), NoMemory>
    ensures values { OnOk result (map (λ c. c.value) cells.new.items
        ≡ map (λ c. c.value) cells.old.items ++ values.items) }
    ensures nexts { OnOk result (map (λ c. next_value c.value c.next) cells.new.items
        ≡ map (λ c. next_value c.value c.next) cells.old.items ++ values.items) }
    ensures risen { (n : ℕ) → has_risen (map (λ c. c.next) cells.new.items) n
        ≡ has_risen (map (λ c. c.next) cells.old.items) n }
    ensures few { length cells.new.items ≤ length cells.old.items + length values.items }
    ensures listed { OnOk result ((n : ℕ) → IsListed changed.new n
        ↔ (IsListed changed.old n ⊎ ((length cells.old.items ≤ n) × (n < length cells.new.items)))) }
{
    for value in values {
        changed.add(cells.len())?;
        cells.push(Cell::new(value))?;
    }
    Ok(())
}
