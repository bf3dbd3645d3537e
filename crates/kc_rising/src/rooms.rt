//! Values to be overwritten, kept from round to round.

use crate::kept::Kept;
use kc_plain::NoMemory;
use std::alloc::Global;

/// Room for values. It grows only where all of it is in use.
#[derive(Drop)]
pub struct Rooms<D> {
    alloc: Global,
    free: Vec<D>,
}

impl<D: Kept + Drop> Rooms<D> {
    /// No room yet. It takes no memory.
    pub fn new(alloc: Global) -> Rooms<D> {
        Rooms {
            alloc,
            free: Vec::new(alloc),
        }
    }

    /// A value to be overwritten.
    pub fn take(&mut self) -> Result<D, NoMemory> {
        match self.free.pop() {
            Some(room) => Ok(room),
            None => D::room(self.alloc),
        }
    }

    /// Takes back a value that isn't used any more.
    pub fn give(&mut self, room: D) -> Result<(), NoMemory> {
        self.free.push(room)?;
        Ok(())
    }
}
