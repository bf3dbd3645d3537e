//! A sink in memory, which refuses pieces where it was planned or where they pass its room.

ghost use Rattle.std.specs.Prelude.{◌≡◌, ◌≢◌, ◌+◌, ◌-◌, ◌^◌, ◌<◌, ◌≤◌, ◌==◌, ◌||◌, nat_lt, [], length, is_err, Some};
ghost use Rattle.std.specs.Prelude.{IfOk, vec_len, vec_capacity};
ghost use Rattle.std.specs.Io.{WritesAtMost};
ghost use Rattle.std.specs.Io.KnownBytes.{WriteAppends};
ghost use Rattle.std.specs.List.{list_any};
ghost use Rattle.kc_io.specs.Count.{saturated, Rose};
ghost use Rattle.kc_io.specs.Sink.{SinkState, SinkKept, Plan, IsRefusal, refused_length};

use crate::{Failed, Sink};
use kc_plain::NoMemory;
use std::alloc::Global;

/// A sink in memory. A call of `write` fails exactly where its number, counted from 0, is one of
/// those that fail by plan, or its piece would pass the room; else it takes the whole piece.
#[derive(Drop)]
pub struct MemSink {
    bytes: Vec<u8>,
    room: usize,
    failing: Vec<u64>,
    /// The number of the next call.
    next: u64,
    faults: u64,
    /// The length of the piece that was refused last.
    refused: usize,
    ghost has_room: { room ≤ vec_capacity bytes },
    ghost within: { vec_len bytes ≤ room },
    ghost full: { failing.items ≡ [] → faults ≢ 0 → room < length bytes.items + refused },
}

impl MemSink {
    /// An empty sink for `room` bytes. The calls whose numbers are in `failing` fail.
    pub fn new(alloc: Global, room: usize, failing: Vec<u64>) -> Result<MemSink, NoMemory>
        ensures empty { IfOk result (λ s. ⟦<MemSink as Sink>⟧.state s ≡ record {
          written = Some [];
          faults = 0;
          refused = 0;
          plan = record { failing = failing.items; room = Some room };
        }) }
        // The first call has the number 0.
        ensures first { IfOk result (λ s. s.next ≡ 0) }
    {
        let mut bytes = Vec::new(alloc);
        bytes.reserve_exact(room)?;
        Ok(MemSink {
            bytes,
            room,
            failing,
            next: 0,
            faults: 0,
            refused: 0,
        })
    }

    /// What was written.
    pub fn bytes(&self) -> &[u8]
        ensures written { (⟦<MemSink as Sink>⟧.state self.now).written ≡ Some result.now }
    {
        &self.bytes
    }
}

impl Sink for MemSink {
    ghost state = { λ s. record {
      written = Some s.bytes.items;
      faults = s.faults;
      refused = s.refused;
      plan = record { failing = s.failing.items; room = Some s.room };
    } };

    fn write(&mut self, piece: &[u8]) -> Result<usize, Failed>
        ensures bound { WritesAtMost result piece.now }
        ensures bytes { WriteAppends (Some self.old.bytes.items) (Some self.new.bytes.items) result piece.now }
        ensures cause { IsRefusal result piece.now → Rose self.old.faults self.new.faults }
        ensures refused { self.new.refused ≡ refused_length self.old.refused result piece.now }
        ensures kept { SinkKept (⟦<MemSink as Sink>⟧.state self.old) (⟦<MemSink as Sink>⟧.state self.new) }

        // Exactly the planned calls fail, and those whose piece would pass the room.
        ensures fails { is_err result ≡ (list_any (λ n. n == self.old.next) self.old.failing.items
            || nat_lt self.old.room (vec_len self.old.bytes + length piece.now)) }
        ensures whole { IfOk result (λ n. n ≡ length piece.now) }
        ensures next { self.new.next ≡ saturated self.old.next 1 }
    {
        let call = self.next;
        self.next = call.saturating_add(1);
        let fits = piece.len() <= self.room - self.bytes.len();
        if self.failing.contains(&call) || !fits || self.bytes.extend_from_slice(piece).is_err() {
            self.faults = self.faults.saturating_add(1);
            self.refused = piece.len();
            return Err(Failed);
        }
        Ok(piece.len())
    }
}
