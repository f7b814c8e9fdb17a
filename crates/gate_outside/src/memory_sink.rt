ghost use Rattle.std.specs.Prelude.{◌≡◌, ◌<◌, ◌≤◌, length, IfOk};
ghost use Rattle.gate_outside.specs.InMemory.{unwritten};

use crate::sink::Sink;
use crate::source::Failed;
use std::alloc::Global;
use std::marker::Model;
use text_types::Memory;

/// A sink that holds up to `room` bytes and takes at most `piece` of them in one write. It fails only
/// where a write would pass its room.
#[derive(Drop)]
pub struct MemorySink {
    bytes: Vec<u8>,
    faults: u64,
    room: usize,
    piece: usize,
}

impl Model for MemorySink {
    ghost use Rattle.std.specs.Prelude.{◌<◌, ◌≤◌, vec_len, vec_capacity};
    ghost use Rattle.gate_outside.specs.InMemory.{SinkInMemory};

    ghost Value = { SinkInMemory };

    ghost view = { λ s. record {
      held = s.bytes.items;
      faults = s.faults;
      room = s.room;
      piece = s.piece;
    } };

    ghost invariant = { λ s.
        (vec_len s.bytes ≤ s.room) × (s.room ≤ vec_capacity s.bytes) × (0 < s.piece) };
}

impl MemorySink {
    /// Takes all its memory here, so that no write wants any.
    pub fn new(alloc: Global, room: usize, piece: usize) -> Result<MemorySink, Memory>
        requires { 0 < piece }
        ensures { IfOk result (λ s. s ≡ unwritten room piece) }
    {
        Ok(MemorySink {
            bytes: Vec::with_capacity(alloc, room)?,
            faults: 0,
            room,
            piece,
        })
    }

    /// The bytes that it holds.
    pub fn bytes(&self) -> &[u8]
        ensures held { result.now ≡ self.now.held }
        ensures room { length self.now.held ≤ self.now.room }
    {
        self.bytes.as_slice()
    }
}

impl Sink for MemorySink {
    ghost use Rattle.std.specs.Prelude.{Some};
    ghost use Rattle.std.specs.Io.KnownBytes.{WriteAppends};
    ghost use Rattle.fault_causes.specs.Causes.{HasCause};
    ghost use Rattle.gate_outside.specs.Sink.{TakesSome};
    ghost use Rattle.gate_outside.specs.InMemory.{TakesPiece};

    ghost held = { λ s. Some s.held };

    ghost faults = { λ s. s.faults };

    fn write(&mut self, bytes: &[u8]) -> Result<usize, Failed>
        ensures bound { TakesSome result bytes.now }
        ensures bytes { WriteAppends (Some self.old.held) (Some self.new.held) result bytes.now }
        ensures cause { HasCause self.old.faults self.new.faults result }
        ensures piece { TakesPiece self.old self.new result bytes.now }
    {
        let count = bytes.len().min(self.piece);
        if self.room - self.bytes.len() < count {
            self.faults = self.faults.saturating_add(1);
            return Err(Failed);
        }
        self.bytes.extend_from_slice(&bytes[..count]).unwrap();
        Ok(count)
    }
}
