ghost use Rattle.std.specs.Prelude.{◌≡◌, ◌<◌, length, min, take};
ghost use Rattle.gate_outside.specs.InMemory.{unread};

use crate::source::{Failed, Source};
use std::marker::Model;
use text_types::Bytes;

/// A source that gives the bytes it was made with, at most `piece` of them in one read. It never fails.
#[derive(Drop)]
pub struct MemorySource {
    bytes: Bytes,
    given: usize,
    ended: bool,
    piece: usize,
}

impl Model for MemorySource {
    ghost use Rattle.std.specs.Prelude.{◌<◌, ◌≤◌, length, drop};
    ghost use Rattle.gate_outside.specs.InMemory.{SourceInMemory};

    ghost Value = { SourceInMemory };

    ghost view = { λ s. record {
      left = drop s.given s.bytes;
      given = s.given;
      ended = s.ended;
      piece = s.piece;
    } };

    ghost invariant = { λ s. (s.given ≤ length s.bytes) × (0 < s.piece) };
}

impl MemorySource {
    /// A source of these bytes that gives at most `piece` of them, which is at least 1, at a time.
    pub fn new(bytes: Bytes, piece: usize) -> MemorySource
        requires { 0 < piece }
        ensures { result ≡ unread bytes piece }
    {
        MemorySource {
            bytes,
            given: 0,
            ended: false,
            piece,
        }
    }

    /// How many bytes it has given.
    pub fn given(&self) -> usize
        ensures { result ≡ self.now.given }
    {
        self.given
    }
}

/// Copies as much as fits.
fn fill(from: &[u8], buf: &mut [u8]) -> usize
    ensures count { result ≡ min (length from.now) (length buf.old) }
    ensures front { take result buf.new ≡ take result from.now }
{
    let count = from.len().min(buf.len());
    buf[..count].copy_from_slice(&from[..count]);
    count
}

impl Source for MemorySource {
    ghost use Rattle.std.specs.Prelude.{Some};
    ghost use Rattle.std.specs.Io.{ReadsAtMost};
    ghost use Rattle.std.specs.Io.KnownBytes.{ReadConsumes};
    ghost use Rattle.fault_causes.specs.Causes.{HasCause};
    ghost use Rattle.gate_outside.specs.Source.{CountsGiven, MarksEnd};
    ghost use Rattle.gate_outside.specs.InMemory.{GivesPiece};

    ghost left = { λ s. Some s.left };

    ghost faults = { λ s. 0 };

    ghost given = { λ s. s.given };

    ghost ended = { λ s. s.ended };

    fn read(&mut self, buf: &mut [u8]) -> Result<usize, Failed>
        ensures bound { ReadsAtMost result buf.new }
        ensures bytes { ReadConsumes (Some self.old.left) (Some self.new.left) result buf.new }
        ensures cause { HasCause 0 0 result }
        ensures counted { CountsGiven self.old.given self.new.given result }
        ensures ended { MarksEnd self.old.ended self.new.ended result buf.new }
        ensures piece { GivesPiece self.old self.new result buf.new }
    {
        let rest = &self.bytes.as_slice()[self.given..];
        let count = fill(&rest[..self.piece.min(rest.len())], buf);
        self.given += count;
        self.ended |= count == 0 && !buf.is_empty();
        Ok(count)
    }
}
