//! Any reader of std as a source.

use gate_outside::{Failed, Source};
use std::io::Read;

/// A reader, how many bytes it gave, whether it gave its end, and how often it failed. It tells
/// nothing of the bytes that are left.
#[derive(Drop)]
pub struct Input<R> {
    reader: R,
    given: u64,
    ended: bool,
    faults: u64,
}

impl<R: Read> Input<R> {
    /// An input of which nothing was taken yet.
    pub fn new(reader: R) -> Input<R> {
        Input {
            reader,
            given: 0,
            ended: false,
            faults: 0,
        }
    }
}

impl<R: Read> Source for Input<R> {
    ghost use Rattle.std.specs.Prelude.{None};

    ghost left = { λ s. None };

    ghost faults = { λ s. s.faults };

    ghost given = { λ s. s.given };

    ghost ended = { λ s. s.ended };

    fn read(&mut self, buf: &mut [u8]) -> Result<usize, Failed> {
        let Ok(count) = self.reader.read(buf) else {
            self.faults = self.faults.saturating_add(1);
            return Err(Failed);
        };
        let Some(given) = self.given.checked_add(count as u64) else {
            self.faults = self.faults.saturating_add(1);
            return Err(Failed);
        };
        self.given = given;
        if count == 0 && !buf.is_empty() {
            self.ended = true;
        }
        Ok(count)
    }
}
