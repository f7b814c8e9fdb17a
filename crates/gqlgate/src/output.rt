//! Any writer of std as a sink.

use gate_outside::{Failed, Sink};
use std::io::Write;

/// A writer, and how often it failed. It tells nothing of what it holds. A write that takes none of
/// some bytes counts as a failure.
#[derive(Drop)]
pub struct Output<W> {
    writer: W,
    faults: u64,
}

impl<W: Write> Output<W> {
    /// An output to which nothing was written yet.
    pub fn new(writer: W) -> Output<W> {
        Output { writer, faults: 0 }
    }
}

impl<W: Write> Sink for Output<W> {
    ghost use Rattle.std.specs.Prelude.{None};

    ghost held = { λ s. None };

    ghost faults = { λ s. s.faults };

    fn write(&mut self, bytes: &[u8]) -> Result<usize, Failed> {
        match self.writer.write(bytes) {
            Ok(count) if count > 0 || bytes.is_empty() => Ok(count),
            _ => {
                self.faults = self.faults.saturating_add(1);
                Err(Failed)
            }
        }
    }
}
