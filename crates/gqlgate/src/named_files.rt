//! The files of the system by their names.

use gate_outside::{Shelf, ShelfError};
use std::alloc::Global;
use std::fs;
use std::io::{ErrorKind, Read};
use std::rt::Files;
use text_types::{Bytes, Text};

/// A named file may have this many bytes.
const MAX_FILE: usize = 67_108_864;

/// The system's files, how often a name was missing, and how often the system failed. It tells
/// nothing of what they hold.
#[derive(Drop)]
pub struct NamedFiles<'a, R> {
    rt: &'a R,
    missing: u64,
    faults: u64,
}

impl<'a, R: Files> NamedFiles<'a, R> {
    /// The system's files, of which none was asked for yet.
    pub fn new(rt: &'a R) -> NamedFiles<'a, R> {
        NamedFiles {
            rt,
            missing: 0,
            faults: 0,
        }
    }
}

/// Why a file's bytes weren't read.
enum Unread {
    Memory,
    Failed,
}

/// The bytes of a file up to the limit.
fn bytes_of<F: Read>(alloc: Global, file: &mut F) -> Result<Bytes, Unread> {
    let mut bytes = Bytes::new(alloc);
    let mut piece = [0u8; 4096];
    for _ in 0..=MAX_FILE {
        let Ok(count) = file.read(&mut piece) else {
            return Err(Unread::Failed);
        };
        if count == 0 {
            return Ok(bytes);
        }
        if bytes.append(&piece[..count]).is_err() {
            return Err(Unread::Memory);
        }
        if bytes.len() > MAX_FILE {
            return Err(Unread::Failed);
        }
    }
    Err(Unread::Failed)
}

impl<'a, R: Files> Shelf for NamedFiles<'a, R> {
    ghost use Rattle.std.specs.Prelude.{None};

    ghost holds = { λ s. None };

    ghost faults = { λ s. s.faults };

    ghost missing = { λ s. s.missing };

    fn get(&mut self, alloc: Global, name: &Text) -> Result<Bytes, ShelfError> {
        let read = match fs::open(self.rt, name.as_str()) {
            Ok(mut file) => bytes_of(alloc, &mut file),
            Err(e) if e.kind() == ErrorKind::NotFound => {
                self.missing = self.missing.saturating_add(1);
                return Err(ShelfError::Missing);
            }
            Err(e) if e.kind() == ErrorKind::OutOfMemory => Err(Unread::Memory),
            Err(_) => Err(Unread::Failed),
        };
        match read {
            Ok(bytes) => Ok(bytes),
            Err(Unread::Memory) => Err(ShelfError::Memory),
            Err(Unread::Failed) => {
                self.faults = self.faults.saturating_add(1);
                Err(ShelfError::Failed)
            }
        }
    }
}
