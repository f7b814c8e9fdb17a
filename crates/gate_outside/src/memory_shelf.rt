ghost use Rattle.std.specs.Prelude.{◌≡◌};
ghost use Rattle.std.specs.Option.{option_copied};
ghost use Rattle.gate_outside.specs.InMemory.{file_under, unvisited};

use crate::shelf::{Shelf, ShelfError};
use std::alloc::Global;
use std::marker::Model;
use text_types::{Bytes, Named, Text};

/// A shelf that holds the files it was made with. It never fails.
#[derive(Drop)]
pub struct MemoryShelf {
    files: Named<Bytes>,
    missing: u64,
}

impl Model for MemoryShelf {
    ghost use Rattle.gate_outside.specs.InMemory.{ShelfInMemory};

    ghost Value = { ShelfInMemory };

    ghost view = { λ s. record { files = s.files; missing = s.missing } };
}

impl MemoryShelf {
    /// A shelf of these files.
    pub fn new(files: Named<Bytes>) -> MemoryShelf
        ensures { result ≡ unvisited files }
    {
        MemoryShelf { files, missing: 0 }
    }
}

/// The bytes under a name.
fn find_file<'a>(files: &'a Named<Bytes>, name: &Text) -> Option<&'a Bytes>
    ensures { option_copied result ≡ file_under files.now name.now }
{
    files
        .as_slice()
        .iter()
        .find(|file| file.0 == *name)
        .map(|file| &file.1)
}

impl Shelf for MemoryShelf {
    ghost use Rattle.std.specs.Prelude.{Some};

    ghost holds = { λ s. Some (file_under s.files) };

    ghost faults = { λ s. 0 };

    ghost missing = { λ s. s.missing };

    fn get(&mut self, alloc: Global, name: &Text) -> Result<Bytes, ShelfError> {
        let Some(file) = find_file(&self.files, name) else {
            self.missing = self.missing.saturating_add(1);
            return Err(ShelfError::Missing);
        };
        let mut copy = Bytes::new(alloc);
        copy.append(file.as_slice())?;
        Ok(copy)
    }
}
