//! What can be copied, lists of it, and what may be left out.

ghost use Rattle.std.specs.Prelude.{◌≡◌, IfOk};

use gql_model::Name;
use std::alloc::Global;
use text_types::{Items, Memory, Text};

/// A part of a document that can be copied.
pub trait CopyIn: Drop {
    /// An equal part.
    fn copy_in(&self, alloc: Global) -> Result<Self, Memory>
        ensures { IfOk result (λ copy. copy ≡ self.now) };
}

impl<T: CopyIn> CopyIn for Items<T> {
    fn copy_in(&self, alloc: Global) -> Result<Items<T>, Memory> {
        let mut copies = Items::new(alloc);
        'items: for item in self.as_slice() {
            copies.push(item.copy_in(alloc)?)?;
        }
        Ok(copies)
    }
}

impl<T: CopyIn> CopyIn for Option<T> {
    fn copy_in(&self, alloc: Global) -> Result<Option<T>, Memory> {
        match self {
            Some(part) => Ok(Some(part.copy_in(alloc)?)),
            None => Ok(None),
        }
    }
}

impl CopyIn for Text {
    fn copy_in(&self, _: Global) -> Result<Text, Memory> {
        self.copy()
    }
}

impl CopyIn for Name {
    fn copy_in(&self, _: Global) -> Result<Name, Memory> {
        Ok(Name {
            place: self.place,
            text: self.text.copy()?,
        })
    }
}
