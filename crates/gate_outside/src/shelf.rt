use std::alloc::Global;
use text_types::{Bytes, Memory, Text};

/// Why a shelf gave no file.
#[derive(Clone, Copy, Debug, Drop, PartialEq, Eq)]
pub enum ShelfError {
    /// Out of memory.
    Memory,
    /// The shelf has no such name.
    Missing,
    /// The shelf failed.
    Failed,
}

impl From<Memory> for ShelfError {
    ghost use Rattle.std.specs.Prelude.{◌≡◌};
    ghost use Rattle.gate_outside.specs.declared.shelf.ShelfError.TheVariants as shelf_error;

    ghost from_gives = { λ _ e. e ≡ shelf_error.Memory };

    fn from(_: Memory) -> ShelfError {
        ShelfError::Memory
    }
}

/// Files under names.
pub trait Shelf {
    ghost use Rattle.std.specs.Prelude.{◌≡◌, ℕ, List, Option};
    ghost use Rattle.fault_causes.specs.Causes.{HasCauseOf};
    ghost use Rattle.gate_outside.specs.Shelf.{AnswersAsHeld};

    /// The bytes under each name, or none, where the shelf tells them.
    ghost holds: { Self → Option (List ℕ → Option (List ℕ)) };

    /// How often it has failed.
    ghost faults: { Self → ℕ };

    /// How often it had no such name.
    ghost missing: { Self → ℕ };

    /// The bytes of a file.
    fn get(&mut self, alloc: Global, name: &Text) -> Result<Bytes, ShelfError>
        ensures kept { holds self.new ≡ holds self.old }
        ensures answer { AnswersAsHeld (holds self.old) name.now result }
        ensures missed { HasCauseOf ShelfError.Missing (missing self.old) (missing self.new) result }
        ensures failed { HasCauseOf ShelfError.Failed (faults self.old) (faults self.new) result };
}
