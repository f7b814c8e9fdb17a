ghost use Rattle.std.specs.Prelude.{◌≡◌, ◌+◌};
ghost use Rattle.std.specs.Option.{option_copied};
ghost use Rattle.cache_model.specs.Maps.{CellMap};

use crate::steps::Steps;
use cache_model::{Cell, EntityKey, FieldKey};
use std::sync::ledger::Ledger;

/// What stands for a map of cells that can be looked up.
pub trait Lookup {
    ghost cells: { Self → CellMap };

    /// The cell at a field of an object, where the map has one. It is one step, and takes no memory.
    fn lookup<L: Ledger>(
        &self,
        entity: &EntityKey,
        field: &FieldKey,
        steps: &mut Steps<L>,
    ) -> Option<&Cell>
        ensures found { option_copied result ≡ cells self.now entity.now field.now }
        ensures counted { steps.new ≡ steps.old + 1 };
}
