ghost use Rattle.std.specs.Prelude.{◌≡◌, ◌+◌, ◌≤◌, [], ◌∷◌, ◌++◌, false, IfOk, OnOk, OnErr};
ghost use Rattle.std.specs.Option.{option_copied};
ghost use Rattle.partial_reader.specs.Walks.{value_or_null, trail_or_null};

use cache_model::{Cell, EntityKey, FieldKey, Visited};
use entity_keys::{Lookup, Steps};
use gql_value::Value;
use std::alloc::Global;
use std::sync::ledger::Ledger;
use text_types::{Items, Memory};

/// What a walk over cells has met: the places of the cells that it looked at, in order, and whether
/// something was absent and reads as null.
#[derive(Drop)]
pub(crate) struct Trail {
    pub(crate) visited: Visited,
    pub(crate) partial: bool,
}

impl Trail {
    pub(crate) fn new(alloc: Global) -> Trail
        ensures { result ≡ record { visited = []; partial = false } }
    {
        Trail {
            visited: Items::new(alloc),
            partial: false,
        }
    }

    fn push(&mut self, entity: EntityKey, field: FieldKey) -> Result<(), Memory>
        ensures { OnOk result (self.new ≡ record { visited = self.old.visited ++ (entity, field) ∷ []; partial = self.old.partial }) }
    {
        self.visited.push((entity, field))
    }

    /// An absent position of nullable type is null, and makes the reading partial.
    pub(crate) fn or_null(&mut self, required: bool, value: Option<Value>) -> Option<Value>
        ensures value { result ≡ value_or_null required value }
        ensures trail { self.new ≡ trail_or_null required value self.old }
    {
        if value.is_some() || required {
            return value;
        }
        self.partial = true;
        Some(Value::Null)
    }
}

/// The cell at a field of an object, which is then visited.
pub(crate) fn look<'c, C: Lookup, L: Ledger>(
    cells: &'c C,
    entity: &EntityKey,
    field: FieldKey,
    trail: &mut Trail,
    steps: &mut Steps<L>,
) -> Result<Option<&'c Cell>, Memory>
    ensures cell { IfOk result (λ cell. option_copied cell ≡ C.cells cells.now entity.now field) }
    ensures trail { OnOk result (trail.new ≡ record { visited = trail.old.visited ++ (entity.now, field) ∷ []; partial = trail.old.partial }) }
    ensures counted { OnOk result (steps.new ≡ steps.old + 1) }
    ensures bounded { OnErr result (steps.new ≤ steps.old + 1) }
{
    let cell = cells.lookup(entity, &field, steps);
    trail.push(entity.copy()?, field)?;
    Ok(cell)
}
