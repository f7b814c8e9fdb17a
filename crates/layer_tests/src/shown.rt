//! What the store shows, beside what the list makes.

use crate::contents::{Plain, Spot, entity, field, is_covered_behind, is_guessed, number_at};
use cache_model::{Cell, Visited};
use entity_keys::{Lookup, Steps};
use gql_value::Value;
use layer_store::Store;
use optimistic_layers::{blocked, masked};
use std::alloc::Global;
use std::process::Abort;
use std::sync::ledger::Ledger;
use std::test::Fail;

/// Every cell that a write of a number covers, by the bytes of their keys.
const CELLS: [(&str, &str); 6] = [
    ("A", "todo"),
    ("A", "todo(1)"),
    ("A", "todos"),
    ("B", "todo"),
    ("B", "todo(1)"),
    ("B", "todos"),
];

pub fn spots(alloc: Global) -> Result<Vec<Spot>, Fail> {
    let mut spots = Vec::new(alloc);
    for (object, name) in CELLS {
        spots.push(Spot {
            entity: entity(alloc, object)?,
            field: field(alloc, name)?,
        })?;
    }
    Ok(spots)
}

fn number_of(cell: Option<&Cell>) -> Option<i64> {
    match cell {
        Some(Cell::Leaf(Value::Int(number))) => Some(*number),
        _ => None,
    }
}

/// Each cell is looked up as the list makes it, and the sorted list has these cells alone.
pub fn assert_cells<L: Ledger>(
    rt: &impl Abort,
    alloc: Global,
    store: &Store,
    contents: &[Plain],
    spots: &[Spot],
    steps: &mut Steps<L>,
) -> Result<(), Fail> {
    let mut numbers = Vec::new(alloc);
    for spot in spots {
        let wanted = number_at(alloc, contents, spot)?;
        let found = number_of(store.lookup(&spot.entity, &spot.field, steps));
        assert_eq!(rt; found, wanted);
        if wanted.is_some() {
            numbers.push(wanted)?;
        }
    }
    let mut listed = Vec::new(alloc);
    for (_, _, cell) in store.flat(steps)?.as_slice() {
        listed.push(number_of(Some(cell)))?;
    }
    assert_eq!(rt; listed.as_slice(), numbers.as_slice());
    Ok(())
}

/// A query that looked at one cell is held back as the list says: by a guess, and by later contents than
/// one that is open.
pub fn assert_held_back(
    rt: &impl Abort,
    alloc: Global,
    store: &Store,
    contents: &[Plain],
    spots: &[Spot],
    number: u64,
) -> Result<(), Fail> {
    let ticket = number % (contents.len() as u64 + 1);
    for spot in spots {
        let mut visited = Visited::new(alloc);
        visited.push((spot.entity.copy()?, spot.field.copy()?))?;
        let guessed = is_guessed(alloc, contents, spot)?;
        assert_eq!(rt; store.touched(&spot.entity, &spot.field), guessed);
        assert_eq!(rt; blocked(&visited, store), guessed);
        if store.is_open(ticket) {
            let covered = is_covered_behind(alloc, contents, ticket as usize, spot)?;
            assert_eq!(rt;
                store.lookup_above(ticket, &spot.entity, &spot.field),
                covered
            );
            assert_eq!(rt; masked(&visited, store, ticket), covered);
        }
    }
    Ok(())
}
