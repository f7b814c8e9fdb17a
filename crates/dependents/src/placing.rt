ghost use Rattle.std.specs.Prelude.{◌≡◌, true, false, ◌&&◌, ◌||◌, not, OnOk};
ghost use Rattle.std.specs.BTreeSet.{contains};
ghost use Rattle.dependents.specs.Places.{place_cmp, is_placed};
ghost use Rattle.dependents.specs.declared.place.Place.{Place};

use crate::place::Place;
use std::collections::BTreeSet;
use text_types::{Items, Memory, Text};

/// Adds the places of some cells, of this query and turn. Where it refuses, some of them may have
/// been added.
pub(crate) fn add_places(
    places: &mut BTreeSet<Place>,
    sub: u64,
    turn: bool,
    cells: &Items<(Text, Text)>,
) -> Result<(), Memory>
    ensures added { OnOk result ((place : Place) → contains place_cmp places.new place ≡ (contains place_cmp places.old place || is_placed sub turn cells.now place)) }
    ensures others { (place : Place) → is_placed sub turn cells.now place ≡ false → contains place_cmp places.new place ≡ contains place_cmp places.old place }
{
    for cell in cells.as_slice() {
        places.insert(Place {
            entity: cell.0.copy()?,
            field: cell.1.copy()?,
            sub,
            turn,
        })?;
    }
    Ok(())
}

/// Takes the places of some cells out, of this query and turn. Takes no memory.
pub(crate) fn remove_places(
    places: &mut BTreeSet<Place>,
    sub: u64,
    turn: bool,
    cells: Items<(Text, Text)>,
)
    ensures { (place : Place) → contains place_cmp places.new place ≡ (contains place_cmp places.old place && not (is_placed sub turn cells place)) }
{
    for (entity, field) in cells.into_vec() {
        places.remove(&Place {
            entity,
            field,
            sub,
            turn,
        });
    }
}
