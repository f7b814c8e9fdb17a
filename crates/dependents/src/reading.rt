ghost use Rattle.std.specs.Prelude.{◌≡◌, ◌||◌, IfOk, OnOk, OnErr};
ghost use Rattle.std.specs.BTreeMap as tree;
ghost use Rattle.std.specs.BTreeSet as sorted;
ghost use Rattle.std.specs.FinMap as map;
ghost use Rattle.std.specs.Ordering.{nat_cmp};
ghost use Rattle.dependents.specs.Places as spec;
ghost use Rattle.dependents.specs.declared.place.Place.{Place};

use crate::place::Place;
use crate::placing::remove_places;
use entity_keys::Visited;
use std::alloc::Global;
use std::collections::{BTreeMap, BTreeSet};
use text_types::{Items, Memory, Text};

/// The cells that the last reading of a query looked at, and its turn.
#[derive(Drop)]
pub struct Reading {
    pub turn: bool,
    pub cells: Items<(Text, Text)>,
}

/// The texts of the keys of visited cells.
pub(crate) fn key_texts(alloc: Global, visited: &Visited) -> Result<Items<(Text, Text)>, Memory>
    ensures { IfOk result (λ cells. cells ≡ visited.now) }
{
    let mut cells = Items::new(alloc);
    for cell in visited.as_slice() {
        cells.push((cell.0.as_text().copy()?, cell.1.as_text().copy()?))?;
    }
    Ok(cells)
}

/// The turn of a query's next reading.
pub(crate) fn next_turn(readings: &BTreeMap<u64, Reading>, sub: u64) -> bool
    ensures { result ≡ spec.next_turn (tree.get nat_cmp readings.now sub) }
{
    match readings.get(&sub) {
        Some(last) => !last.turn,
        None => false,
    }
}

/// Puts a reading whose places are there in place of the query's last one. Where it refuses, the
/// places of the new reading are gone and the last one stays.
pub(crate) fn replace(
    places: &mut BTreeSet<Place>,
    readings: &mut BTreeMap<u64, Reading>,
    sub: u64,
    reading: Reading,
) -> Result<(), Memory>
    requires placed { (place : Place) → sorted.contains spec.place_cmp places.old place ≡ (spec.is_current (tree.get nat_cmp readings.old place.sub) place || spec.is_placed sub reading.turn reading.cells place) }
    requires turn { reading.turn ≡ spec.next_turn (tree.get nat_cmp readings.old sub) }
    ensures indexed { spec.IsIndexed places.new readings.new }
    ensures ok { OnOk result (spec.dependents_of readings.new ≡ map.insert (spec.dependents_of readings.old) sub reading.cells) }
    ensures err { OnErr result (spec.dependents_of readings.new ≡ spec.dependents_of readings.old) }
{
    match readings.insert(sub, reading) {
        Ok(Some(Reading { turn, cells })) => {
            remove_places(places, sub, turn, cells);
            Ok(())
        }
        Ok(None) => Ok(()),
        Err(refused) => {
            let (_, Reading { turn, cells }) = refused.value;
            remove_places(places, sub, turn, cells);
            Err(Memory)
        }
    }
}
