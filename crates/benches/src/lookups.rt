//! Look-ups of the store.

ghost use Rattle.std.specs.Prelude.{◌≡◌, ◌<◌};

use crate::contents::{add, with_base, writes};
use crate::keys::{entity, field, next};
use crate::stop::Stop;
use cache_model::{EntityKey, FieldKey};
use entity_keys::{Lookup, Steps};
use layer_store::Store;
use std::alloc::Global;
use std::marker::Brand;
use std::sync::ledger::{Blank, Ledger};
use std::time::Instant;

/// The base under layers.
const BASE: u64 = 10_000;

/// How many places are looked up in turn.
const PLACES: u64 = 1_000;

/// One look-up over a base of so many cells, in nanoseconds.
pub(crate) fn over_base(rt: &HostRuntime, cells: u64, turns: u64) -> Result<u128, Stop> {
    let store = with_base(rt.alloc(), cells)?;
    timed::<Brand>(rt, &store, cells, turns, Blank::new(1))
}

/// One look-up under so many layers, which say nothing of its cell, in nanoseconds.
pub(crate) fn under_layers(rt: &HostRuntime, layers: u64, turns: u64) -> Result<u128, Stop> {
    let store = with_layers(rt.alloc(), layers)?;
    timed::<Brand>(rt, &store, BASE, turns, Blank::new(1))
}

fn with_layers(alloc: Global, layers: u64) -> Result<Store, Stop> {
    let mut store = with_base(alloc, BASE)?;
    for layer in 0..layers {
        add(&mut store, writes(alloc, BASE.wrapping_add(layer), 1)?)?;
    }
    Ok(store)
}

/// Places of cells among so many, that look random.
fn places(alloc: Global, cells: u64) -> Result<Vec<(EntityKey, FieldKey)>, Stop> {
    let mut places = Vec::new(alloc);
    let mut number = 1;
    for _ in 0..PLACES {
        number = next(number);
        let cell = (number >> 33) % cells.max(1);
        places.push((entity(alloc, cell)?, field(alloc, cell)?))?;
    }
    Ok(places)
}

fn timed<L: Ledger>(
    rt: &HostRuntime,
    store: &Store,
    cells: u64,
    turns: u64,
    blank: Blank,
) -> Result<u128, Stop>
    requires name { blank.name ≡ L.name }
    requires parts { blank.parts ≡ L.parts }
    requires some { 0 < blank.parts }
{
    let places = places(rt.alloc(), cells)?;
    let mut steps = Steps::<L>::new(blank);
    let mut found = 0u64;
    let start = Instant::now(rt)?;
    for turn in 0..turns {
        let at = (turn % PLACES) as usize;
        if let Some((entity, field)) = places.get(at) {
            found = found.wrapping_add(store.lookup(entity, field, &mut steps).is_some() as u64);
        }
    }
    let nanos = start.elapsed(rt)?.as_nanos() / turns.max(1) as u128;
    if found != turns {
        return Err(Stop::Answer);
    }
    Ok(nanos)
}
