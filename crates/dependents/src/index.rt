ghost use Rattle.std.specs.Prelude.{◌≡◌, ℕ, nat_eq, IfOk, OnOk, OnErr};
ghost use Rattle.std.specs.List.{list_any};
ghost use Rattle.std.specs.List.Sorted.{IsStrictlyIncreasing};
ghost use Rattle.std.specs.FinMap as map;
ghost use Rattle.dependents.specs.Waking.{wakes};

use crate::place::Place;
use crate::placing::{add_places, remove_places};
use crate::reading::{Reading, key_texts, next_turn, replace};
use crate::waking::{listed, woken_by};
use entity_keys::{Visited, Writes};
use std::alloc::Global;
use std::collections::{BTreeMap, BTreeSet};
use std::marker::Model;
use text_types::{Items, Memory};

/// Numbers of queries.
pub type Subs = Items<u64>;

/// What each live query has visited. Contracts see the map from a query's number to the cells of
/// its last reading. Behind it stands an index of these cells by their keys, so that `woken` looks
/// at what the writes cover, and not at each query.
#[derive(Drop)]
pub struct Index {
    places: BTreeSet<Place>,
    readings: BTreeMap<u64, Reading>,
    alloc: Global,
}

impl Model for Index {
    ghost use Rattle.std.specs.Coded.{coded_ℕ, coded_list, coded×};
    ghost use Rattle.std.specs.FinMap as map;
    ghost use Rattle.dependents.specs.Waking.{Dependents};
    ghost use Rattle.dependents.specs.Places.{IsIndexed, dependents_of};

    ghost Value = { Dependents };

    ghost coded = { map.code coded_ℕ (coded_list (coded× (coded_list coded_ℕ) (coded_list coded_ℕ))) };

    ghost view = { λ index. dependents_of index.readings };

    ghost invariant = { λ index. IsIndexed index.places index.readings };
}

impl Index {
    /// No query.
    pub fn new(alloc: Global) -> Index
        ensures { result ≡ map.empty }
    {
        Index {
            places: BTreeSet::new(alloc),
            readings: BTreeMap::new(alloc),
            alloc,
        }
    }
    /// From now on the query has visited these cells alone. A refusal changes nothing.
    pub fn put(&mut self, sub: u64, visited: &Visited) -> Result<(), Memory>
        ensures ok { OnOk result (self.new ≡ map.insert self.old sub visited.now) }
        ensures err { OnErr result (self.new ≡ self.old) }
    {
        let turn = next_turn(&self.readings, sub);
        let cells = key_texts(self.alloc, visited)?;
        match add_places(&mut self.places, sub, turn, &cells) {
            Ok(()) => replace(
                &mut self.places,
                &mut self.readings,
                sub,
                Reading { turn, cells },
            ),
            Err(memory) => {
                remove_places(&mut self.places, sub, turn, cells);
                Err(memory)
            }
        }
    }

    /// From now on the query isn't live, whether it was or not. Takes no memory.
    pub fn take(&mut self, sub: u64)
        ensures { self.new ≡ map.remove self.old sub }
    {
        if let Some(Reading { turn, cells }) = self.readings.remove(&sub) {
            remove_places(&mut self.places, sub, turn, cells);
        }
    }

    /// The queries that have visited a cell which some write covers, each once, in ascending order.
    pub fn woken(&self, writes: &Writes) -> Result<Subs, Memory>
        ensures ascending { IfOk result (λ subs. IsStrictlyIncreasing subs) }
        ensures exact { IfOk result (λ subs. (sub : ℕ) → list_any (nat_eq sub) subs ≡ wakes writes.now (map.get self.now sub)) }
    {
        listed(self.alloc, &woken_by(&self.places, writes)?)
    }
}
