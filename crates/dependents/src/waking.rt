ghost use Rattle.std.specs.Prelude.{◌≡◌, ℕ, ◌||◌, OnOk, IfOk};
ghost use Rattle.std.specs.BTreeSet.{contains, IsOrdered};
ghost use Rattle.std.specs.List.{list_any};
ghost use Rattle.std.specs.Ordering.{nat_cmp};
ghost use Rattle.dependents.specs.Places.{wakes_place};

use crate::place::Place;
use crate::span::{end_of_write, start_of_write};
use entity_keys::{Write, Writes, covers_texts};
use std::alloc::Global;
use std::collections::BTreeSet;
use text_types::{Items, Memory};

/// The queries that have a place which some write covers, each once, in ascending order.
pub(crate) fn woken_by(places: &BTreeSet<Place>, writes: &Writes) -> Result<BTreeSet<u64>, Memory>
    ensures { IfOk result (λ woken. (sub : ℕ) → contains nat_cmp woken sub ≡ list_any (λ write. list_any (wakes_place write sub) places.now.keys) writes.now) }
{
    let mut woken = BTreeSet::new(writes.allocator());
    for write in writes.as_slice() {
        wake(places, write, &mut woken)?;
    }
    Ok(woken)
}

/// Adds the queries that have a place which the write covers.
fn wake(places: &BTreeSet<Place>, write: &Write, woken: &mut BTreeSet<u64>) -> Result<(), Memory>
    ensures { OnOk result ((sub : ℕ) → contains nat_cmp woken.new sub ≡ (contains nat_cmp woken.old sub || list_any (wakes_place write.now sub) places.now.keys)) }
{
    let start = start_of_write(write)?;
    let end = end_of_write(write)?;
    for place in places.range(start..end) {
        if covers_texts(write, &place.entity, &place.field) {
            woken.insert(place.sub)?;
        }
    }
    Ok(())
}

/// The numbers of a set, in ascending order.
pub(crate) fn listed(alloc: Global, numbers: &BTreeSet<u64>) -> Result<Items<u64>, Memory>
    ensures keys { IfOk result (λ list. list ≡ numbers.now.keys) }
    ensures ordered { IsOrdered nat_cmp numbers.now }
{
    Ok(Items::from_vec(numbers.iter().copied().collect(alloc)?))
}
