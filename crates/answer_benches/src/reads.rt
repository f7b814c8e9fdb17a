//! Reading what an answer left in a store.

ghost use Rattle.std.specs.Prelude.{◌≡◌, ◌<◌};
ghost use Rattle.checked_operation.specs.Acceptance.{IsWhole};

use crate::parses::{answer_of, per_turn};
use crate::query::{operation, variables};
use crate::stop::Stop;
use crate::types::Types;
use crate::writes::written;
use cache_model::{Kind, Writes};
use checked_operation::Checked;
use entity_keys::Steps;
use layer_store::Store;
use partial_reader::{Reading, read};
use std::alloc::Global;
use std::marker::Brand;
use std::sync::ledger::{Blank, Ledger};
use std::time::Instant;

/// Reading a whole answer from the base of a store, in nanoseconds.
pub(crate) fn timed(rt: &HostRuntime, body: &[u8], turns: u64) -> Result<u128, Stop> {
    let types = Types::new(rt.alloc())?;
    let operation = operation(rt.alloc(), &types)?;
    let (answer, errors) = answer_of(rt.alloc(), body)?;
    let writes = written(rt.alloc(), &types, &operation, &answer, &errors)?;
    let store = store_of(rt.alloc(), writes)?;
    readings::<Brand>(rt, &types, &operation, &store, turns, Blank::new(1))
}

/// A store in whose base these writes are.
fn store_of(alloc: Global, writes: Writes) -> Result<Store, Stop> {
    let mut store = Store::new(alloc);
    let ticket = store.reserve()?;
    if store.is_open(ticket) {
        store.fill(ticket, writes, Kind::Final)?;
    }
    if store.can_finish(ticket) {
        store.finish(ticket);
    }
    store.squash()?;
    Ok(store)
}

fn readings<L: Ledger>(
    rt: &HostRuntime,
    types: &Types,
    operation: &Checked,
    store: &Store,
    turns: u64,
    blank: Blank,
) -> Result<u128, Stop>
    requires whole { IsWhole operation.now }
    requires name { blank.name ≡ L.name }
    requires parts { blank.parts ≡ L.parts }
    requires some { 0 < blank.parts }
{
    let alloc = rt.alloc();
    let variables = variables(alloc)?;
    let mut steps = Steps::<L>::new(blank);
    let mut right = true;
    let start = Instant::now(rt)?;
    for _ in 0..turns {
        let (reading, _) = read(
            alloc,
            types.inputs(),
            operation,
            &variables,
            store,
            &mut steps,
        )?;
        right = right && matches!(reading, Reading::Hit(_));
    }
    per_turn(rt, start, turns, right)
}
