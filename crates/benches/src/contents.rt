//! Stores with many cells.

use crate::keys::{entity, field};
use crate::stop::Stop;
use cache_model::{Cell, Kind, Write, Writes};
use gql_value::Value;
use layer_store::Store;
use std::alloc::Global;

/// How many cells come with one content.
const CONTENT: u64 = 1_000;

/// Writes of cells in a row.
pub(crate) fn writes(alloc: Global, first: u64, count: u64) -> Result<Writes, Stop> {
    let mut writes = Writes::new(alloc);
    for at in 0..count {
        let cell = first.wrapping_add(at);
        writes.push(Write::Set(
            entity(alloc, cell)?,
            field(alloc, cell)?,
            Cell::Leaf(Value::Null),
        ))?;
    }
    Ok(writes)
}

/// One content more, which is finished.
pub(crate) fn add(store: &mut Store, writes: Writes) -> Result<(), Stop> {
    let ticket = store.reserve()?;
    if store.is_open(ticket) {
        store.fill(ticket, writes, Kind::Final)?;
    }
    if store.can_finish(ticket) {
        store.finish(ticket);
    }
    Ok(())
}

/// A store whose base has so many cells, to the next thousand.
pub(crate) fn with_base(alloc: Global, cells: u64) -> Result<Store, Stop> {
    let mut store = Store::new(alloc);
    for content in 0..cells.div_ceil(CONTENT) {
        add(
            &mut store,
            writes(alloc, content.wrapping_mul(CONTENT), CONTENT)?,
        )?;
        store.squash()?;
    }
    Ok(store)
}
