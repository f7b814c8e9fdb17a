//! Contents that drop cells of one object.

use crate::contents::{add, with_base, writes};
use crate::keys::{FIELDS, entity};
use crate::stop::Stop;
use cache_model::{Write, Writes};
use std::alloc::Global;
use std::time::Instant;
use text_types::Text;

/// Dropping an object, setting its cells anew and squashing that, over a base of so many cells, in
/// nanoseconds.
pub(crate) fn of_objects(rt: &HostRuntime, cells: u64, turns: u64) -> Result<u128, Stop> {
    timed(rt, cells, turns, false)
}

/// Dropping the cells of one name of an object, setting its cells anew and squashing that, over a base
/// of so many cells, in nanoseconds.
pub(crate) fn of_names(rt: &HostRuntime, cells: u64, turns: u64) -> Result<u128, Stop> {
    timed(rt, cells, turns, true)
}

fn timed(rt: &HostRuntime, cells: u64, turns: u64, by_name: bool) -> Result<u128, Stop> {
    let mut store = with_base(rt.alloc(), cells)?;
    let start = Instant::now(rt)?;
    for turn in 0..turns {
        let first = turn.wrapping_mul(FIELDS) % cells.max(1);
        add(&mut store, dropping(rt.alloc(), first, by_name)?)?;
        add(&mut store, writes(rt.alloc(), first, FIELDS)?)?;
        store.squash()?;
    }
    Ok(start.elapsed(rt)?.as_nanos() / turns.max(1) as u128)
}

fn dropping(alloc: Global, cell: u64, by_name: bool) -> Result<Writes, Stop> {
    let mut writes = Writes::new(alloc);
    let object = entity(alloc, cell)?;
    let write = if by_name {
        Write::DropName(object, Text::from_string(format!(in alloc; "field0")?))
    } else {
        Write::DropAll(object)
    };
    writes.push(write)?;
    Ok(writes)
}
