//! Squashes of the store.

use crate::contents::{add, with_base, writes};
use crate::stop::Stop;
use layer_store::Store;
use std::time::Instant;

/// How many writes a content has, where the base is varied.
const WRITES: u64 = 10;

/// The base, where a content's writes are varied.
const BASE: u64 = 100_000;

/// Making and squashing one content of 10 writes into a base of so many cells, in nanoseconds.
pub(crate) fn into_base(rt: &HostRuntime, cells: u64, turns: u64) -> Result<u128, Stop> {
    timed(rt, cells, WRITES, turns)
}

/// Making and squashing one content of so many writes, in nanoseconds.
pub(crate) fn of_content(rt: &HostRuntime, size: u64, turns: u64) -> Result<u128, Stop> {
    timed(rt, BASE, size, turns)
}

fn timed(rt: &HostRuntime, cells: u64, size: u64, turns: u64) -> Result<u128, Stop> {
    let mut store = with_base(rt.alloc(), cells)?;
    let start = Instant::now(rt)?;
    for turn in 0..turns {
        let first = turn.wrapping_mul(size) % cells.max(1);
        add(&mut store, writes(rt.alloc(), first, size)?)?;
        store.squash()?;
    }
    Ok(start.elapsed(rt)?.as_nanos() / turns.max(1) as u128)
}
