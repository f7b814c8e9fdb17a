//! Which queries writes wake.

use crate::contents::writes;
use crate::keys::{entity, field};
use crate::stop::Stop;
use cache_model::Visited;
use dependents::Index;
use std::alloc::Global;
use std::time::Instant;

/// How many queries have visited the cell that is written.
const WOKEN: u64 = 3;

/// Finding the three queries of so many that one write wakes, in nanoseconds.
pub(crate) fn woken(rt: &HostRuntime, queries: u64, turns: u64) -> Result<u128, Stop> {
    let index = index(rt.alloc(), queries)?;
    let write = writes(rt.alloc(), 0, 1)?;
    let mut right = true;
    let start = Instant::now(rt)?;
    for _ in 0..turns {
        let subs = index.woken(&write)?;
        right = right && subs.len() as u64 == WOKEN;
    }
    let nanos = start.elapsed(rt)?.as_nanos() / turns.max(1) as u128;
    if right { Ok(nanos) } else { Err(Stop::Answer) }
}

/// Three queries that have visited cell 0, and others that have each visited one of their own.
fn index(alloc: Global, queries: u64) -> Result<Index, Stop> {
    let mut index = Index::new(alloc);
    for sub in 0..queries.max(WOKEN) {
        let cell = if sub < WOKEN { 0 } else { sub };
        let mut visited = Visited::new(alloc);
        visited.push((entity(alloc, cell)?, field(alloc, cell)?))?;
        index.put(sub, &visited)?;
    }
    Ok(index)
}
