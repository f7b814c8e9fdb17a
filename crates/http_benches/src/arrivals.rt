//! A response that comes in arrivals of so many bytes.

use crate::stop::Stop;
use fetch_link::{Fetch, Progress};
use gql_value::Outcome;
use std::alloc::Global;
use std::time::Instant;

/// Reading a response, in nanoseconds.
pub(crate) fn timed(
    rt: &HostRuntime,
    message: &[u8],
    arrival: usize,
    turns: u64,
) -> Result<u128, Stop> {
    let mut right = true;
    let start = Instant::now(rt)?;
    for _ in 0..turns {
        right = right && is_answered(rt.alloc(), message, arrival)?;
    }
    let nanos = start.elapsed(rt)?.as_nanos() / turns.max(1) as u128;
    if right { Ok(nanos) } else { Err(Stop::Answer) }
}

/// Whether the response comes to an answer, at its last byte or at the close behind it.
fn is_answered(alloc: Global, message: &[u8], arrival: usize) -> Result<bool, Stop> {
    let mut fetch = Fetch::start(alloc);
    for bytes in message.chunks(arrival.max(1)) {
        if let Progress::Done(outcome) = fetch.poll(bytes)? {
            return Ok(is_answer(&outcome));
        }
    }
    Ok(is_answer(&fetch.ended()?))
}

fn is_answer(outcome: &Outcome) -> bool {
    matches!(outcome, Outcome::Body { .. })
}
