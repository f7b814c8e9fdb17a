//! Parsing the body of a response.

use crate::stop::Stop;
use gql_value::{Outcome, Value, outcome_of};
use serde_json::Value as Json;
use std::alloc::Global;
use std::time::Instant;

/// Parsing a body as JSON alone, in nanoseconds.
pub(crate) fn of_json(rt: &HostRuntime, body: &[u8], turns: u64) -> Result<u128, Stop> {
    let mut right = true;
    let start = Instant::now(rt)?;
    for _ in 0..turns {
        right = right && Json::from_slice(rt.alloc(), body).is_ok();
    }
    per_turn(rt, start, turns, right)
}

/// Parsing a body as an answer with its errors, in nanoseconds.
pub(crate) fn of_answer(rt: &HostRuntime, body: &[u8], turns: u64) -> Result<u128, Stop> {
    let mut right = true;
    let start = Instant::now(rt)?;
    for _ in 0..turns {
        right = right && answer_of(rt.alloc(), body).is_ok();
    }
    per_turn(rt, start, turns, right)
}

/// The answer of a body, and its errors.
pub(crate) fn answer_of(alloc: Global, body: &[u8]) -> Result<(Value, Value), Stop> {
    match outcome_of(alloc, 200, body)? {
        Outcome::Body { answer, errors } => Ok((answer, errors)),
        Outcome::Bad(_) => Err(Stop::Answer),
    }
}

/// The time of one turn since the start, in nanoseconds, where each turn gave the right answer.
pub(crate) fn per_turn(
    rt: &HostRuntime,
    start: Instant,
    turns: u64,
    right: bool,
) -> Result<u128, Stop> {
    let nanos = start.elapsed(rt)?.as_nanos() / turns.max(1) as u128;
    if right { Ok(nanos) } else { Err(Stop::Answer) }
}
