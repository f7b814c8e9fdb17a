use crate::documents::Request;
use crate::steps::{Step, take};
use crate::stop::Stop;
use op_keys::Keys;
use std::time::Instant;

/// Taking a request up to a step, in nanoseconds.
pub(crate) fn timed(
    rt: &HostRuntime,
    last: Step,
    request: &Request,
    turns: u64,
) -> Result<u128, Stop> {
    let mut keys = Keys::new(rt.alloc());
    let start = Instant::now(rt)?;
    for _ in 0..turns {
        take(rt.alloc(), last, request, &mut keys)?;
    }
    Ok(start.elapsed(rt)?.as_nanos() / turns.max(1) as u128)
}
