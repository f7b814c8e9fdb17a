//! Responses that come in arrivals of so many bytes.

use crate::stop::Stop;
use fetch_link::{Fetch, Progress};
use std::alloc::Global;
use std::time::Instant;

/// The bytes of the long body, without its 19 for the form.
const BODY: usize = 8_000_000;

/// How many fields the long head has, and the bytes of each one's value.
const FIELDS: usize = 90;

const VALUE: usize = 700;

/// Reading a response of 8 MB in arrivals of so many bytes, in nanoseconds.
pub(crate) fn of_body(rt: &HostRuntime, size: u64, turns: u64) -> Result<u128, Stop> {
    let message = with_body(rt.alloc())?;
    timed(rt, message.as_bytes(), size, turns)
}

/// Reading a response whose head has 64 KB in arrivals of so many bytes, in nanoseconds.
pub(crate) fn of_head(rt: &HostRuntime, size: u64, turns: u64) -> Result<u128, Stop> {
    let message = with_head(rt.alloc())?;
    timed(rt, message.as_bytes(), size, turns)
}

fn with_body(alloc: Global) -> Result<String, Stop> {
    let letters = "a".repeat(alloc, BODY)?;
    let body = format!(in alloc; "{{\"data\":{{\"a\":\"{letters}\"}}}}")?;
    let size = body.len();
    Ok(format!(in alloc; "HTTP/1.1 200 OK\r\nContent-Length: {size}\r\n\r\n{body}")?)
}

fn with_head(alloc: Global) -> Result<String, Stop> {
    let letters = "a".repeat(alloc, VALUE)?;
    let field = format!(in alloc; "A-Field-Of-Many: {letters}\r\n")?;
    let fields = field.repeat(alloc, FIELDS)?;
    Ok(format!(in alloc; "HTTP/1.1 200 OK\r\n{fields}Content-Length: 13\r\n\r\n{{\"data\":null}}")?)
}

fn timed(rt: &HostRuntime, message: &[u8], size: u64, turns: u64) -> Result<u128, Stop> {
    let mut right = true;
    let start = Instant::now(rt)?;
    for _ in 0..turns {
        right = right && is_done(rt.alloc(), message, size as usize)?;
    }
    let nanos = start.elapsed(rt)?.as_nanos() / turns.max(1) as u128;
    if right { Ok(nanos) } else { Err(Stop::Answer) }
}

/// Whether the last arrival makes the response whole.
fn is_done(alloc: Global, message: &[u8], size: usize) -> Result<bool, Stop> {
    let mut fetch = Fetch::start(alloc);
    for arrival in message.chunks(size.max(1)) {
        if let Progress::Done(_) = fetch.poll(arrival)? {
            return Ok(true);
        }
    }
    Ok(false)
}
