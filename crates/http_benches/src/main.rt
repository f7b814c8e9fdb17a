//! How long reading a response takes that comes in arrivals: its form by a name, the bytes of its body
//! or of its head, the bytes of each arrival, and the number of turns. Each prints its time for one
//! turn. Without words the program prints the forms' names.
//!
//! It stands on `fetch_link`, which it times, and nothing stands on it.
#![tactic(auto)]

mod arrivals;
mod responses;
mod stop;

use crate::stop::Stop;
use std::env;
use std::rt::Env;

/// The forms, each with what is counted.
const NAMES: &str = "stated BODY ARRIVAL TURNS
chunked BODY ARRIVAL TURNS
close BODY ARRIVAL TURNS
head HEAD ARRIVAL TURNS";

/// One bench.
struct Bench {
    form: String,
    size: usize,
    arrival: usize,
    turns: u64,
}

fn main(rt: HostRuntime) -> Result<(), Stop> {
    match named(&rt)? {
        Some(
            Bench {
                form,
                size,
                arrival,
                turns,
            },
        ) => run(&rt, &form, size, arrival.max(1), turns.max(1)),
        None => {
            println!(rt; "{NAMES}")?;
            Ok(())
        }
    }
}

/// The bench that the words name, if they name one.
fn named(rt: &HostRuntime) -> Result<Option<Bench>, Stop> {
    let mut words = env::args(rt)?.skip(1);
    let (Some(form), Some(size), Some(arrival), Some(turns)) = (
        words.next(),
        words.next(),
        words.next(),
        words.next(),
    ) else {
        return Ok(None);
    };
    let (Ok(size), Ok(arrival), Ok(turns)) = (
        size.parse::<usize>(),
        arrival.parse::<usize>(),
        turns.parse::<u64>(),
    ) else {
        return Ok(None);
    };
    Ok(Some(Bench {
        form,
        size,
        arrival,
        turns,
    }))
}

fn run(rt: &HostRuntime, form: &str, size: usize, arrival: usize, turns: u64) -> Result<(), Stop> {
    let message = match form {
        "stated" => responses::stated(rt.alloc(), size)?,
        "chunked" => responses::chunked(rt.alloc(), size)?,
        "close" => responses::until_close(rt.alloc(), size)?,
        "head" => responses::with_head(rt.alloc(), size)?,
        _ => return Err(Stop::Name),
    };
    let nanos = arrivals::timed(rt, message.as_bytes(), arrival, turns)?;
    println!(rt; "{form} {size} in arrivals of {arrival}: {nanos} ns a turn, of {turns}")?;
    Ok(())
}
