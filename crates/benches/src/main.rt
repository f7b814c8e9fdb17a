//! How long calls of the crates take: one bench by its name, its size and its number of turns. Each
//! prints its time for one turn. Without words the program prints the benches' names.
//!
//! It stands on the crates that it times, and nothing stands on it.
#![tactic(auto)]

mod arrivals;
mod contents;
mod drops;
mod keys;
mod lookups;
mod queries;
mod squashes;
mod stop;

use crate::stop::Stop;
use std::env;
use std::rt::Env;

/// The benches, each with what its size counts.
const NAMES: &str = "base CELLS TURNS
layers LAYERS TURNS
squash CELLS TURNS
squashed WRITES TURNS
dropped CELLS TURNS
dropped-name CELLS TURNS
woken QUERIES TURNS
body BYTES TURNS
head BYTES TURNS";

/// One bench.
struct Bench {
    name: String,
    size: u64,
    turns: u64,
}

fn main(rt: HostRuntime) -> Result<(), Stop> {
    match named(&rt)? {
        Some(Bench { name, size, turns }) => run(&rt, &name, size.max(1), turns.max(1)),
        None => {
            println!(rt; "{NAMES}")?;
            Ok(())
        }
    }
}

/// The bench that the words name, if they name one.
fn named(rt: &HostRuntime) -> Result<Option<Bench>, Stop> {
    let mut words = env::args(rt)?.skip(1);
    let (Some(name), Some(size), Some(turns)) = (words.next(), words.next(), words.next()) else {
        return Ok(None);
    };
    let (Ok(size), Ok(turns)) = (size.parse::<u64>(), turns.parse::<u64>()) else {
        return Ok(None);
    };
    Ok(Some(Bench { name, size, turns }))
}

fn run(rt: &HostRuntime, name: &str, size: u64, turns: u64) -> Result<(), Stop> {
    let nanos = match name {
        "base" => lookups::over_base(rt, size, turns)?,
        "layers" => lookups::under_layers(rt, size, turns)?,
        "squash" => squashes::into_base(rt, size, turns)?,
        "squashed" => squashes::of_content(rt, size, turns)?,
        "dropped" => drops::of_objects(rt, size, turns)?,
        "dropped-name" => drops::of_names(rt, size, turns)?,
        "woken" => queries::woken(rt, size, turns)?,
        "body" => arrivals::of_body(rt, size, turns)?,
        "head" => arrivals::of_head(rt, size, turns)?,
        _ => return Err(Stop::Name),
    };
    println!(rt; "{name} {size}: {nanos} ns a turn, of {turns}")?;
    Ok(())
}
