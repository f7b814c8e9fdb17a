//! How long it takes to parse, write and read the answer to a query of many todos: the form by its name,
//! the number of todos and the number of turns. Each prints its time for one turn. Without words the program
//! prints the forms' names.
//!
//! It stands on the crates that it times, and on the parser, the schema and validation for the query. Nothing
//! stands on it.
#![tactic(auto)]

mod page;
mod parses;
mod query;
mod reads;
mod stop;
mod types;
mod writes;

use crate::stop::Stop;
use std::env;
use std::rt::Env;

/// The forms, each with what is counted.
const NAMES: &str = "json TODOS TURNS
answer TODOS TURNS
write TODOS TURNS
read TODOS TURNS";

/// One bench.
struct Bench {
    form: String,
    todos: u64,
    turns: u64,
}

fn main(rt: HostRuntime) -> Result<(), Stop> {
    match named(&rt)? {
        Some(Bench { form, todos, turns }) => run(&rt, &form, todos, turns.max(1)),
        None => {
            println!(rt; "{NAMES}")?;
            Ok(())
        }
    }
}

/// The bench that the words name, if they name one.
fn named(rt: &HostRuntime) -> Result<Option<Bench>, Stop> {
    let mut words = env::args(rt)?.skip(1);
    let (Some(form), Some(todos), Some(turns)) = (words.next(), words.next(), words.next()) else {
        return Ok(None);
    };
    let (Ok(todos), Ok(turns)) = (todos.parse::<u64>(), turns.parse::<u64>()) else {
        return Ok(None);
    };
    Ok(Some(Bench { form, todos, turns }))
}

fn run(rt: &HostRuntime, form: &str, todos: u64, turns: u64) -> Result<(), Stop> {
    let body = page::body(rt.alloc(), todos)?;
    let nanos = match form {
        "json" => parses::of_json(rt, body.as_bytes(), turns)?,
        "answer" => parses::of_answer(rt, body.as_bytes(), turns)?,
        "write" => writes::timed(rt, body.as_bytes(), turns)?,
        "read" => reads::timed(rt, body.as_bytes(), turns)?,
        _ => return Err(Stop::Name),
    };
    println!(rt; "{form} {todos}: {nanos} ns a turn, of {turns}")?;
    Ok(())
}
