//! How long it takes to parse a document, to check it too, and to number it as a request as well: the step
//! that is the last to be timed by a name, the document, and the number of turns. Each prints its time for
//! one turn. Without words the program prints the steps' names.
//!
//! It stands on the crates that it times, from the parser to `op_keys`, and nothing stands on it.
#![tactic(auto)]

mod documents;
mod steps;
mod stop;
mod timing;

use crate::documents::Request;
use crate::steps::Step;
use crate::stop::Stop;
use std::env;
use std::rt::Env;

/// The steps, and what stands behind them.
const NAMES: &str = "parse DOCUMENT TURNS
check DOCUMENT TURNS
identity DOCUMENT TURNS
where DOCUMENT is page, or how often one field stands in it";

/// One bench.
struct Bench {
    step: String,
    document: String,
    turns: u64,
}

fn main(rt: HostRuntime) -> Result<(), Stop> {
    match named(&rt)? {
        Some(
            Bench {
                step,
                document,
                turns,
            },
        ) => run(&rt, &step, &document, turns.max(1)),
        None => {
            println!(rt; "{NAMES}")?;
            Ok(())
        }
    }
}

/// The bench that the words name, if they name one.
fn named(rt: &HostRuntime) -> Result<Option<Bench>, Stop> {
    let mut words = env::args(rt)?.skip(1);
    let (Some(step), Some(document), Some(turns)) = (words.next(), words.next(), words.next())
    else {
        return Ok(None);
    };
    let Ok(turns) = turns.parse::<u64>() else {
        return Ok(None);
    };
    Ok(Some(Bench {
        step,
        document,
        turns,
    }))
}

fn run(rt: &HostRuntime, step: &str, document: &str, turns: u64) -> Result<(), Stop> {
    let last = Step::named(step)?;
    let request = Request::named(rt.alloc(), document)?;
    let nanos = timing::timed(rt, last, &request, turns)?;
    println!(rt; "{step} {document}: {nanos} ns a turn, of {turns}")?;
    Ok(())
}
