//! The program: it makes the real input, output and files, and the top call does the rest.
//!
//! It stands on `gateway`, whose `gate_main` carries the promise. The adapters here are the trusted
//! edge: they count and tell faults as the traits of the outside say, and tell nothing of content.
#![tactic(auto)]

mod input;
mod named_files;
mod output;
#[cfg(test)]
mod tests;

use crate::input::Input;
use crate::named_files::NamedFiles;
use crate::output::Output;
use std::process::ExitCode;
use std::rt::Env;
use std::{env, io};
use text_types::{Items, Memory, Text};

const USAGE: &str =
    "usage: gqlgate run --schema FILE --rules FILE --queue FILE [--max-input BYTES]";

/// The status of words that aren't accepted.
const BAD_WORDS: u8 = 2;

/// The status of a run that is out of memory.
const OUT_OF_MEMORY: u8 = 7;

fn main(rt: HostRuntime) -> ExitCode {
    let status = match command_line(&rt) {
        Ok(words) => run(&rt, words.as_slice()),
        Err(status) => status,
    };
    if status == BAD_WORDS {
        let _ = eprintln!(rt; "{USAGE}");
    }
    ExitCode::from(status)
}

/// The words behind the program's name, or the status where they can't be had.
fn command_line(rt: &(impl Env + AllocGlobal)) -> Result<Items<Text>, u8> {
    let Ok(arguments) = env::args(rt) else {
        return Err(BAD_WORDS);
    };
    let mut words = Items::new(rt.alloc());
    for word in arguments.skip(1) {
        if words.push(Text::from_string(word)).is_err() {
            return Err(OUT_OF_MEMORY);
        }
    }
    Ok(words)
}

fn run(rt: &HostRuntime, words: &[Text]) -> u8 {
    let mut input = Input::new(rt.reader());
    let mut output = Output::new(io::writer(rt));
    let mut files = NamedFiles::new(rt);
    gateway::gate_main(rt.alloc(), words, &mut input, &mut output, &mut files)
}
