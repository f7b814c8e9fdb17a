//! The top call: it does all that the program does.
//!
//! It stands on the gate, which says what a line of input does, on the reading of schemas and the values
//! of their defaults, and on the traits of the outside. Its one contract for the layer above is [`gate_main`]: it says for each exit
//! status when it comes, which bytes were taken by then and which were written, over any source, sink
//! and shelf.
#![tactic(auto)]

mod files;
mod lines;
mod run;
mod schema;
mod split;
mod stop;
mod stopped;
mod top;
mod words;

pub use top::gate_main;
