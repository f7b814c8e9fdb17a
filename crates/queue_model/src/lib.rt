//! The queue of mutations that wait for the network, as definitions: the list of rows with its end,
//! its limit and its greatest number, and the file that the queue is kept in. It stands on
//! `text_types` for the texts of a row.
//!
//! Its one contract for the layers above are the definitions in `specs`: `queued` and `completed` say
//! what a put and a done make of a queue, `RowsOfFile` and `QueueOfFile` what a file stands for.
//! A file stands for one list of rows at most ([`one_list_of_rows`]).
#![tactic(auto)]

mod laws;
mod row;

pub use laws::one_list_of_rows;
pub use row::Row;
