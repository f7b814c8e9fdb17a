//! The queue of mutations in one file that survives a crash at any moment, after write-ahead logs that
//! close a record with a commit byte. It stands on `offline_queue` for what a keeper owes, on
//! `queue_model` for the queue file, on `gate_outside` for the disk, on `text_types`, and on
//! `fault_causes` for the words on faults and crashes.
//!
//! Its contract for the layer above is that of [`Journal`]: it is a keeper, and what a crash might leave
//! of it are the files that its disk might leave. Behind the last record a closed commit byte stands on
//! the disk before anything is written behind it, and it is opened by a write of its own after a sync,
//! so each file that a crash leaves opens to the rows before a call or to those after it.
#![tactic(auto)]

mod bytes;
mod chain;
mod error;
mod found;
mod journal;
mod opening;
mod record;
mod records;
mod steps;
mod texts;

pub use error::OpenError;
pub use journal::{Journal, Unopened};
