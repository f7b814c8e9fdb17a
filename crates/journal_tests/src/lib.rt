//! The queue's file, byte by byte: what puts leave in it, what an opening makes of any file, and a queue
//! that is past its limit.
#![tactic(auto)]

#[cfg(test)]
mod files;
#[cfg(test)]
mod limits;
#[cfg(test)]
mod queues;
