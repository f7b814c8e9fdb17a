//! The queue of mutations that wait for the network, after urql's offlineExchange. It stands on
//! `queue_model` for what a queue is, on `stream_core` for what an exchange is, on `text_types`, and on
//! `fault_causes` for the words on faults and crashes.
//!
//! Its contract for the layer above is [`Keeper`]: whatever keeps the rows follows `queued` and
//! `completed` of `queue_model`, says why it refuses a row, and, where it tells what a crash might
//! leave, shows that this is always the rows before a call or after it. [`MemoryKeeper`] keeps them
//! in memory. [`OfflineStage`] is the exchange that puts an unreachable mutation before it tells that
//! it is queued.
#![tactic(auto)]

mod keeper;
mod memory_keeper;
mod offer;
mod search;
mod stage;

pub use keeper::{Keeper, PutError};
pub use memory_keeper::{MemoryKeeper, NextRow};
pub use offer::{Kept, Offer};
pub use queue_model::Row;
pub use stage::OfflineStage;
pub use text_types::Items;

/// Rows in order.
pub type Rows = Items<Row>;
