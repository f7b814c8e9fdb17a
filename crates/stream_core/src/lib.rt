//! Stages, and exchanges: what stands in a line between a source of items and the one that takes
//! them, and between the operations of a client and their results. It stands on `text_types`.
//!
//! A stage is handed signals and gives signals on, and what goes up the line passes it as a talk.
//! Its contract for the layer above is that of [`play`]: whatever calls a stage gets, what it gives
//! is Start, then its list function of the items that flow, then at most one End. The items that
//! flow are those pushed behind the first Start, before the first End behind it and before the
//! first Close. A [`Chain`] of two is a stage again.
//!
//! An exchange is handed operations that go down and results that go up. Its contract is that of
//! [`exchange_all`]: no result goes up for an id behind its teardown until the id is sent again, and
//! each mutation goes down once. A [`Line`] of two is an exchange again, and [`Pending`] remembers
//! what waits. What they make of commands on the way goes to a queue, which [`drain_with`] runs,
//! first in, first out.
#![tactic(auto)]

mod calls;
mod chain;
mod draining;
mod exchange;
mod exchange_calls;
mod filter;
mod flow;
mod line;
mod map;
mod merge_map;
mod operation;
mod pending;
mod phase;
mod share;
mod signal;
mod stage;
mod take_until;
mod tap;
mod weighed;

pub use calls::{Call, play};
pub use chain::Chain;
pub use draining::{drain, drain_with};
pub use exchange::{Exchange, Unbroken};
pub use exchange_calls::{ExchangeCall, exchange_all};
pub use filter::Filter;
pub use flow::Flow;
pub use line::Line;
pub use map::Map;
pub use merge_map::MergeMap;
pub use operation::{Kind, Operation, OperationResult};
pub use pending::Pending;
pub use phase::Phase;
pub use share::Share;
pub use signal::{Signal, Talk};
pub use stage::Stage;
pub use take_until::TakeUntil;
pub use tap::Tap;
pub use weighed::Weighed;
