//! The machine that the gateway is: its cells and keys, its state, and what one line of input does.
//!
//! It stands on the reading of frames and the judgement of dispatches, and holds the definitions that the
//! gate's contracts cite (`specs/`, begun at `Machine.antt`) with the types of their parts. For now an
//! operation is one-shot: a query whose every field has a cell is answered at once; any other one
//! is sent, and answered when its response comes.
#![tactic(auto)]

mod cell;
mod key;
mod operation;
mod same;

pub use cell::{Cell, Write};
pub use key::{EntityKey, Owner, Place};
pub use operation::OpenOperation;
