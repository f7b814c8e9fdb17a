//! A checked operation: one operation of a document that `check` accepts, with what the layers above look
//! up in it. It stands on the trees of `gql_model`, the numbers of `gql_numbering`, the index of
//! `fragment_rules`, and the definitions of `check_model` and `execution_model`.
//!
//! [`chosen_place`] finds the operation that a name asks for, and [`Checked`] keeps it with its document. The
//! layers above take `IsAcceptedAs` of `specs/` as their condition: validation refuses neither the document nor
//! the choice of its operation, the numbering and the index are the document's, and the place is the
//! operation's. No look-up takes memory.
#![tactic(auto)]

mod checked;
mod choice;

pub use checked::Checked;
pub use choice::chosen_place;
