//! What declared rules are: which rules a text in TOML gives under a schema, or the first table of it that
//! is refused. It stands on the kit's `toml` for what a text says, and on the schemas of `schema_model`.
//!
//! It has types and no functions. Its contract for the layers above is its `specs/`: `Forms.antt` says
//! which tables have the form of a rule, `Faults.antt` when a rule breaks one of the codes U3 to U8, and
//! `Judgement.antt` what a whole text comes to. A further action of an updater is one more variant of
//! [`Action`] and [`ActionKind`], with a line in each definition by cases on them.
#![tactic(auto)]

mod optimistic;
mod refusal;
mod rules;
mod term;
mod updater;

pub use optimistic::Optimistic;
pub use refusal::Refusal;
pub use rules::Rules;
pub use term::{Term, Terms};
pub use updater::{Action, ActionKind, LinkedEntity, Target, Updater};
