//! Declared rules: updates of the cache and optimistic results that are written in a file and need no
//! code. It stands on the kit's `toml` for what a text says, on schemas, and on the definitions of
//! `rules_model`, whose types it hands on.
//!
//! The layers above have one contract: [`read_rules`] gives the rules of a text under a schema, or the first
//! table that is refused, by name, with the least code of U1 to U8 that it breaks. There is never a part
//! of the rules. What rules name is found by [`field_behind`], [`field_named`] and [`listed_key_field`].
#![tactic(auto)]

mod actions;
mod entries;
mod error;
mod faults;
mod forms;
mod known_keys;
mod lists;
mod marks;
mod reading;
mod root_fields;
mod settings;
mod tables;
mod terms;

pub use error::RuleError;
pub use marks::field_behind;
pub use reading::read_rules;
pub use root_fields::field_named;
pub use rules_model::{Action, LinkedEntity, Optimistic, Rules, Target, Term, Terms, Updater};
pub use settings::listed_key_field;
