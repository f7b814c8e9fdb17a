//! One walk over all that the rules of validation judge: each part of a document, in document order, with
//! what the schema says of where it stands. It stands on the vocabulary of `check_model`.
//!
//! A rule is a [`Visitor`]: contracts see what it keeps, and the walk gives it each [`Site`] once.
#![tactic(auto)]

mod built_in;
mod definitions;
mod scope;
mod search;
mod site;
mod types;
mod walk;

pub use built_in::BuiltIn;
pub use scope::Scope;
pub use search::SiteTest;
pub use site::{Site, Visitor};
pub use types::{composite_named, field_parent, inline_parent, is_typename, root_parent};
