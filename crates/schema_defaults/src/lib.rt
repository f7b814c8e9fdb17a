//! Whether the parts of a schema's types and its defaults are as they have to be, of the ground S9, and
//! what that needs: which names stand twice in a list, which single values a named type takes, and which
//! literals fit a type. It stands on the schemas of `schema_model` and on `schema_rules`.
#![tactic(auto)]

mod defaults;
mod doubled;
mod empty;
mod fits;
mod scalars;
mod seen;

pub use defaults::unfit_line;
pub use doubled::is_doubled;
pub use empty::empty_line;
pub use fits::literal_fits;
pub use scalars::{enum_takes, takes_any, takes_boolean, takes_integer, takes_string};
pub use seen::Seen;
