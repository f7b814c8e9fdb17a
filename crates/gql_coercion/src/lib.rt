//! The values of an operation's variables and of arguments (GraphQL October 2021, 6.1.2 and 6.4.1, with
//! the Input Coercion of 3.5 to 3.12). It stands on the meaning of `execution_model`, on the schemas of
//! `schema_model`, and on `offered_values` for values that are given and for what literals share with them.
//!
//! The layers above have one contract: [`coerce`] gives the values of declared variables or the first of
//! them that is refused, and [`coerced_arguments`] the values of the arguments of a field or a directive,
//! each exactly as `execution_model` defines it. [`Inputs`] is what values are coerced under: a schema, and
//! the values of its defaults, which [`default_values`] gives once for all.
#![tactic(auto)]

mod arguments;
mod constants;
mod defaults;
mod error;
mod literals;
mod rounds;
mod same;
mod variables;

pub use arguments::coerced_arguments;
pub use defaults::default_values;
pub use error::CoerceError;
pub use offered_values::Inputs;
pub use variables::coerce;
