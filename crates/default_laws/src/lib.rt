//! Laws of the values of a schema's defaults, which the layers above cite: they settle, and there is one
//! list of them. The functions do nothing: each has a law as its clause, and `specs/` states the laws. It
//! stands on the rounds of `gql_coercion`, on the graph of defaults of `schema_circles`, on the walks of
//! `digraph`, and on what `gql_schema` says of the schema of a text.
//!
//! The layer above has one contract: every schema that a text gives is one whose defaults settle
//! ([`read_schemas_settle`]), and such a schema's rounds give the values of its defaults within as many
//! rounds as it has input fields ([`rounds_settle`]).
//!
//! A default depends on the defaults that it has filled in alone. In a graph without circles a node's rank,
//! which is how many nodes it reaches, falls along each step and is below the number of nodes; behind as many
//! rounds as its rank and one more a default keeps its value.
#![tactic(auto)]

mod laws;

pub use laws::{defaults_are_one, ranks_fall, read_schemas_settle, rounds_settle};
