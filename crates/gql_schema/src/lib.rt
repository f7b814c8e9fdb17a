//! Reading a GraphQL schema: which schema a text gives, and why some give none. It stands on the schemas
//! of `schema_model`, on the definitions that `schema_text` reads, and on the grounds of `schema_rules`,
//! `schema_defaults` and `schema_circles`.
//!
//! [`read_schema`] gives the schema of a text, or the least code that is broken and the least line of it.
//! Each code S1 to S9 has one definition, which may assume that the codes before it aren't broken.
//! [`judged`] is the same of definitions, from S3 on.
#![tactic(auto)]

mod assembled;
mod build;
mod definitions;
mod draft;
mod error;
mod ignored;
mod listed;
mod reading;
mod repeated;
mod reserved;
mod roots;
mod verdict;

pub use error::{Refusal, SchemaError};
pub use reading::read_schema;
pub use schema_model::{
    InputValue, Interfaced, RootName, RootNames, Schema, SchemaDirective, SchemaField, SchemaType,
    Table, TypeForm, TypeId, TypeKind,
};
pub use verdict::judged;
