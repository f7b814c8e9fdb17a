ghost use Rattle.std.specs.Prelude.{◌≡◌};

use crate::stop::Stop;
use gql_coercion::{Inputs, default_values};
use gql_schema::read_schema;
use gql_value::Value;
use schema_model::{Schema, Table};
use std::alloc::Global;

/// The schema of the todos.
const TODOS: &str =
    "type Query{todo(id:ID!):Todo todos:[Todo!]!} type Todo{id:ID! text:String! done:Boolean! author:User} type User{id:ID! name:String! nick:String}";

/// A schema with the values of its defaults.
#[derive(Drop)]
pub(crate) struct Types {
    pub schema: Schema,
    pub defaults: Table<Table<Value>>,
}

impl Types {
    pub(crate) fn new(alloc: Global) -> Result<Types, Stop> {
        let Ok(schema) = read_schema(alloc, TODOS.as_bytes()) else {
            return Err(Stop::Refused);
        };
        let defaults = default_values(alloc, &schema)?.ok_or(Stop::Refused)?;
        Ok(Types { schema, defaults })
    }

    pub(crate) fn inputs(&self) -> Inputs<'_>
        ensures { result.schema.now ≡ self.now.schema }
    {
        Inputs {
            schema: &self.schema,
            defaults: &self.defaults,
        }
    }
}
