ghost use Rattle.std.specs.Prelude.{◌≡◌};

use gql_coercion::Inputs;
use gql_value::Value;
use schema_model::{Schema, Table};

/// What documents are judged under: the schema of a service, and the values of the defaults of its input
/// fields, by type and by field.
#[derive(Drop)]
pub struct Service {
    pub schema: Schema,
    pub defaults: Table<Table<Value>>,
}

impl Service {
    /// What values are coerced under.
    pub fn inputs(&self) -> Inputs<'_>
        ensures schema { result.schema.now ≡ self.now.schema }
        ensures defaults { result.defaults.now ≡ self.now.defaults }
    {
        Inputs {
            schema: &self.schema,
            defaults: &self.defaults,
        }
    }
}
