//! The schema of the service.

ghost use Rattle.std.specs.Prelude.{◌≡◌, ℕ, IfOk, IsErrOf, Ok, Err};
ghost use Rattle.default_laws.specs.Settling.{IsSettling};
ghost use Rattle.execution_model.specs.Defaults.{AreDefaults};
ghost use Rattle.gql_schema.specs.Texts.{schema_in};

use crate::files::FileStop;
use default_laws::{read_schemas_settle, rounds_settle};
use gql_coercion::default_values;
use gql_schema::{SchemaError, read_schema};
use gql_value::Value;
use judged_dispatch::Service;
use schema_model::{Schema, Table};
use std::alloc::Global;
use text_types::Memory;

/// The service that a text gives: its schema, and the values of the schema's defaults.
pub(crate) fn service_of(alloc: Global, text: &[u8]) -> Result<Service, FileStop>
    ensures schema { IfOk result (λ service. schema_in text.now ≡ Ok service.schema) }
    ensures defaults { IfOk result (λ service. AreDefaults service.schema service.defaults) }
    ensures refused { (code line : ℕ) → IsErrOf result (FileStop.BadSchema code line) →
        schema_in text.now ≡ Err (record { code = code; line = line }) }
    ensures missing { IsErrOf result FileStop.NoSchema → ⊥ }
    ensures rules { IsErrOf result FileStop.NoRules → ⊥ }
    ensures failed { IsErrOf result FileStop.Shelf → ⊥ }
{
    match read_schema(alloc, text) {
        Ok(schema) => {
            read_schemas_settle();
            with_defaults(alloc, schema).map_err(|_| FileStop::Memory)
        }
        Err(SchemaError::Refused { code, line }) => Err(FileStop::BadSchema { code, line }),
        Err(SchemaError::Memory) => Err(FileStop::Memory),
    }
}

/// The service of a schema whose defaults have values.
fn with_defaults(alloc: Global, schema: Schema) -> Result<Service, Memory>
    requires { IsSettling schema }
    ensures schema { IfOk result (λ service. service.schema ≡ schema) }
    ensures defaults { IfOk result (λ service. AreDefaults service.schema service.defaults) }
{
    let defaults = settled_values(alloc, &schema)?;
    Ok(Service { schema, defaults })
}

/// The values of the defaults of a schema, which are there.
fn settled_values(alloc: Global, schema: &Schema) -> Result<Table<Table<Value>>, Memory>
    requires { IsSettling schema.now }
    ensures { IfOk result (AreDefaults schema.now) }
{
    rounds_settle();
    match default_values(alloc, schema)? {
        Some(values) => Ok(values),
        None => unreachable!(),
    }
}
