ghost use Rattle.std.specs.Prelude.{◌≡◌, IfOk, None};
ghost use Rattle.std.specs.Option.{IfSome};
ghost use Rattle.execution_model.specs.Defaults.{AreDefaults};
ghost use Rattle.gql_coercion.specs.Settled.{rounds, field_count, form_fields};

use crate::rounds::next_values;
use crate::same::same_defaults;
use gql_value::Value;
use schema_model::{Schema, SchemaType, Table, TypeForm};
use std::alloc::Global;
use text_types::{Memory, Text};

/// The values of the defaults of all input fields, by type and by field: each with the defaults filled in
/// that its literal leaves out. Nothing where they don't settle in as many rounds as there are input
/// fields, of which each fills in what the one before it gave.
pub fn default_values(alloc: Global, schema: &Schema) -> Result<Option<Table<Table<Value>>>, Memory>
    ensures settled { IfOk result (λ found. IfSome found (AreDefaults schema.now)) }
    ensures unsettled { IfOk result (λ found. found ≡ None → AreDefaults schema.now (rounds (field_count schema.now.types) schema.now) → ⊥) }
{
    let count = field_count(schema.types.as_slice())?;
    let mut values = Table::new(alloc);
    'rounds: for _round in 0..count {
        let next = next_values(alloc, schema, &values)?;
        if same_defaults(&values, &next) {
            return Ok(Some(values));
        }
        values = next;
    }
    if_settled(alloc, schema, values)
}

fn if_settled(
    alloc: Global,
    schema: &Schema,
    values: Table<Table<Value>>,
) -> Result<Option<Table<Table<Value>>>, Memory>
    ensures settled { IfOk result (λ found. IfSome found (AreDefaults schema.now)) }
    ensures unsettled { IfOk result (λ found. found ≡ None → AreDefaults schema.now values → ⊥) }
{
    let next = next_values(alloc, schema, &values)?;
    if same_defaults(&values, &next) {
        Ok(Some(values))
    } else {
        Ok(None)
    }
}

fn field_count(types: &[(Text, SchemaType)]) -> Result<usize, Memory>
    ensures { IfOk result (λ count. count ≡ field_count types.now) }
{
    let mut count: usize = 0;
    'types: for named in types {
        count = count.checked_add(form_fields(&named.1.form)).ok_or(Memory)?;
    }
    Ok(count)
}

fn form_fields(form: &TypeForm) -> usize
    ensures { result ≡ form_fields form.now }
{
    match form {
        TypeForm::Input(fields) => fields.len(),
        _ => 0,
    }
}
