ghost use Rattle.std.specs.Prelude.{◌≡◌, [], IfOk};
ghost use Rattle.std.specs.List.{fold, filter_map};
ghost use Rattle.std.specs.Option.{option_to_list};
ghost use Rattle.schema_model.specs.Tables.{put};
ghost use Rattle.execution_model.specs.Defaults as spec;

use crate::constants::default_value;
use gql_value::Value;
use offered_values::Inputs;
use schema_model::{InputValue, Schema, SchemaType, Table};
use std::alloc::Global;
use text_types::{Memory, Text};

/// The values of all defaults of a schema, where further defaults in them have these values.
pub(crate) fn next_values(
    alloc: Global,
    schema: &Schema,
    defaults: &Table<Table<Value>>,
) -> Result<Table<Table<Value>>, Memory>
    ensures { IfOk result (λ values. values ≡ spec.values_by defaults.now schema.now) }
{
    let inputs = Inputs { schema, defaults };
    types_values(alloc, &inputs, &schema.types)
}

fn types_values(
    alloc: Global,
    inputs: &Inputs<'_>,
    types: &Table<SchemaType>,
) -> Result<Table<Table<Value>>, Memory>
    ensures { IfOk result (λ values. values ≡ filter_map (spec.type_values inputs.now.defaults.now inputs.now.schema.now) types.now) }
{
    put_types(alloc, inputs, types.as_slice())
}

fn put_types(
    alloc: Global,
    inputs: &Inputs<'_>,
    types: &[(Text, SchemaType)],
) -> Result<Table<Table<Value>>, Memory>
    ensures { IfOk result (λ values. values ≡ fold put [] (filter_map (spec.type_values inputs.now.defaults.now inputs.now.schema.now) types.now)) }
{
    let mut values = Table::new(alloc);
    'types: for named in types {
        values = with_type(alloc, inputs, values, named)?;
    }
    Ok(values)
}

fn with_type(
    alloc: Global,
    inputs: &Inputs<'_>,
    values: Table<Table<Value>>,
    named: &(Text, SchemaType),
) -> Result<Table<Table<Value>>, Memory>
    ensures { IfOk result (λ next. next ≡ fold put values (option_to_list (spec.type_values inputs.now.defaults.now inputs.now.schema.now named.now))) }
{
    match named.1.form.input_fields() {
        Some(fields) => {
            let more = fields_values(alloc, inputs, fields)?;
            values.put(named.0.copy()?, more)
        }
        None => Ok(values),
    }
}

fn fields_values(
    alloc: Global,
    inputs: &Inputs<'_>,
    fields: &Table<InputValue>,
) -> Result<Table<Value>, Memory>
    ensures { IfOk result (λ values. values ≡ spec.fields_values inputs.now.defaults.now inputs.now.schema.now fields.now) }
{
    put_fields(alloc, inputs, fields.as_slice())
}

fn put_fields(
    alloc: Global,
    inputs: &Inputs<'_>,
    fields: &[(Text, InputValue)],
) -> Result<Table<Value>, Memory>
    ensures { IfOk result (λ values. values ≡ fold put [] (spec.fields_values inputs.now.defaults.now inputs.now.schema.now fields.now)) }
{
    let mut values = Table::new(alloc);
    'fields: for field in fields {
        values = with_field(alloc, inputs, values, field)?;
    }
    Ok(values)
}

fn with_field(
    alloc: Global,
    inputs: &Inputs<'_>,
    values: Table<Value>,
    field: &(Text, InputValue),
) -> Result<Table<Value>, Memory>
    ensures { IfOk result (λ next. next ≡ fold put values (option_to_list (spec.field_value inputs.now.defaults.now inputs.now.schema.now field.now))) }
{
    match default_value(alloc, inputs, &field.1)? {
        Some(value) => values.put(field.0.copy()?, value),
        None => Ok(values),
    }
}
