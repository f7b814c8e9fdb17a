ghost use Rattle.std.specs.Prelude.{◌≡◌, IfOk, map};
ghost use Rattle.std.specs.Option.{option_copied};
ghost use Rattle.gql_model.specs.declared.type_ref.TypeRef.{out-TypeRef};
ghost use Rattle.schema_model.specs.Tables.{entry};
ghost use Rattle.schema_rules.specs.TypeRefs.{named_type};
ghost use Rattle.execution_model.specs.Inputs as inputs_spec;
ghost use Rattle.execution_model.specs.Literals as spec;

use execution_model::Given;
use gql_model::{Literal, LiteralValue, ObjectField, TypeRef};
use gql_value::{Members, Value};
use offered_values::{
    Inputs, ObjectBuilder, as_object, as_object_in, boolean_at, default_in, integer_at, item_value,
    name_at, null_at, or_default, string_at,
};
use schema_defaults::takes_any;
use schema_model::{InputValue, Table};
use schema_rules::named_type;
use std::alloc::Global;
use text_types::{Items, Memory, Text};

/// What a literal is at a place, where variables have these values.
#[cycle(literals)]
pub(crate) fn literal_given(
    alloc: Global,
    inputs: &Inputs<'_>,
    variables: &Table<Value>,
    literal: &Literal,
    wanted: Option<&TypeRef>,
) -> Result<Given, Memory>
    ensures { IfOk result (λ given. given ≡ spec.literal_meaning inputs.now.defaults.now inputs.now.schema.now variables.now literal.now (option_copied wanted.entry)) }
{
    value_given(alloc, inputs, variables, &literal.value, wanted)
}

#[cycle(literals)]
fn value_given(
    alloc: Global,
    inputs: &Inputs<'_>,
    variables: &Table<Value>,
    value: &LiteralValue,
    wanted: Option<&TypeRef>,
) -> Result<Given, Memory>
    ensures { IfOk result (λ given. given ≡ spec.value_meaning inputs.now.defaults.now inputs.now.schema.now variables.now value.now (option_copied wanted.entry)) }
{
    match value {
        LiteralValue::Variable(name) => variable_given(alloc, variables, name),
        LiteralValue::Integer { number, .. } => {
            integer_at(alloc, inputs.schema, *number, wanted)
        }
        LiteralValue::String(text) => string_at(alloc, inputs.schema, text, wanted),
        LiteralValue::Boolean(truth) => boolean_at(alloc, inputs.schema, *truth, wanted),
        LiteralValue::Null => Ok(null_at(wanted)),
        LiteralValue::Enum(word) => name_at(alloc, inputs.schema, word, wanted),
        LiteralValue::List(items) => {
            list_given(alloc, inputs, variables, items.as_slice(), wanted)
        }
        LiteralValue::Object(fields) => {
            object_given(alloc, inputs, variables, fields.as_slice(), wanted)
        }
    }
}

/// A variable as its value, which isn't coerced again.
fn variable_given(alloc: Global, variables: &Table<Value>, name: &Text) -> Result<Given, Memory>
    ensures { IfOk result (λ given. given ≡ spec.variable_given variables.now name.now) }
{
    match variables.get(name) {
        Some(value) => Ok(Given::Is(value.copy(alloc)?)),
        None => Ok(Given::Absent),
    }
}

#[cycle(literals)]
fn list_given(
    alloc: Global,
    inputs: &Inputs<'_>,
    variables: &Table<Value>,
    items: &[Literal],
    wanted: Option<&TypeRef>,
) -> Result<Given, Memory>
    ensures { IfOk result (λ given. given ≡ spec.list_at inputs.now.schema.now (map (spec.literal_meaning inputs.now.defaults.now inputs.now.schema.now variables.now) items.now) (option_copied wanted.entry)) }
{
    match wanted {
        Some(wanted) => list_in(alloc, inputs, variables, items, wanted),
        None => items_given(alloc, inputs, variables, items, None),
    }
}

#[cycle(literals)]
fn list_in(
    alloc: Global,
    inputs: &Inputs<'_>,
    variables: &Table<Value>,
    items: &[Literal],
    wanted: &TypeRef,
) -> Result<Given, Memory>
    ensures { IfOk result (λ given. given ≡ spec.list_in inputs.now.schema.now (map (spec.literal_meaning inputs.now.defaults.now inputs.now.schema.now variables.now) items.now) (out-TypeRef wanted.now)) }
{
    match wanted {
        TypeRef::List { of, .. } => items_given(alloc, inputs, variables, items, Some(of.get())),
        TypeRef::Named { named, .. } => {
            if takes_any(inputs.schema, named) {
                items_given(alloc, inputs, variables, items, None)
            } else {
                Ok(Given::Refused)
            }
        }
    }
}

#[cycle(literals)]
fn items_given(
    alloc: Global,
    inputs: &Inputs<'_>,
    variables: &Table<Value>,
    items: &[Literal],
    wanted: Option<&TypeRef>,
) -> Result<Given, Memory>
    ensures { IfOk result (λ given. given ≡ inputs_spec.as_list (inputs_spec.items_at (option_copied wanted.entry) (map (spec.literal_meaning inputs.now.defaults.now inputs.now.schema.now variables.now) items.now))) }
{
    let mut values = Items::new(alloc);
    'items: for item in items {
        let given = literal_given(alloc, inputs, variables, item, wanted)?;
        let Some(value) = item_value(given) else {
            return Ok(Given::Refused);
        };
        values.push(value)?;
    }
    Ok(Given::Is(Value::List(values)))
}

#[cycle(literals)]
fn object_given(
    alloc: Global,
    inputs: &Inputs<'_>,
    variables: &Table<Value>,
    fields: &[ObjectField],
    wanted: Option<&TypeRef>,
) -> Result<Given, Memory>
    ensures { IfOk result (λ given. given ≡ spec.object_at inputs.now.defaults.now inputs.now.schema.now (map (spec.object_field_meaning inputs.now.defaults.now inputs.now.schema.now variables.now) fields.now) (option_copied wanted.entry)) }
{
    match wanted {
        Some(wanted) => object_in(alloc, inputs, variables, fields, wanted),
        None => Ok(as_object(free_members(alloc, inputs, variables, fields)?)),
    }
}

#[cycle(literals)]
fn object_in(
    alloc: Global,
    inputs: &Inputs<'_>,
    variables: &Table<Value>,
    fields: &[ObjectField],
    wanted: &TypeRef,
) -> Result<Given, Memory>
    ensures { IfOk result (λ given. given ≡ spec.object_in inputs.now.defaults.now inputs.now.schema.now (map (spec.object_field_meaning inputs.now.defaults.now inputs.now.schema.now variables.now) fields.now) wanted.now) }
{
    match inputs.fields(named_type(wanted)) {
        Some(declared) => input_object(alloc, inputs, variables, fields, declared, wanted),
        None => free_object(alloc, inputs, variables, fields, wanted),
    }
}

#[cycle(literals)]
fn input_object(
    alloc: Global,
    inputs: &Inputs<'_>,
    variables: &Table<Value>,
    fields: &[ObjectField],
    declared: &Table<InputValue>,
    wanted: &TypeRef,
) -> Result<Given, Memory>
    ensures { IfOk result (λ given. given ≡ inputs_spec.as_object_in wanted.now (inputs_spec.input_members (entry inputs.now.defaults.now (named_type wanted.now)) (map (spec.object_field_meaning inputs.now.defaults.now inputs.now.schema.now variables.now) fields.now) declared.now)) }
{
    let declared = declared.as_slice();
    let values = inputs.values(wanted);
    let members = input_members(alloc, inputs, variables, fields, declared, values)?;
    as_object_in(alloc, wanted, members)
}

/// An object for a custom scalar, as it stands.
#[cycle(literals)]
fn free_object(
    alloc: Global,
    inputs: &Inputs<'_>,
    variables: &Table<Value>,
    fields: &[ObjectField],
    wanted: &TypeRef,
) -> Result<Given, Memory>
    ensures { IfOk result (λ given. given ≡ inputs_spec.free_object inputs.now.schema.now (map (spec.object_field_meaning inputs.now.defaults.now inputs.now.schema.now variables.now) fields.now) wanted.now) }
{
    if !takes_any(inputs.schema, named_type(wanted)) {
        return Ok(Given::Refused);
    }
    let members = free_members(alloc, inputs, variables, fields)?;
    as_object_in(alloc, wanted, members)
}

#[cycle(literals)]
fn free_members(
    alloc: Global,
    inputs: &Inputs<'_>,
    variables: &Table<Value>,
    fields: &[ObjectField],
) -> Result<Option<Members>, Memory>
    ensures { IfOk result (λ members. members ≡ inputs_spec.members_as_given (map (spec.object_field_meaning inputs.now.defaults.now inputs.now.schema.now variables.now) fields.now)) }
{
    let mut object = ObjectBuilder::new(alloc);
    'fields: for field in fields {
        let given = literal_given(alloc, inputs, variables, &field.value, None)?;
        let Some(next) = object.next(&field.name.text, given)? else {
            return Ok(None);
        };
        object = next;
    }
    Ok(Some(object.into_members()))
}

#[cycle(literals)]
fn input_members(
    alloc: Global,
    inputs: &Inputs<'_>,
    variables: &Table<Value>,
    fields: &[ObjectField],
    declared: &[(Text, InputValue)],
    values: Option<&Table<Value>>,
) -> Result<Option<Members>, Memory>
    ensures { IfOk result (λ members. members ≡ inputs_spec.input_members (option_copied values.entry) (map (spec.object_field_meaning inputs.now.defaults.now inputs.now.schema.now variables.now) fields.now) declared.now) }
{
    let mut object = ObjectBuilder::new(alloc);
    'declared: for field in declared {
        let given = field_given(alloc, inputs, variables, fields, field, values)?;
        let Some(next) = object.next(&field.0, given)? else {
            return Ok(None);
        };
        object = next;
    }
    Ok(Some(object.into_members()))
}

/// What is given of an input field, or its default.
#[cycle(literals)]
fn field_given(
    alloc: Global,
    inputs: &Inputs<'_>,
    variables: &Table<Value>,
    fields: &[ObjectField],
    declared: &(Text, InputValue),
    values: Option<&Table<Value>>,
) -> Result<Given, Memory>
    ensures { IfOk result (λ given. given ≡ (inputs_spec.field_member (option_copied values.entry) (map (spec.object_field_meaning inputs.now.defaults.now inputs.now.schema.now variables.now) fields.now) declared.now).1) }
{
    let given = member_given(alloc, inputs, variables, fields, declared)?;
    or_default(alloc, &declared.1, default_in(values, &declared.0), given)
}

/// What the first field of a name gives.
#[cycle(literals)]
fn member_given(
    alloc: Global,
    inputs: &Inputs<'_>,
    variables: &Table<Value>,
    fields: &[ObjectField],
    declared: &(Text, InputValue),
) -> Result<Given, Memory>
    ensures { IfOk result (λ given. given ≡ inputs_spec.given_of (map (spec.object_field_meaning inputs.now.defaults.now inputs.now.schema.now variables.now) fields.now) declared.now) }
{
    'fields: for field in fields {
        if declared.0.as_str() == field.name.text.as_str() {
            let wanted = &declared.1.input_type.type_ref;
            return literal_given(alloc, inputs, variables, &field.value, Some(wanted));
        }
    }
    Ok(Given::Absent)
}
