ghost use Rattle.std.specs.Prelude.{◌≡◌, IfOk, map, is_some};
ghost use Rattle.std.specs.Option.{option_copied};
ghost use Rattle.std.specs.List.{list_all};
ghost use Rattle.gql_model.specs.declared.type_ref.TypeRef.{out-TypeRef};
ghost use Rattle.schema_model.specs.Tables.{entry};
ghost use Rattle.schema_rules.specs.TypeRefs.{named_type};
ghost use Rattle.execution_model.specs.Inputs as inputs_spec;
ghost use Rattle.execution_model.specs.Literals.{list_at, list_in};
ghost use Rattle.execution_model.specs.Offers as spec;

use crate::inputs::{Inputs, default_in};
use crate::items::{as_object, as_object_in, item_value, or_default};
use crate::object::ObjectBuilder;
use crate::scalars::{boolean_at, integer_at, null_at, text_at};
use execution_model::Given;
use gql_model::TypeRef;
use gql_value::{Members, Value};
use schema_defaults::takes_any;
use schema_model::{InputValue, Table};
use schema_rules::named_type;
use std::alloc::Global;
use text_types::{Items, Memory, Text};

/// What a value that a client gives is at a place.
#[cycle(offers)]
pub fn offered(
    alloc: Global,
    inputs: &Inputs<'_>,
    value: &Value,
    wanted: Option<&TypeRef>,
) -> Result<Given, Memory>
    ensures { IfOk result (λ given. given ≡ spec.offered inputs.now.defaults.now inputs.now.schema.now value.now (option_copied wanted.entry)) }
{
    match value {
        Value::Null => Ok(null_at(wanted)),
        Value::Bool(truth) => boolean_at(alloc, inputs.schema, *truth, wanted),
        Value::Int(number) => integer_at(alloc, inputs.schema, *number, wanted),
        Value::Text(text) => text_at(alloc, inputs.schema, text, wanted),
        Value::List(items) => list_given(alloc, inputs, items.as_slice(), wanted),
        Value::Obj(members) => object_given(alloc, inputs, members, wanted),
    }
}

#[cycle(offers)]
fn list_given(
    alloc: Global,
    inputs: &Inputs<'_>,
    items: &[Value],
    wanted: Option<&TypeRef>,
) -> Result<Given, Memory>
    ensures { IfOk result (λ given. given ≡ list_at inputs.now.schema.now (map (spec.offered inputs.now.defaults.now inputs.now.schema.now) items.now) (option_copied wanted.entry)) }
{
    match wanted {
        Some(wanted) => list_in(alloc, inputs, items, wanted),
        None => items_given(alloc, inputs, items, None),
    }
}

#[cycle(offers)]
fn list_in(
    alloc: Global,
    inputs: &Inputs<'_>,
    items: &[Value],
    wanted: &TypeRef,
) -> Result<Given, Memory>
    ensures { IfOk result (λ given. given ≡ list_in inputs.now.schema.now (map (spec.offered inputs.now.defaults.now inputs.now.schema.now) items.now) (out-TypeRef wanted.now)) }
{
    match wanted {
        TypeRef::List { of, .. } => items_given(alloc, inputs, items, Some(of.get())),
        TypeRef::Named { named, .. } => {
            if takes_any(inputs.schema, named) {
                items_given(alloc, inputs, items, None)
            } else {
                Ok(Given::Refused)
            }
        }
    }
}

#[cycle(offers)]
fn items_given(
    alloc: Global,
    inputs: &Inputs<'_>,
    items: &[Value],
    wanted: Option<&TypeRef>,
) -> Result<Given, Memory>
    ensures { IfOk result (λ given. given ≡ inputs_spec.as_list (inputs_spec.items_at (option_copied wanted.entry) (map (spec.offered inputs.now.defaults.now inputs.now.schema.now) items.now))) }
{
    let mut values = Items::new(alloc);
    'items: for item in items {
        let given = offered(alloc, inputs, item, wanted)?;
        let Some(value) = item_value(given) else {
            return Ok(Given::Refused);
        };
        values.push(value)?;
    }
    Ok(Given::Is(Value::List(values)))
}

#[cycle(offers)]
fn object_given(
    alloc: Global,
    inputs: &Inputs<'_>,
    members: &Members,
    wanted: Option<&TypeRef>,
) -> Result<Given, Memory>
    ensures { IfOk result (λ given. given ≡ spec.object_at inputs.now.defaults.now inputs.now.schema.now (map (λ m. (m.0, spec.offered inputs.now.defaults.now inputs.now.schema.now m.1)) members.now) (option_copied wanted.entry)) }
{
    match wanted {
        Some(wanted) => object_in(alloc, inputs, members, wanted),
        None => Ok(as_object(free_members(alloc, inputs, members)?)),
    }
}

#[cycle(offers)]
fn object_in(
    alloc: Global,
    inputs: &Inputs<'_>,
    members: &Members,
    wanted: &TypeRef,
) -> Result<Given, Memory>
    ensures { IfOk result (λ given. given ≡ spec.object_in inputs.now.defaults.now inputs.now.schema.now (map (λ m. (m.0, spec.offered inputs.now.defaults.now inputs.now.schema.now m.1)) members.now) wanted.now) }
{
    match inputs.fields(named_type(wanted)) {
        Some(declared) => known_members(alloc, inputs, members, declared, wanted),
        None => free_object(alloc, inputs, members, wanted),
    }
}

/// An object of known members only.
#[cycle(offers)]
fn known_members(
    alloc: Global,
    inputs: &Inputs<'_>,
    members: &Members,
    declared: &Table<InputValue>,
    wanted: &TypeRef,
) -> Result<Given, Memory>
    ensures { IfOk result (λ given. given ≡ spec.known_members (entry inputs.now.defaults.now (named_type wanted.now)) (map (λ m. (m.0, spec.offered inputs.now.defaults.now inputs.now.schema.now m.1)) members.now) declared.now wanted.now) }
{
    if !are_known(inputs, declared, members) {
        return Ok(Given::Refused);
    }
    input_object(alloc, inputs, members, declared.as_slice(), wanted)
}

#[cycle(offers)]
fn input_object(
    alloc: Global,
    inputs: &Inputs<'_>,
    members: &Members,
    declared: &[(Text, InputValue)],
    wanted: &TypeRef,
) -> Result<Given, Memory>
    ensures { IfOk result (λ given. given ≡ inputs_spec.as_object_in wanted.now (inputs_spec.input_members (entry inputs.now.defaults.now (named_type wanted.now)) (map (λ m. (m.0, spec.offered inputs.now.defaults.now inputs.now.schema.now m.1)) members.now) declared.now)) }
{
    let values = inputs.values(wanted);
    let members = input_members(alloc, inputs, members, declared, values)?;
    as_object_in(alloc, wanted, members)
}

/// An object for a custom scalar, as it stands.
#[cycle(offers)]
fn free_object(
    alloc: Global,
    inputs: &Inputs<'_>,
    members: &Members,
    wanted: &TypeRef,
) -> Result<Given, Memory>
    ensures { IfOk result (λ given. given ≡ inputs_spec.free_object inputs.now.schema.now (map (λ m. (m.0, spec.offered inputs.now.defaults.now inputs.now.schema.now m.1)) members.now) wanted.now) }
{
    if !takes_any(inputs.schema, named_type(wanted)) {
        return Ok(Given::Refused);
    }
    let members = free_members(alloc, inputs, members)?;
    as_object_in(alloc, wanted, members)
}

fn are_known(inputs: &Inputs<'_>, declared: &Table<InputValue>, members: &Members) -> bool
    ensures { result ≡ spec.are_known declared.now (map (λ m. (m.0, spec.offered inputs.now.defaults.now inputs.now.schema.now m.1)) members.now) }
{
    all_are_known(declared, members.as_slice())
}

fn all_are_known(declared: &Table<InputValue>, members: &[(Text, Value)]) -> bool
    ensures { result ≡ list_all (λ m. is_some (entry declared.now m.0)) members.now }
{
    members.iter().all(|member| declared.has(&member.0))
}

#[cycle(offers)]
fn free_members(
    alloc: Global,
    inputs: &Inputs<'_>,
    members: &Members,
) -> Result<Option<Members>, Memory>
    ensures { IfOk result (λ r. r ≡ inputs_spec.members_as_given (map (λ m. (m.0, spec.offered inputs.now.defaults.now inputs.now.schema.now m.1)) members.now)) }
{
    let mut object = ObjectBuilder::new(alloc);
    'members: for member in members.as_slice() {
        let given = offered(alloc, inputs, &member.1, None)?;
        let Some(next) = object.next(&member.0, given)? else {
            return Ok(None);
        };
        object = next;
    }
    Ok(Some(object.into_members()))
}

#[cycle(offers)]
fn input_members(
    alloc: Global,
    inputs: &Inputs<'_>,
    members: &Members,
    declared: &[(Text, InputValue)],
    values: Option<&Table<Value>>,
) -> Result<Option<Members>, Memory>
    ensures { IfOk result (λ r. r ≡ inputs_spec.input_members (option_copied values.entry) (map (λ m. (m.0, spec.offered inputs.now.defaults.now inputs.now.schema.now m.1)) members.now) declared.now) }
{
    let mut object = ObjectBuilder::new(alloc);
    'declared: for field in declared {
        let given = field_given(alloc, inputs, members, field, values)?;
        let Some(next) = object.next(&field.0, given)? else {
            return Ok(None);
        };
        object = next;
    }
    Ok(Some(object.into_members()))
}

/// What is given of an input field, or its default.
#[cycle(offers)]
fn field_given(
    alloc: Global,
    inputs: &Inputs<'_>,
    members: &Members,
    declared: &(Text, InputValue),
    values: Option<&Table<Value>>,
) -> Result<Given, Memory>
    ensures { IfOk result (λ given. given ≡ (inputs_spec.field_member (option_copied values.entry) (map (λ m. (m.0, spec.offered inputs.now.defaults.now inputs.now.schema.now m.1)) members.now) declared.now).1) }
{
    let given = member_given(alloc, inputs, members, declared)?;
    or_default(alloc, &declared.1, default_in(values, &declared.0), given)
}

/// What the first member of a name gives.
#[cycle(offers)]
fn member_given(
    alloc: Global,
    inputs: &Inputs<'_>,
    members: &Members,
    declared: &(Text, InputValue),
) -> Result<Given, Memory>
    ensures { IfOk result (λ given. given ≡ inputs_spec.given_of (map (λ m. (m.0, spec.offered inputs.now.defaults.now inputs.now.schema.now m.1)) members.now) declared.now) }
{
    'members: for member in members.as_slice() {
        if declared.0.as_str() == member.0.as_str() {
            let wanted = &declared.1.input_type.type_ref;
            return offered(alloc, inputs, &member.1, Some(wanted));
        }
    }
    Ok(Given::Absent)
}
