ghost use Rattle.std.specs.Prelude.{◌≡◌, IfOk, Option};
ghost use Rattle.std.specs.Option.{option_copied};
ghost use Rattle.execution_model.specs.Inputs as spec;

use crate::scalars::in_lists;
use execution_model::Given;
use gql_model::TypeRef;
use gql_value::{Members, Value};
use schema_model::InputValue;
use schema_rules::is_non_null;
use std::alloc::Global;
use text_types::Memory;

/// An item of a list: a variable without value counts as null.
pub fn item_value(given: Given) -> Option<Value>
    ensures { result ≡ spec.item_value given }
{
    match given {
        Given::Absent => Some(Value::Null),
        Given::Refused => None,
        Given::Is(value) => Some(value),
    }
}

/// What is given, or the default of a field.
pub fn or_default(
    alloc: Global,
    input: &InputValue,
    default: Option<&Value>,
    given: Given,
) -> Result<Given, Memory>
    ensures { IfOk result (λ g. g ≡ spec.or_default input.now (option_copied default.entry) given) }
{
    match given {
        Given::Absent => default_given(alloc, input, default),
        given => Ok(given),
    }
}

fn default_given(
    alloc: Global,
    input: &InputValue,
    default: Option<&Value>,
) -> Result<Given, Memory>
    ensures { IfOk result (λ g. g ≡ spec.default_given input.now (option_copied default.entry)) }
{
    match default {
        Some(value) => Ok(Given::Is(value.copy(alloc)?)),
        None => Ok(nothing_given(input)),
    }
}

/// What stands for a field that has neither a value nor a default: a refusal where it is Non-Null, else nothing.
pub fn nothing_given(input: &InputValue) -> Given
    ensures { result ≡ spec.default_given input.now Option.None }
{
    if is_non_null(&input.input_type.type_ref) {
        Given::Refused
    } else {
        Given::Absent
    }
}

/// An object of these members, where none was refused.
pub fn as_object(members: Option<Members>) -> Given
    ensures { result ≡ spec.as_object members }
{
    match members {
        Some(members) => Given::Is(Value::Obj(members)),
        None => Given::Refused,
    }
}

/// An object of these members in the lists of a type, where none was refused.
pub fn as_object_in(
    alloc: Global,
    wanted: &TypeRef,
    members: Option<Members>,
) -> Result<Given, Memory>
    ensures { IfOk result (λ given. given ≡ spec.as_object_in wanted.now members) }
{
    match members {
        Some(members) => Ok(Given::Is(in_lists(alloc, wanted, Value::Obj(members))?)),
        None => Ok(Given::Refused),
    }
}
