//! The defaults of the arguments of a rule's field.

ghost use Rattle.std.specs.Prelude.{◌≡◌, IfOk};
ghost use Rattle.std.specs.Option.{option_copied};
ghost use Rattle.rule_writes.specs.Defaults as spec;

use execution_model::Given;
use gql_coercion::{Inputs, coerced_arguments};
use gql_value::{Members, Value};
use schema_model::{InputValue, Table};
use schema_rules::is_non_null;
use std::alloc::Global;
use text_types::Memory;

/// The values of arguments of which none is given: of their defaults, and null where a Non-Null one has none.
pub(crate) fn values_of_none(
    alloc: Global,
    inputs: &Inputs<'_>,
    defined: &Table<InputValue>,
) -> Result<Members, Memory>
    ensures { IfOk result (λ members. members ≡ spec.values_of_none inputs.now.defaults.now inputs.now.schema.now defined.now) }
{
    let variables = Table::new(alloc);
    coerced_arguments(alloc, inputs, &variables, defined, &[])
}

/// What stands for an argument that isn't given, of which this is the value where none is given.
pub(crate) fn not_given(
    alloc: Global,
    defined: &InputValue,
    value: Option<&Value>,
) -> Result<Given, Memory>
    ensures { IfOk result (λ given. given ≡ spec.not_given defined.now (option_copied value.entry)) }
{
    match value {
        Some(value) => value_or_refused(alloc, defined, value),
        None => Ok(Given::Absent),
    }
}

/// No default is null at a Non-Null type.
fn value_or_refused(alloc: Global, defined: &InputValue, value: &Value) -> Result<Given, Memory>
    ensures { IfOk result (λ given. given ≡ spec.value_or_refused defined.now value.now) }
{
    if is_null(value) && is_non_null(&defined.input_type.type_ref) {
        Ok(Given::Refused)
    } else {
        Ok(Given::Is(value.copy(alloc)?))
    }
}

fn is_null(value: &Value) -> bool
    ensures { result ≡ spec.is_null value.now }
{
    matches!(value, Value::Null)
}
