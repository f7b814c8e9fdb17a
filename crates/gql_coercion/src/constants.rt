ghost use Rattle.std.specs.Prelude.{◌≡◌, IfOk};
ghost use Rattle.execution_model.specs.Arguments.{argument_default};
ghost use Rattle.execution_model.specs.Defaults as spec;

use crate::literals::literal_given;
use execution_model::Given;
use gql_model::{Literal, TypeRef};
use gql_value::Value;
use offered_values::Inputs;
use schema_model::{InputValue, Table};
use std::alloc::Global;
use text_types::Memory;

/// The value of a constant literal at a type.
pub(crate) fn constant(
    alloc: Global,
    inputs: &Inputs<'_>,
    literal: &Literal,
    wanted: &TypeRef,
) -> Result<Option<Value>, Memory>
    ensures { IfOk result (λ value. value ≡ spec.constant inputs.now.defaults.now inputs.now.schema.now literal.now wanted.now) }
{
    let variables = Table::new(alloc);
    let given = literal_given(alloc, inputs, &variables, literal, Some(wanted))?;
    Ok(value_given(given))
}

fn value_given(given: Given) -> Option<Value>
    ensures { result ≡ spec.value_given given }
{
    match given {
        Given::Absent => None,
        Given::Refused => None,
        Given::Is(value) => Some(value),
    }
}

/// The value of the default of an argument or an input field.
pub(crate) fn default_value(
    alloc: Global,
    inputs: &Inputs<'_>,
    input: &InputValue,
) -> Result<Option<Value>, Memory>
    ensures { IfOk result (λ value. value ≡ argument_default inputs.now.defaults.now inputs.now.schema.now input.now) }
{
    match &input.default {
        Some(literal) => constant(alloc, inputs, literal, &input.input_type.type_ref),
        None => Ok(None),
    }
}
