ghost use Rattle.std.specs.Prelude.{◌≡◌, IfOk, cond, [], bytes_eq};
ghost use Rattle.std.specs.List.{find, fold};
ghost use Rattle.std.specs.Option.{option_copied};
ghost use Rattle.schema_model.specs.Tables.{put};
ghost use Rattle.execution_model.specs.Arguments as spec;
ghost use Rattle.execution_model.specs.Inputs as inputs_spec;

use crate::constants::default_value;
use crate::literals::literal_given;
use execution_model::Given;
use gql_model::Argument;
use gql_value::{Members, Value};
use offered_values::{Inputs, ObjectBuilder, nothing_given};
use schema_model::{InputValue, Table};
use schema_rules::is_non_null;
use std::alloc::Global;
use text_types::{Memory, Text};

/// The values of the arguments of a field or a directive, in the order of their definition.
pub fn coerced_arguments(
    alloc: Global,
    inputs: &Inputs<'_>,
    variables: &Table<Value>,
    defined: &Table<InputValue>,
    arguments: &[Argument],
) -> Result<Members, Memory>
    ensures { IfOk result (λ members. members ≡ spec.coerced_arguments inputs.now.defaults.now inputs.now.schema.now variables.now defined.now arguments.now) }
{
    put_arguments(alloc, inputs, variables, defined.as_slice(), arguments)
}

fn put_arguments(
    alloc: Global,
    inputs: &Inputs<'_>,
    variables: &Table<Value>,
    defined: &[(Text, InputValue)],
    arguments: &[Argument],
) -> Result<Members, Memory>
    ensures { IfOk result (λ members. members ≡ fold put [] (spec.coerced_arguments inputs.now.defaults.now inputs.now.schema.now variables.now defined.now arguments.now)) }
{
    let mut object = ObjectBuilder::new(alloc);
    'defined: for argument in defined {
        let given = argument_value(alloc, inputs, variables, argument, arguments)?;
        object = with_argument(object, argument, given)?;
    }
    Ok(object.into_members())
}

fn with_argument(
    object: ObjectBuilder,
    defined: &(Text, InputValue),
    given: Given,
) -> Result<ObjectBuilder, Memory>
    ensures { IfOk result (λ r. r.members ≡ fold put object.members (spec.argument_member defined.now given)) }
{
    match given {
        Given::Is(value) => object.put(&defined.0, value),
        _ => null_if_required(object, defined),
    }
}

fn null_if_required(
    object: ObjectBuilder,
    defined: &(Text, InputValue),
) -> Result<ObjectBuilder, Memory>
    ensures { IfOk result (λ r. r.members ≡ fold put object.members (spec.null_if_required defined.now)) }
{
    if is_non_null(&defined.1.input_type.type_ref) {
        object.put(&defined.0, Value::Null)
    } else {
        Ok(object)
    }
}

/// What is given of an argument, or its default.
fn argument_value(
    alloc: Global,
    inputs: &Inputs<'_>,
    variables: &Table<Value>,
    defined: &(Text, InputValue),
    arguments: &[Argument],
) -> Result<Given, Memory>
    ensures { IfOk result (λ given. given ≡ inputs_spec.or_default defined.now.1 (spec.argument_default inputs.now.defaults.now inputs.now.schema.now defined.now.1) (spec.argument_given inputs.now.defaults.now inputs.now.schema.now variables.now arguments.now defined.now)) }
{
    match argument_given(alloc, inputs, variables, defined, arguments)? {
        Given::Absent => default_given(alloc, inputs, &defined.1),
        given => Ok(given),
    }
}

fn argument_given(
    alloc: Global,
    inputs: &Inputs<'_>,
    variables: &Table<Value>,
    defined: &(Text, InputValue),
    arguments: &[Argument],
) -> Result<Given, Memory>
    ensures { IfOk result (λ given. given ≡ spec.argument_given inputs.now.defaults.now inputs.now.schema.now variables.now arguments.now defined.now) }
{
    match argument_named(arguments, &defined.0) {
        Some(argument) => {
            let wanted = &defined.1.input_type.type_ref;
            literal_given(alloc, inputs, variables, &argument.value, Some(wanted))
        }
        None => Ok(Given::Absent),
    }
}

/// The first argument of a name.
fn argument_named<'a>(arguments: &'a [Argument], name: &Text) -> Option<&'a Argument>
    ensures { option_copied result ≡ find (λ a. bytes_eq a.name.text name.now) arguments.now }
{
    arguments
        .iter()
        .find(|argument| argument.name.text.as_str() == name.as_str())
}

fn default_given(alloc: Global, inputs: &Inputs<'_>, input: &InputValue) -> Result<Given, Memory>
    ensures { IfOk result (λ given. given ≡ inputs_spec.default_given input.now (spec.argument_default inputs.now.defaults.now inputs.now.schema.now input.now)) }
{
    Ok(or_nothing(input, default_value(alloc, inputs, input)?))
}

/// A value, or what stands where there is none.
fn or_nothing(input: &InputValue, value: Option<Value>) -> Given
    ensures { result ≡ inputs_spec.default_given input.now value }
{
    match value {
        Some(value) => Given::Is(value),
        None => nothing_given(input),
    }
}
