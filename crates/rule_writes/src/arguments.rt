//! The arguments of a rule's field, by the values that the rule gives.

ghost use Rattle.std.specs.Prelude.{◌≡◌, IfOk};
ghost use Rattle.rule_effects.specs.Effects as spec;
ghost use Rattle.rule_writes.specs.Views.{pairs_of};
ghost use Rattle.rule_writes.specs.Defaults as defaults_spec;

use crate::defaults::{not_given, values_of_none};
use crate::scope::member_named;
use answer_parts::MemberIndex;
use execution_model::Given;
use gql_value::{Members, Value};
use offered_values::{Inputs, ObjectBuilder, offered};
use schema_model::{InputValue, Table};
use std::alloc::Global;
use text_types::{Memory, Text};

/// The arguments of a field by these values, or nothing where they don't coerce.
pub(crate) fn coerced_values(
    alloc: Global,
    inputs: &Inputs<'_>,
    defined: &Table<InputValue>,
    values: &[(&Text, &Value)],
) -> Result<Option<Members>, Memory>
    ensures { IfOk result (λ members. members ≡ spec.coerced_values inputs.now.defaults.now inputs.now.schema.now defined.now (pairs_of values.now)) }
{
    let members = values_of_none(alloc, inputs, defined)?;
    let defaults = MemberIndex::new(alloc, &members)?;
    put_arguments(alloc, inputs, &defaults, defined.as_slice(), values)
}

fn put_arguments(
    alloc: Global,
    inputs: &Inputs<'_>,
    defaults: &MemberIndex<'_>,
    defined: &[(Text, InputValue)],
    values: &[(&Text, &Value)],
) -> Result<Option<Members>, Memory>
    ensures { IfOk result (λ members. members ≡ defaults_spec.with_defaults inputs.now.defaults.now inputs.now.schema.now defaults.now.members.now defined.now (pairs_of values.now)) }
{
    let mut object = ObjectBuilder::new(alloc);
    'defined: for argument in defined {
        let given = argument_value(alloc, inputs, defaults, argument, values)?;
        let Some(next) = object.next(&argument.0, given)? else {
            return Ok(None);
        };
        object = next;
    }
    Ok(Some(object.into_members()))
}

/// What is given of an argument, or its default.
fn argument_value(
    alloc: Global,
    inputs: &Inputs<'_>,
    defaults: &MemberIndex<'_>,
    defined: &(Text, InputValue),
    values: &[(&Text, &Value)],
) -> Result<Given, Memory>
    ensures { IfOk result (λ given. given ≡ (defaults_spec.member_with_default inputs.now.defaults.now inputs.now.schema.now defaults.now.members.now (pairs_of values.now) defined.now).1) }
{
    match argument_given(alloc, inputs, defined, values)? {
        Given::Absent => not_given(alloc, &defined.1, defaults.get(&defined.0)),
        given => Ok(given),
    }
}

fn argument_given(
    alloc: Global,
    inputs: &Inputs<'_>,
    defined: &(Text, InputValue),
    values: &[(&Text, &Value)],
) -> Result<Given, Memory>
    ensures { IfOk result (λ given. given ≡ spec.argument_given inputs.now.defaults.now inputs.now.schema.now (pairs_of values.now) defined.now) }
{
    match member_named(values, defined.0.as_str()) {
        Some(value) => {
            let wanted = &defined.1.input_type.type_ref;
            offered(alloc, inputs, value, Some(wanted))
        }
        None => Ok(Given::Absent),
    }
}
