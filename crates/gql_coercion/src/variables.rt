ghost use Rattle.std.specs.Prelude.{◌≡◌, [], IfOk, IfErr, cond};
ghost use Rattle.std.specs.declared.result.Result.TheVariants.{Ok};
ghost use Rattle.execution_model.specs.Inputs as inputs_spec;
ghost use Rattle.execution_model.specs.Variables as spec;
ghost use Rattle.execution_model.specs.declared.given.Given.TheVariants.{Absent, Refused, Is};
ghost use Rattle.schema_rules.specs.TypeRefs.{is_non_null as non_null};
ghost use Rattle.gql_coercion.specs.Coerced.{with_more, HasDistinctVariables, IsCoerceError};

use crate::constants::constant;
use crate::error::CoerceError;
use execution_model::Given;
use gql_model::VariableDefinition;
use gql_value::Value;
use offered_values::{Inputs, is_deeper, offered};
use schema_model::Table;
use schema_rules::is_non_null;
use std::alloc::Global;
use text_types::{Memory, Text};

/// The values of declared variables, where these are given, or the first variable that is refused. Names
/// that aren't declared are dropped.
pub fn coerce(
    alloc: Global,
    inputs: &Inputs<'_>,
    given: &Table<Value>,
    declared: &[VariableDefinition],
) -> Result<Table<Value>, CoerceError>
    ensures ok { IfOk result (λ values. with_more [] (spec.coerced_variables inputs.now.defaults.now inputs.now.schema.now given.now declared.now) ≡ Ok values) }
    ensures exact { HasDistinctVariables declared.now → IfOk result (λ values. spec.coerced_variables inputs.now.defaults.now inputs.now.schema.now given.now declared.now ≡ Ok values) }
    ensures bad { IfErr result (IsCoerceError (spec.coerced_variables inputs.now.defaults.now inputs.now.schema.now given.now declared.now)) }
{
    match coerced(alloc, inputs, given, declared)? {
        Ok(values) => Ok(values),
        Err(name) => Err(CoerceError::BadVariable { name }),
    }
}

/// The values, or the name of the first variable that is refused.
fn coerced(
    alloc: Global,
    inputs: &Inputs<'_>,
    given: &Table<Value>,
    declared: &[VariableDefinition],
) -> Result<Result<Table<Value>, Text>, Memory>
    ensures { IfOk result (λ r. r ≡ with_more [] (spec.coerced_variables inputs.now.defaults.now inputs.now.schema.now given.now declared.now)) }
{
    let mut values = Table::new(alloc);
    'declared: for variable in declared {
        let meaning = variable_given(alloc, inputs, given, variable)?;
        let Some(next) = with_member(values, &variable.name.text, meaning)? else {
            return Ok(Err(variable.name.text.copy()?));
        };
        values = next;
    }
    Ok(Ok(values))
}

/// One value more, unless it is absent; nothing where it is refused.
fn with_member(
    values: Table<Value>,
    name: &Text,
    given: Given,
) -> Result<Option<Table<Value>>, Memory>
    ensures { IfOk result (λ r. r ≡ inputs_spec.next_members name.now given values) }
{
    match given {
        Given::Absent => Ok(Some(values)),
        Given::Refused => Ok(None),
        Given::Is(value) => Ok(Some(values.put(name.copy()?, value)?)),
    }
}

fn variable_given(
    alloc: Global,
    inputs: &Inputs<'_>,
    given: &Table<Value>,
    variable: &VariableDefinition,
) -> Result<Given, Memory>
    ensures { IfOk result (λ meaning. meaning ≡ spec.variable_meaning inputs.now.defaults.now inputs.now.schema.now given.now variable.now) }
{
    match given.get(&variable.name.text) {
        Some(value) => {
            let wanted = &variable.variable_type.type_ref;
            Ok(bounded(offered(alloc, inputs, value, Some(wanted))?))
        }
        None => Ok(bounded(not_given(alloc, inputs, variable)?)),
    }
}

/// A value that nests deeper than 126 is refused.
fn bounded(given: Given) -> Given
    ensures { result ≡ spec.bounded given }
{
    match given {
        Given::Is(value) => bounded_value(value),
        given => given,
    }
}

fn bounded_value(value: Value) -> Given
    ensures { result ≡ spec.bounded (Is value) }
{
    if is_deeper(&value, 126) {
        Given::Refused
    } else {
        Given::Is(value)
    }
}

/// A variable that isn't given takes its default.
fn not_given(
    alloc: Global,
    inputs: &Inputs<'_>,
    variable: &VariableDefinition,
) -> Result<Given, Memory>
    ensures { IfOk result (λ given. given ≡ spec.not_given inputs.now.defaults.now inputs.now.schema.now variable.now) }
{
    match &variable.default {
        Some(literal) => {
            let wanted = &variable.variable_type.type_ref;
            Ok(as_given(constant(alloc, inputs, literal, wanted)?))
        }
        None => Ok(left_out(variable)),
    }
}

fn as_given(value: Option<Value>) -> Given
    ensures { result ≡ inputs_spec.as_given value }
{
    match value {
        Some(value) => Given::Is(value),
        None => Given::Refused,
    }
}

fn left_out(variable: &VariableDefinition) -> Given
    ensures { result ≡ cond (non_null variable.now.variable_type.type_ref) Refused Absent }
{
    if is_non_null(&variable.variable_type.type_ref) {
        Given::Refused
    } else {
        Given::Absent
    }
}
