ghost use Rattle.std.specs.Prelude.{◌≡◌, bytes_eq, codes};
ghost use Rattle.std.specs.List.{find};
ghost use Rattle.std.specs.Option.{option_copied};
ghost use Rattle.gql_value.specs.declared.value.Value.{out-Value};
ghost use Rattle.gql_model.specs.declared.literal.LiteralValue.{out-LiteralValue};
ghost use Rattle.execution_model.specs.Conditions as spec;

use gql_model::{Argument, Directive, LiteralValue};
use gql_value::Value;
use schema_model::Table;

/// Whether a selection with these directives is passed over, where variables have these values (GraphQL
/// October 2021, 3.13.1 and 3.13.2): by `@skip(if: true)` or `@include(if: false)`.
pub fn is_passed_over(variables: &Table<Value>, directives: &[Directive]) -> bool
    ensures { result ≡ spec.is_passed_over variables.now directives.now }
{
    directives
        .iter()
        .any(|directive| leaves_out(variables, directive))
}

fn leaves_out(variables: &Table<Value>, directive: &Directive) -> bool
    ensures { result ≡ spec.leaves_out variables.now directive.now }
{
    let name = directive.name.text.as_str();
    let arguments = directive.arguments.as_slice();
    (name == "skip" && condition_is(true, variables, arguments))
        || (name == "include" && condition_is(false, variables, arguments))
}

/// Whether the argument `if` is this truth value.
fn condition_is(wanted: bool, variables: &Table<Value>, arguments: &[Argument]) -> bool
    ensures { result ≡ spec.condition_is wanted variables.now arguments.now }
{
    match condition(arguments) {
        Some(argument) => is_bool_literal(wanted, variables, &argument.value.value),
        None => false,
    }
}

fn condition(arguments: &[Argument]) -> Option<&Argument>
    ensures { option_copied result ≡ find (λ a. bytes_eq a.name.text (codes "if")) arguments.now }
{
    arguments
        .iter()
        .find(|argument| argument.name.text.as_str() == "if")
}

fn is_bool_literal(wanted: bool, variables: &Table<Value>, literal: &LiteralValue) -> bool
    ensures { result ≡ spec.is_bool_literal wanted variables.now (out-LiteralValue literal.now) }
{
    match literal {
        LiteralValue::Boolean(truth) => is_wanted(wanted, *truth),
        LiteralValue::Variable(name) => match variables.get(name) {
            Some(value) => is_bool_value(wanted, value),
            None => false,
        },
        _ => false,
    }
}

fn is_bool_value(wanted: bool, value: &Value) -> bool
    ensures { result ≡ spec.is_bool_value wanted (out-Value value.now) }
{
    match value {
        Value::Bool(truth) => is_wanted(wanted, *truth),
        _ => false,
    }
}

fn is_wanted(wanted: bool, truth: bool) -> bool
    ensures { result ≡ spec.is_wanted wanted truth }
{
    if wanted { truth } else { !truth }
}
