ghost use Rattle.std.specs.Prelude.{◌≡◌, IfOk, Option};
ghost use Rattle.std.specs.Option.{option_copied};
ghost use Rattle.execution_model.specs.Inputs.{as_given, null_at};
ghost use Rattle.execution_model.specs.Scalars as spec;

use execution_model::Given;
use gql_model::TypeRef;
use gql_value::Value;
use itoa::Buffer;
use schema_defaults::{enum_takes, takes_any, takes_boolean, takes_integer, takes_string};
use schema_model::Schema;
use schema_rules::{is_non_null, named_type};
use std::alloc::Global;
use text_types::{Items, Memory, Text};

/// A value in as many lists of one as the type has lists.
pub(crate) fn in_lists(alloc: Global, wanted: &TypeRef, value: Value) -> Result<Value, Memory>
    ensures { IfOk result (λ v. v ≡ spec.in_lists wanted.now value) }
{
    match wanted {
        TypeRef::Named { .. } => Ok(value),
        TypeRef::List { of, .. } => list_of_one(alloc, in_lists(alloc, of.get(), value)?),
    }
}

fn list_of_one(alloc: Global, value: Value) -> Result<Value, Memory>
    ensures { IfOk result (λ v. v ≡ spec.list_of_one value) }
{
    let mut items = Items::new(alloc);
    items.push(value)?;
    Ok(Value::List(items))
}

/// Null, which a nullable type takes.
pub fn null_at(wanted: Option<&TypeRef>) -> Given
    ensures { result ≡ null_at (option_copied wanted.entry) }
{
    match wanted {
        Some(wanted) => null_in(wanted),
        None => Given::Is(Value::Null),
    }
}

fn null_in(wanted: &TypeRef) -> Given
    ensures { result ≡ null_at (Option.Some wanted.now) }
{
    if is_non_null(wanted) {
        Given::Refused
    } else {
        Given::Is(Value::Null)
    }
}

/// A whole number: an Int of 32 bits, a Float, an ID, which becomes its decimal text, or a custom scalar.
pub fn integer_at(
    alloc: Global,
    schema: &Schema,
    number: i64,
    wanted: Option<&TypeRef>,
) -> Result<Given, Memory>
    ensures { IfOk result (λ given. given ≡ as_given (spec.integer_at schema.now number (option_copied wanted.entry))) }
{
    match wanted {
        Some(wanted) => integer_in(alloc, schema, number, wanted),
        None => Ok(Given::Is(Value::Int(number))),
    }
}

fn integer_in(
    alloc: Global,
    schema: &Schema,
    number: i64,
    wanted: &TypeRef,
) -> Result<Given, Memory>
    ensures { IfOk result (λ given. given ≡ as_given (spec.integer_at schema.now number (Option.Some wanted.now))) }
{
    let name = named_type(wanted);
    if !takes_integer(schema, number, name) {
        return Ok(Given::Refused);
    }
    let value = whole_number(alloc, number, name)?;
    Ok(Given::Is(in_lists(alloc, wanted, value)?))
}

fn whole_number(alloc: Global, number: i64, name: &Text) -> Result<Value, Memory>
    ensures { IfOk result (λ value. value ≡ spec.whole_number number name.now) }
{
    if name.as_str() == "ID" {
        Ok(Value::Text(Text::from_str(alloc, Buffer::new().format(number))?))
    } else {
        Ok(Value::Int(number))
    }
}

/// A truth value: a Boolean, or a custom scalar.
pub fn boolean_at(
    alloc: Global,
    schema: &Schema,
    truth: bool,
    wanted: Option<&TypeRef>,
) -> Result<Given, Memory>
    ensures { IfOk result (λ given. given ≡ as_given (spec.boolean_at schema.now truth (option_copied wanted.entry))) }
{
    match wanted {
        Some(wanted) => {
            let takes = takes_boolean(schema, named_type(wanted));
            taken(alloc, takes, wanted, Value::Bool(truth))
        }
        None => Ok(Given::Is(Value::Bool(truth))),
    }
}

/// A value in the lists of a type that takes it.
fn taken(alloc: Global, takes: bool, wanted: &TypeRef, value: Value) -> Result<Given, Memory>
    ensures { IfOk result (λ given. given ≡ as_given (spec.value_if takes wanted.now value)) }
{
    if takes {
        Ok(Given::Is(in_lists(alloc, wanted, value)?))
    } else {
        Ok(Given::Refused)
    }
}

/// A string literal: a String, an ID or a custom scalar.
pub fn string_at(
    alloc: Global,
    schema: &Schema,
    text: &Text,
    wanted: Option<&TypeRef>,
) -> Result<Given, Memory>
    ensures { IfOk result (λ given. given ≡ as_given (spec.string_at schema.now text.now (option_copied wanted.entry))) }
{
    match wanted {
        Some(wanted) => {
            let takes = takes_string(schema, named_type(wanted));
            text_taken(alloc, takes, wanted, text)
        }
        None => Ok(Given::Is(Value::Text(text.copy()?))),
    }
}

fn text_taken(alloc: Global, takes: bool, wanted: &TypeRef, text: &Text) -> Result<Given, Memory>
    ensures { IfOk result (λ given. given ≡ as_given (spec.value_if takes wanted.now (Value.Text text.now))) }
{
    if takes {
        Ok(Given::Is(in_lists(alloc, wanted, Value::Text(text.copy()?))?))
    } else {
        Ok(Given::Refused)
    }
}

/// A name in a document: one of an enum's, or a custom scalar, where it becomes its text.
pub fn name_at(
    alloc: Global,
    schema: &Schema,
    word: &Text,
    wanted: Option<&TypeRef>,
) -> Result<Given, Memory>
    ensures { IfOk result (λ given. given ≡ as_given (spec.name_at schema.now word.now (option_copied wanted.entry))) }
{
    match wanted {
        Some(wanted) => {
            let name = named_type(wanted);
            let takes = enum_takes(schema, word, name) || takes_any(schema, name);
            text_taken(alloc, takes, wanted, word)
        }
        None => Ok(Given::Is(Value::Text(word.copy()?))),
    }
}

/// A text among the values that are given: a String, an ID, a custom scalar, or one of an enum's names.
pub(crate) fn text_at(
    alloc: Global,
    schema: &Schema,
    text: &Text,
    wanted: Option<&TypeRef>,
) -> Result<Given, Memory>
    ensures { IfOk result (λ given. given ≡ as_given (spec.text_at schema.now text.now (option_copied wanted.entry))) }
{
    match wanted {
        Some(wanted) => {
            let name = named_type(wanted);
            let takes = takes_string(schema, name) || enum_takes(schema, text, name);
            text_taken(alloc, takes, wanted, text)
        }
        None => Ok(Given::Is(Value::Text(text.copy()?))),
    }
}
