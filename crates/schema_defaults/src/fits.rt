ghost use Rattle.std.specs.Prelude.{◌≡◌, ◌||◌, not, IfOk, List, map};
ghost use Rattle.std.specs.List.{list_all};
ghost use Rattle.gql_model.specs.declared.type_ref.TypeRef.{out-TypeRef};
ghost use Rattle.schema_rules.specs.Lines.{Mark};
ghost use Rattle.schema_rules.specs.TypeRefs.{named_type};
ghost use Rattle.schema_defaults.specs.Seen.{Saw, was_met};
ghost use Rattle.schema_rules.specs.Unsatisfied.{is_required};
ghost use Rattle.schema_defaults.specs.Fits.{list_fits, field_fits, given_names, is_given, fields_fit, form_takes_object, object_fits, literal_fits, value_fits, object_field_fits};

use crate::scalars::{takes_any, takes_boolean, takes_integer, takes_name, takes_string};
use crate::seen::Seen;
use gql_model::{Literal, LiteralValue, ObjectField, TypeRef};
use schema_model::{InputValue, Schema, Table, TypeForm};
use schema_rules::{is_non_null, is_required, named_type};
use std::alloc::Global;
use text_types::{Memory, Text};

/// Whether a constant literal fits a type.
#[cycle(fits)]
pub fn literal_fits(
    alloc: Global,
    schema: &Schema,
    literal: &Literal,
    wanted: &TypeRef,
) -> Result<bool, Memory>
    ensures { IfOk result (λ fits. fits ≡ literal_fits schema.now literal.now wanted.now) }
{
    value_fits(alloc, schema, &literal.value, wanted)
}

#[cycle(fits)]
fn value_fits(
    alloc: Global,
    schema: &Schema,
    value: &LiteralValue,
    wanted: &TypeRef,
) -> Result<bool, Memory>
    ensures { IfOk result (λ fits. fits ≡ value_fits schema.now value.now wanted.now) }
{
    match value {
        LiteralValue::Variable(_) => Ok(true),
        LiteralValue::Integer { number, .. } => {
            Ok(takes_integer(schema, *number, named_type(wanted)))
        }
        LiteralValue::String(_) => Ok(takes_string(schema, named_type(wanted))),
        LiteralValue::Boolean(_) => Ok(takes_boolean(schema, named_type(wanted))),
        LiteralValue::Null => Ok(!is_non_null(wanted)),
        LiteralValue::Enum(word) => Ok(takes_name(schema, word, named_type(wanted))),
        LiteralValue::List(items) => list_fits(alloc, schema, items.as_slice(), wanted),
        LiteralValue::Object(fields) => {
            object_fits(alloc, schema, fields.as_slice(), named_type(wanted))
        }
    }
}

#[cycle(fits)]
fn list_fits(
    alloc: Global,
    schema: &Schema,
    items: &[Literal],
    wanted: &TypeRef,
) -> Result<bool, Memory>
    ensures { IfOk result (λ fits. fits ≡ list_fits schema.now (map (literal_fits schema.now) items.now) (out-TypeRef wanted.now)) }
{
    match wanted {
        TypeRef::Named { named, .. } => Ok(takes_any(schema, named)),
        TypeRef::List { of, .. } => items_fit(alloc, schema, items, of.get()),
    }
}

#[cycle(fits)]
fn items_fit(
    alloc: Global,
    schema: &Schema,
    items: &[Literal],
    wanted: &TypeRef,
) -> Result<bool, Memory>
    ensures { IfOk result (λ fits. fits ≡ list_all (λ f. f wanted.now) (map (literal_fits schema.now) items.now)) }
{
    'items: for item in items {
        if !literal_fits(alloc, schema, item, wanted)? {
            return Ok(false);
        }
    }
    Ok(true)
}

#[cycle(fits)]
fn object_fits(
    alloc: Global,
    schema: &Schema,
    fields: &[ObjectField],
    name: &Text,
) -> Result<bool, Memory>
    ensures { IfOk result (λ fits. fits ≡ object_fits schema.now (map (object_field_fits schema.now) fields.now) name.now) }
{
    match schema.types.get(name) {
        Some(found) => {
            let fits = form_takes_object(alloc, schema, fields, &found.form)?;
            Ok(fits || takes_any(schema, name))
        }
        None => Ok(takes_any(schema, name)),
    }
}

#[cycle(fits)]
fn form_takes_object(
    alloc: Global,
    schema: &Schema,
    fields: &[ObjectField],
    form: &TypeForm,
) -> Result<bool, Memory>
    ensures { IfOk result (λ fits. fits ≡ form_takes_object form.now (map (object_field_fits schema.now) fields.now)) }
{
    match form {
        TypeForm::Input(declared) => fields_fit(alloc, schema, fields, declared),
        _ => Ok(false),
    }
}

#[cycle(fits)]
fn fields_fit(
    alloc: Global,
    schema: &Schema,
    fields: &[ObjectField],
    declared: &Table<InputValue>,
) -> Result<bool, Memory>
    ensures { IfOk result (λ fits. fits ≡ fields_fit declared.now (map (object_field_fits schema.now) fields.now)) }
{
    let each = each_field_fits(alloc, schema, fields, declared)?;
    let names = field_names(alloc, schema, fields)?;
    Ok(each && all_are_given(&names, declared.as_slice()))
}

#[cycle(fits)]
fn each_field_fits(
    alloc: Global,
    schema: &Schema,
    fields: &[ObjectField],
    declared: &Table<InputValue>,
) -> Result<bool, Memory>
    ensures { IfOk result (λ fits. fits ≡ list_all (field_fits declared.now) (map (object_field_fits schema.now) fields.now)) }
{
    'fields: for field in fields {
        if !field_fits(alloc, schema, field, declared)? {
            return Ok(false);
        }
    }
    Ok(true)
}

#[cycle(fits)]
fn field_fits(
    alloc: Global,
    schema: &Schema,
    field: &ObjectField,
    declared: &Table<InputValue>,
) -> Result<bool, Memory>
    ensures { IfOk result (λ fits. fits ≡ field_fits declared.now (object_field_fits schema.now field.now)) }
{
    match declared.get(&field.name.text) {
        Some(input) => literal_fits(alloc, schema, &field.value, &input.input_type.type_ref),
        None => Ok(false),
    }
}

fn all_are_given(names: &Seen, declared: &[(Text, InputValue)]) -> bool
    ensures { (marks : List Mark) → Saw names.now marks → result ≡ list_all (is_given marks) declared.now }
{
    all_are_in(names, declared)
}

fn all_are_in(names: &Seen, declared: &[(Text, InputValue)]) -> bool
    ensures { result ≡ list_all (λ d. was_met names.now d.0 || not (is_required d.1)) declared.now }
{
    declared
        .iter()
        .all(|input| names.has(&input.0) || !is_required(&input.1))
}

/// The names of the fields of an object literal.
fn field_names(alloc: Global, schema: &Schema, fields: &[ObjectField]) -> Result<Seen, Memory>
    ensures { IfOk result (λ seen. Saw seen (given_names (map (object_field_fits schema.now) fields.now))) }
{
    let mut seen = Seen::new(alloc);
    'fields: for field in fields {
        seen = seen.note(&field.name.text, 0)?;
    }
    Ok(seen)
}
