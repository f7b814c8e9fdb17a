ghost use Rattle.std.specs.Prelude.{◌≡◌, IfOk, map};
ghost use Rattle.std.specs.List.{list_any};
ghost use Rattle.schema_defaults.specs.Doubled.{names_in, fields_doubled, is_doubled, is_value_doubled, field_doubled};
ghost use Rattle.schema_defaults.specs.Seen.{Saw};

use crate::seen::Seen;
use gql_model::{Literal, LiteralValue, ObjectField};
use std::alloc::Global;
use text_types::Memory;

/// Whether a field stands twice in an object literal, at any depth.
#[cycle(doubled)]
pub fn is_doubled(alloc: Global, literal: &Literal) -> Result<bool, Memory>
    ensures { IfOk result (λ doubled. doubled ≡ is_doubled literal.now) }
{
    is_value_doubled(alloc, &literal.value)
}

#[cycle(doubled)]
fn is_value_doubled(alloc: Global, value: &LiteralValue) -> Result<bool, Memory>
    ensures { IfOk result (λ doubled. doubled ≡ is_value_doubled value.now) }
{
    match value {
        LiteralValue::List(items) => is_item_doubled(alloc, items.as_slice()),
        LiteralValue::Object(fields) => are_fields_doubled(alloc, fields.as_slice()),
        _ => Ok(false),
    }
}

#[cycle(doubled)]
fn is_item_doubled(alloc: Global, items: &[Literal]) -> Result<bool, Memory>
    ensures { IfOk result (λ doubled. doubled ≡ list_any (λ d. d) (map is_doubled items.now)) }
{
    'items: for item in items {
        if is_doubled(alloc, item)? {
            return Ok(true);
        }
    }
    Ok(false)
}

#[cycle(doubled)]
fn are_fields_doubled(alloc: Global, fields: &[ObjectField]) -> Result<bool, Memory>
    ensures { IfOk result (λ doubled. doubled ≡ fields_doubled (map field_doubled fields.now)) }
{
    let within = is_field_doubled(alloc, fields)?;
    let names = field_names(alloc, fields)?;
    Ok(names.repeated_line().is_some() || within)
}

#[cycle(doubled)]
fn is_field_doubled(alloc: Global, fields: &[ObjectField]) -> Result<bool, Memory>
    ensures { IfOk result (λ doubled. doubled ≡ list_any (λ f. f.1) (map field_doubled fields.now)) }
{
    'fields: for field in fields {
        if is_value_of_field_doubled(alloc, field)? {
            return Ok(true);
        }
    }
    Ok(false)
}

#[cycle(doubled)]
fn is_value_of_field_doubled(alloc: Global, field: &ObjectField) -> Result<bool, Memory>
    ensures { IfOk result (λ doubled. doubled ≡ (field_doubled field.now).1) }
{
    is_doubled(alloc, &field.value)
}

fn field_names(alloc: Global, fields: &[ObjectField]) -> Result<Seen, Memory>
    ensures { IfOk result (λ seen. Saw seen (names_in (map field_doubled fields.now))) }
{
    let mut seen = Seen::new(alloc);
    'fields: for field in fields {
        seen = seen.note(&field.name.text, 0)?;
    }
    Ok(seen)
}
