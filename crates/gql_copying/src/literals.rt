//! Values.

ghost use Rattle.std.specs.Prelude.{◌≡◌, IfOk};

use crate::copy_in::CopyIn;
use gql_model::{Literal, LiteralValue, ObjectField};
use std::alloc::Global;
use text_types::{Items, Memory};

impl CopyIn for Literal {
    fn copy_in(&self, alloc: Global) -> Result<Literal, Memory> {
        copy_literal(alloc, self)
    }
}

#[cycle(copy)]
fn copy_literal(alloc: Global, literal: &Literal) -> Result<Literal, Memory>
    ensures { IfOk result (λ copy. copy ≡ literal.now) }
{
    Ok(Literal {
        place: literal.place,
        value: copy_value(alloc, &literal.value)?,
    })
}

#[cycle(copy)]
fn copy_value(alloc: Global, value: &LiteralValue) -> Result<LiteralValue, Memory>
    ensures { IfOk result (λ copy. copy ≡ value.now) }
{
    match value {
        LiteralValue::Variable(name) => Ok(LiteralValue::Variable(name.copy()?)),
        LiteralValue::Integer { text, number } => Ok(LiteralValue::Integer {
            text: text.copy()?,
            number: *number,
        }),
        LiteralValue::String(text) => Ok(LiteralValue::String(text.copy()?)),
        LiteralValue::Boolean(truth) => Ok(LiteralValue::Boolean(*truth)),
        LiteralValue::Null => Ok(LiteralValue::Null),
        LiteralValue::Enum(name) => Ok(LiteralValue::Enum(name.copy()?)),
        LiteralValue::List(items) => Ok(LiteralValue::List(copy_list(alloc, items)?)),
        LiteralValue::Object(fields) => Ok(LiteralValue::Object(copy_fields(alloc, fields)?)),
    }
}

#[cycle(copy)]
fn copy_list(alloc: Global, items: &Items<Literal>) -> Result<Items<Literal>, Memory>
    ensures { IfOk result (λ copies. copies ≡ items.now) }
{
    let mut copies = Items::new(alloc);
    'items: for item in items.as_slice() {
        copies.push(copy_literal(alloc, item)?)?;
    }
    Ok(copies)
}

#[cycle(copy)]
fn copy_fields(alloc: Global, fields: &Items<ObjectField>) -> Result<Items<ObjectField>, Memory>
    ensures { IfOk result (λ copies. copies ≡ fields.now) }
{
    let mut copies = Items::new(alloc);
    'fields: for field in fields.as_slice() {
        copies.push(copy_field(alloc, field)?)?;
    }
    Ok(copies)
}

#[cycle(copy)]
fn copy_field(alloc: Global, field: &ObjectField) -> Result<ObjectField, Memory>
    ensures { IfOk result (λ copy. copy ≡ field.now) }
{
    Ok(ObjectField {
        name: field.name.copy_in(alloc)?,
        value: copy_literal(alloc, &field.value)?,
    })
}
