//! Writes as texts.

use cache_model::{Cell, Link, Write};
use gql_value::{Value, write_text};
use std::alloc::Global;
use std::test::Fail;
use text_types::{Bytes, Text};

fn push_value(alloc: Global, text: &mut Text, value: &Value) -> Result<(), Fail> {
    let mut bytes = Bytes::new(alloc);
    write_text(value, &mut bytes)?;
    let string = String::from_utf8(bytes.into_vec()).map_err(|_| "no UTF-8")?;
    text.push_str(string.as_str())?;
    Ok(())
}

fn push_cell(alloc: Global, text: &mut Text, cell: &Cell) -> Result<(), Fail> {
    match cell {
        Cell::Leaf(value) => {
            text.push_str("=")?;
            push_value(alloc, text, value)
        }
        Cell::Link(Link::Entity(entity)) => {
            text.push_str("->")?;
            text.push(entity.as_text())?;
            Ok(())
        }
        Cell::Link(_) => Err("no link of a rule")?,
    }
}

fn push_write(alloc: Global, text: &mut Text, write: &Write) -> Result<(), Fail> {
    text.push(write.entity().as_text())?;
    match write {
        Write::Set(_, field, cell) => {
            text.push_str(" ")?;
            text.push(field.as_text())?;
            push_cell(alloc, text, cell)?;
        }
        Write::DropName(_, name) => {
            text.push_str(" no ")?;
            text.push(name)?;
        }
        Write::DropAll(_) => text.push_str(" nothing")?,
        Write::Drop(_, _) => return Err("no write of a rule")?,
    }
    text.push_str(";")?;
    Ok(())
}

pub(crate) fn text_of(alloc: Global, writes: &[Write]) -> Result<Text, Fail> {
    let mut text = Text::new(alloc);
    for write in writes {
        push_write(alloc, &mut text, write)?;
    }
    Ok(text)
}
