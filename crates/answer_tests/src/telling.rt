//! Cells as texts.

use crate::values::push_value;
use cache_model::{Cell, EntityKey, FieldKey, Link};
use std::alloc::Global;
use std::test::Fail;
use text_types::Text;

/// Puts a cell with its place behind a text.
pub(crate) fn push_cell(
    alloc: Global,
    text: &mut Text,
    entity: &EntityKey,
    field: &FieldKey,
    cell: &Cell,
) -> Result<(), Fail> {
    push_place(text, entity, field)?;
    match cell {
        Cell::Leaf(value) => {
            text.push_str("=")?;
            push_value(alloc, text, value)?;
        }
        Cell::Link(link) => {
            text.push_str("->")?;
            push_link(text, link)?;
        }
    }
    text.push_str(";")?;
    Ok(())
}

/// Puts a place behind a text, each of its two keys with a space behind it.
pub(crate) fn push_place(
    text: &mut Text,
    entity: &EntityKey,
    field: &FieldKey,
) -> Result<(), Fail> {
    text.push(entity.as_text())?;
    text.push_str(" ")?;
    text.push(field.as_text())?;
    text.push_str(" ")?;
    Ok(())
}

fn push_link(text: &mut Text, link: &Link) -> Result<(), Fail> {
    match link {
        Link::Null => text.push_str("null")?,
        Link::Entity(entity) => text.push(entity.as_text())?,
        Link::List(links) => push_items(text, links.as_slice())?,
    }
    Ok(())
}

/// What a list leads to, whose own lists aren't told.
fn push_items(text: &mut Text, links: &[Link]) -> Result<(), Fail> {
    text.push_str("[")?;
    for link in links {
        push_item(text, link)?;
    }
    text.push_str("]")?;
    Ok(())
}

fn push_item(text: &mut Text, link: &Link) -> Result<(), Fail> {
    match link {
        Link::Null => text.push_str("null ")?,
        Link::List(_) => text.push_str("[] ")?,
        Link::Entity(entity) => {
            text.push(entity.as_text())?;
            text.push_str(" ")?;
        }
    }
    Ok(())
}
