//! Contents as a plain list, and what they make of a cell.

use cache_model::{Cell, EntityKey, FieldKey, Kind, Write};
use entity_keys::covers;
use gql_value::Value;
use std::alloc::Global;
use std::test::Fail;
use text_types::Text;

/// A content as it was filled, its writes as numbers.
#[derive(Drop)]
pub struct Plain {
    pub writes: Vec<u32>,
    pub kind: Kind,
    pub finished: bool,
}

/// Where a cell may stand.
#[derive(Drop)]
pub struct Spot {
    pub entity: EntityKey,
    pub field: FieldKey,
}

pub fn entity(alloc: Global, text: &str) -> Result<EntityKey, Fail> {
    Ok(EntityKey::from_text(Text::from_str(alloc, text)?))
}

pub fn field(alloc: Global, text: &str) -> Result<FieldKey, Fail> {
    Ok(FieldKey::from_text(Text::from_str(alloc, text)?))
}

/// The write of a number.
pub fn write(alloc: Global, number: u32) -> Result<Write, Fail> {
    let object = entity(alloc, if number % 2 == 0 { "A" } else { "B" })?;
    let cell = Cell::Leaf(Value::Int(i64::from(number)));
    Ok(match number / 2 % 6 {
        0 => Write::Set(object, field(alloc, "todo")?, cell),
        1 => Write::Set(object, field(alloc, "todo(1)")?, cell),
        2 => Write::Set(object, field(alloc, "todos")?, cell),
        3 => Write::Drop(object, field(alloc, "todo")?),
        4 => Write::DropName(object, Text::from_str(alloc, "todo")?),
        _ => Write::DropAll(object),
    })
}

/// What the write of a number leaves at the cells that it covers.
pub fn number_set(number: u32) -> Option<i64> {
    if number / 2 % 6 < 3 {
        Some(i64::from(number))
    } else {
        None
    }
}

/// The last of some writes that covers the cell.
fn last_covering(alloc: Global, writes: &[u32], spot: &Spot) -> Result<Option<u32>, Fail> {
    let mut found = None;
    for number in writes {
        if covers(&write(alloc, *number)?, &spot.entity, &spot.field) {
            found = Some(*number);
        }
    }
    Ok(found)
}

/// What all contents make of the cell.
pub fn number_at(alloc: Global, contents: &[Plain], spot: &Spot) -> Result<Option<i64>, Fail> {
    let mut found = None;
    for content in contents {
        if let Some(number) = last_covering(alloc, &content.writes, spot)? {
            found = number_set(number);
        }
    }
    Ok(found)
}

/// Whether a guess covers the cell.
pub fn is_guessed(alloc: Global, contents: &[Plain], spot: &Spot) -> Result<bool, Fail> {
    let mut found = false;
    for content in contents {
        let covering = last_covering(alloc, &content.writes, spot)?;
        found = found || (content.kind == Kind::Optimistic && covering.is_some());
    }
    Ok(found)
}

/// Whether a content behind the first so many covers the cell.
pub fn is_covered_behind(
    alloc: Global,
    contents: &[Plain],
    count: usize,
    spot: &Spot,
) -> Result<bool, Fail> {
    let mut found = false;
    for (place, content) in contents.iter().enumerate() {
        let covering = last_covering(alloc, &content.writes, spot)?;
        found = found || (place >= count && covering.is_some());
    }
    Ok(found)
}

/// How many contents stand before the first that isn't finished.
pub fn finished_front(contents: &[Plain]) -> usize {
    contents
        .iter()
        .position(|content| !content.finished)
        .unwrap_or(contents.len())
}
