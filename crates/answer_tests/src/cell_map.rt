ghost use Rattle.std.specs.Prelude.{◌≡◌, bytes_eq, ◌&&◌, find};
ghost use Rattle.std.specs.Option.{option_copied, option_map};

use crate::telling::push_cell;
use cache_model::{Cell, EntityKey, FieldKey, Link, Write, Writes};
use entity_keys::{Lookup, Steps};
use gql_value::Value;
use std::alloc::Global;
use std::sync::ledger::Ledger;
use std::test::Fail;
use text_types::{Items, Text};

/// A cell at its place.
type Placed = (EntityKey, FieldKey, Cell);

/// Cells in a list, no two of them at one place.
#[derive(Drop)]
pub(crate) struct CellMap {
    cells: Vec<Placed>,
}

impl CellMap {
    pub(crate) fn new(alloc: Global) -> CellMap {
        CellMap {
            cells: Vec::new(alloc),
        }
    }

    /// What the writes of an answer leave.
    pub(crate) fn apply(&mut self, writes: Writes) -> Result<(), Fail> {
        for write in writes.into_vec() {
            self.apply_one(write)?;
        }
        Ok(())
    }

    fn apply_one(&mut self, write: Write) -> Result<(), Fail> {
        match write {
            Write::Set(entity, field, cell) => self.put(entity, field, cell),
            Write::Drop(entity, field) => {
                self.take_out(&entity, &field);
                Ok(())
            }
            _ => Err("no write of an answer")?,
        }
    }

    fn put(&mut self, entity: EntityKey, field: FieldKey, cell: Cell) -> Result<(), Fail> {
        self.take_out(&entity, &field);
        self.cells.push((entity, field, cell))?;
        Ok(())
    }

    fn take_out(&mut self, entity: &EntityKey, field: &FieldKey) {
        self.cells
            .retain(|placed| !placed.0.same(entity) || !placed.1.same(field));
    }

    fn entry(&self, entity: &EntityKey, field: &FieldKey) -> Option<&Placed>
        ensures { option_copied result ≡ find (λ c. bytes_eq c.0 entity.now && bytes_eq c.1 field.now) self.now.cells.items }
    {
        self.cells.iter().find(|placed| placed.0.as_text() == entity.as_text()
            && placed.1.as_text() == field.as_text())
    }

    /// The cells as they are told, in the order of their places.
    pub(crate) fn told(&self, alloc: Global) -> Result<Text, Fail> {
        let mut lines = Vec::new(alloc);
        for placed in &self.cells {
            lines.push(told_cell(alloc, placed)?)?;
        }
        lines.sort()?;
        joined(alloc, &lines)
    }
}

fn told_cell(alloc: Global, placed: &Placed) -> Result<Text, Fail> {
    let mut text = Text::new(alloc);
    push_cell(alloc, &mut text, &placed.0, &placed.1, &placed.2)?;
    Ok(text)
}

fn joined(alloc: Global, texts: &[Text]) -> Result<Text, Fail> {
    let mut joined = Text::new(alloc);
    for text in texts {
        joined.push(text)?;
    }
    Ok(joined)
}

impl Lookup for CellMap {
    ghost cells = { λ map entity field. option_map (λ c. c.2) (find (λ c. bytes_eq c.0 entity && bytes_eq c.1 field) map.cells.items) };

    fn lookup<L: Ledger>(
        &self,
        entity: &EntityKey,
        field: &FieldKey,
        steps: &mut Steps<L>,
    ) -> Option<&Cell> {
        steps.add(1);
        match self.entry(entity, field) {
            Some((_, _, cell)) => Some(cell),
            None => None,
        }
    }
}

/// A link: null where the text is empty, to the objects of a list where it begins with `*`, and else to one.
pub(crate) fn link(alloc: Global, text: &str) -> Result<Link, Fail> {
    match text.strip_prefix("*") {
        Some(keys) => links(alloc, keys),
        None => linked(alloc, text),
    }
}

fn links(alloc: Global, keys: &str) -> Result<Link, Fail> {
    let mut links = Items::new(alloc);
    for key in keys.split(' ') {
        links.push(linked(alloc, key)?)?;
    }
    Ok(Link::List(links))
}

fn linked(alloc: Global, key: &str) -> Result<Link, Fail> {
    if key.is_empty() {
        return Ok(Link::Null);
    }
    Ok(Link::Entity(EntityKey::from_text(Text::from_str(alloc, key)?)))
}

/// A cell: null, a link where the text begins with `@`, or else a text.
fn cell(alloc: Global, text: &str) -> Result<Cell, Fail> {
    if text == "null" {
        return Ok(Cell::Leaf(Value::Null));
    }
    match text.strip_prefix("@") {
        Some(keys) => Ok(Cell::Link(link(alloc, keys)?)),
        None => Ok(Cell::Leaf(Value::Text(Text::from_str(alloc, text)?))),
    }
}

/// A map of these cells.
pub(crate) fn map_of(alloc: Global, rows: &[(&str, &str, &str)]) -> Result<CellMap, Fail> {
    let mut map = CellMap::new(alloc);
    for (entity, field, text) in rows {
        let entity = EntityKey::from_text(Text::from_str(alloc, entity)?);
        let field = FieldKey::from_text(Text::from_str(alloc, field)?);
        map.put(entity, field, cell(alloc, text)?)?;
    }
    Ok(map)
}
