ghost use Rattle.std.specs.Prelude.{◌≡◌, IfOk, IsTrue, ◌↔◌};
ghost use Rattle.cache_model.specs.Maps.{entity_of};

use crate::cell::Cell;
use crate::keys::{EntityKey, FieldKey};
use std::alloc::Global;
use text_types::{Items, Memory, Text};

/// One change of the map of cells: to a cell, to the cells of one field name of an object, whatever
/// the arguments, or to all cells of an object.
#[derive(Debug, Drop)]
pub enum Write {
    Set(EntityKey, FieldKey, Cell),
    Drop(EntityKey, FieldKey),
    DropName(EntityKey, Text),
    DropAll(EntityKey),
}

/// Writes in the order in which they are applied.
pub type Writes = Items<Write>;

/// The places of the cells that a reading looked at, in order.
pub type Visited = Items<(EntityKey, FieldKey)>;

impl Write {
    /// The object whose cells it changes.
    pub fn entity(&self) -> &EntityKey
        ensures { result.now ≡ entity_of self.now }
    {
        match self {
            Write::Set(entity, _, _) => entity,
            Write::Drop(entity, _) => entity,
            Write::DropName(entity, _) => entity,
            Write::DropAll(entity) => entity,
        }
    }

    /// An equal write.
    pub fn copy(&self, alloc: Global) -> Result<Write, Memory>
        ensures { IfOk result (λ write. write ≡ self.now) }
    {
        match self {
            Write::Set(entity, field, cell) => Ok(Write::Set(
                entity.copy()?,
                field.copy()?,
                cell.copy(alloc)?,
            )),
            Write::Drop(entity, field) => Ok(Write::Drop(entity.copy()?, field.copy()?)),
            Write::DropName(entity, name) => Ok(Write::DropName(entity.copy()?, name.copy()?)),
            Write::DropAll(entity) => Ok(Write::DropAll(entity.copy()?)),
        }
    }

    /// Whether the two are equal. Takes no memory.
    pub fn same(&self, other: &Write) -> bool
        ensures { IsTrue result ↔ self.now ≡ other.now }
    {
        match (self, other) {
            (Write::Set(entity, field, cell), Write::Set(other, other_field, other_cell)) => {
                entity.same(other) && field.same(other_field) && cell.same(other_cell)
            }
            (Write::Drop(entity, field), Write::Drop(other, other_field)) => {
                entity.same(other) && field.same(other_field)
            }
            (Write::DropName(entity, name), Write::DropName(other, other_name)) => {
                entity.same(other) && name.same(other_name)
            }
            (Write::DropAll(entity), Write::DropAll(other)) => entity.same(other),
            _ => false,
        }
    }
}
