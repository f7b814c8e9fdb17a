//! The cells of some changes as a list in order.

ghost use Rattle.std.specs.Prelude.{◌≡◌, ◌++◌, OnOk, IfOk};
ghost use Rattle.std.specs.Map.{keys_of};
ghost use Rattle.std.specs.List.Sorted.{IsStrictlySortedBy};
ghost use Rattle.text_types.specs.Texts.{text_cmp};
ghost use Rattle.layer_store.specs.Rows.{row_of, rows_in, rows_by, AreOrdered};

use crate::changes::Changes;
use crate::fields::Fields;
use cache_model::{Cell, Cells, EntityKey, FieldKey};
use std::alloc::Global;
use std::collections::BTreeMap;
use text_types::Memory;

fn push_cell(
    cells: &mut Cells,
    entity: &EntityKey,
    field: FieldKey,
    cell: Option<Cell>,
) -> Result<(), Memory>
    ensures { OnOk result (cells.new ≡ cells.old ++ row_of entity.now field cell) }
{
    match cell {
        Some(cell) => cells.push((entity.copy()?, field, cell)),
        None => Ok(()),
    }
}

fn push_fields(
    cells: &mut Cells,
    entity: &EntityKey,
    fields: BTreeMap<FieldKey, Option<Cell>>,
) -> Result<(), Memory>
    ensures rows { OnOk result (cells.new ≡ cells.old ++ rows_in entity.now fields.entries) }
    ensures ordered { IsStrictlySortedBy text_cmp (keys_of fields.entries) }
{
    'turn: for (field, cell) in fields {
        push_cell(cells, entity, field, cell)?;
    }
    Ok(())
}

/// The cells of some changes, by object and field in order.
pub fn list(alloc: Global, changes: Changes) -> Result<Cells, Memory>
    ensures rows { IfOk result (λ cells. cells ≡ rows_by changes.entities.entries) }
    ensures ordered { OnOk result (AreOrdered changes.entities.entries) }
{
    let mut cells = Cells::new(alloc);
    'turn: for (entity, fields) in changes.entities {
        let Fields {
            cells: own,
            names: _,
            dropped: _,
        } = fields;
        push_fields(&mut cells, &entity, own)?;
    }
    Ok(cells)
}
