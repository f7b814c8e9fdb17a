//! The squashed cells of one object.

ghost use Rattle.std.specs.Prelude.{◌≡◌, ◌||◌, ℕ, List, Some, None, Option, true, false, not, unwrap_or, if◌then◌else◌, OnOk, is_some};
ghost use Rattle.std.specs.Ordering.{is_eq};
ghost use Rattle.std.specs.BTreeMap.{get};
ghost use Rattle.text_types.specs.Texts.{text_cmp};
ghost use Rattle.layer_store.specs.Layers.{found_in, is_buried};
ghost use Rattle.layer_store.specs.Bases.{cell_of, is_cell};

use crate::fields::Fields;
use cache_model::{Cell, FieldKey};
use std::alloc::Global;
use std::collections::BTreeMap;
use text_types::Memory;

/// Cells by field. A place is empty only while a squash makes room for a cell.
pub type Places = BTreeMap<FieldKey, Option<Cell>>;

/// Makes a place where a cell will stand.
fn make_place(places: &mut Places, field: &FieldKey, cell: &Option<Cell>) -> Result<(), Memory>
    ensures same { (f : List ℕ) → cell_of (get text_cmp places.new f) ≡ cell_of (get text_cmp places.old f) }
    ensures kept { (f : List ℕ) → is_some (get text_cmp places.old f) ≡ true → is_some (get text_cmp places.new f) ≡ true }
    ensures room { OnOk result (is_cell (Some cell.now) ≡ true → is_some (get text_cmp places.new field.now) ≡ true) }
{
    if cell.is_none() || places.contains_key(field) {
        return Ok(());
    }
    places.insert(field.copy()?, None)?;
    Ok(())
}

/// Makes a place for each cell of a part of a layer.
pub fn make_places(places: &mut Places, fields: &Fields) -> Result<(), Memory>
    ensures same { (f : List ℕ) → cell_of (get text_cmp places.new f) ≡ cell_of (get text_cmp places.old f) }
    ensures kept { (f : List ℕ) → is_some (get text_cmp places.old f) ≡ true → is_some (get text_cmp places.new f) ≡ true }
    ensures room { OnOk result ((f : List ℕ) → is_cell (get text_cmp fields.now.cells f) ≡ true → is_some (get text_cmp places.new f) ≡ true) }
{
    'turn: for (field, cell) in &fields.cells {
        make_place(places, field, cell)?;
    }
    Ok(())
}

/// Takes a place away again where it is empty.
fn clear_place(places: &mut Places, field: &FieldKey)
    ensures { (f : List ℕ) → cell_of (get text_cmp places.new f) ≡ cell_of (get text_cmp places.old f) }
{
    if let Some(None) = places.get(field) {
        places.remove(field);
    }
}

/// Takes away the empty places of a part of a layer.
pub fn clear_places(places: &mut Places, fields: &Fields)
    ensures { (f : List ℕ) → cell_of (get text_cmp places.new f) ≡ cell_of (get text_cmp places.old f) }
{
    'turn: for (field, _) in &fields.cells {
        clear_place(places, field);
    }
}

fn keep_unburied(places: &mut Places, fields: &Fields)
    ensures { (f : List ℕ) → get text_cmp places.new f ≡ (if is_some (get text_cmp fields.now.cells f) || not (is_buried fields.now f) then get text_cmp places.old f else None) }
{
    places.retain(|field, _| fields.cells.contains_key(field) || !fields.is_buried(field));
}

/// Takes out what the tombstones of names and of the object cover, but for the places of own cells.
fn bury(places: &mut Places, fields: &Fields)
    ensures { (f : List ℕ) → get text_cmp places.new f ≡ (if is_some (get text_cmp fields.now.cells f) || not (is_buried fields.now f) then get text_cmp places.old f else None) }
{
    if fields.buries() {
        keep_unburied(places, fields);
    }
}

/// Writes a cell where there is a place for it, or takes one out.
fn write_cell(places: &mut Places, field: FieldKey, cell: Option<Cell>)
    requires { is_cell (Some cell) ≡ true → is_some (get text_cmp places.old field) ≡ true }
    ensures here { (f : List ℕ) → cell_of (get text_cmp places.new f) ≡ (if is_eq (text_cmp field f) then cell else cell_of (get text_cmp places.old f)) }
    ensures others { (f : List ℕ) → is_eq (text_cmp field f) ≡ false → get text_cmp places.new f ≡ get text_cmp places.old f }
{
    if cell.is_none() {
        places.remove(&field);
        return;
    }
    match places.insert(field, cell) {
        Ok(_) => {}
        Err(_) => unreachable!(),
    }
}

fn write_cells(places: &mut Places, cells: BTreeMap<FieldKey, Option<Cell>>)
    requires { (f : List ℕ) → is_cell (get text_cmp cells f) ≡ true → is_some (get text_cmp places.old f) ≡ true }
    ensures { (f : List ℕ) → cell_of (get text_cmp places.new f) ≡ unwrap_or (get text_cmp cells f) (cell_of (get text_cmp places.old f)) }
{
    let mut left = cells;
    'turn: while let Some((field, cell)) = left.pop_first() {
        write_cell(places, field, cell);
    }
}

/// Does what a layer says of one object, where there is a place for each of its cells.
pub fn absorb_fields(places: &mut Places, fields: Fields)
    requires { (f : List ℕ) → is_cell (get text_cmp fields.cells f) ≡ true → is_some (get text_cmp places.old f) ≡ true }
    ensures { (f : List ℕ) → cell_of (get text_cmp places.new f) ≡ unwrap_or (found_in fields f) (cell_of (get text_cmp places.old f)) }
{
    bury(places, &fields);
    let Fields {
        cells,
        names: _,
        dropped: _,
    } = fields;
    write_cells(places, cells);
}
