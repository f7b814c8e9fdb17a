//! What a layer keeps of one object.

ghost use Rattle.std.specs.Prelude.{◌≡◌, ℕ, List, Some, None, if◌then◌else◌, OnOk, IfOk, false, is_some, bytes_eq};
ghost use Rattle.std.specs.List.{list_any};
ghost use Rattle.std.specs.BTreeMap.{get};
ghost use Rattle.text_types.specs.Texts.{text_cmp};
ghost use Rattle.cache_model.specs.Keys.{field_name_of};
ghost use Rattle.cache_model.specs.Maps.{or_else, field_hit, entity_of};

use cache_model::{Cell, EntityKey, FieldKey, Write};
use std::alloc::Global;
use std::collections::BTreeMap;
use text_types::{Memory, Text};

/// The cells and tombstones of one object. A cell stands above the tombstones.
#[derive(Drop)]
pub struct Fields {
    /// The cells, and None for the tombstone of one cell.
    pub cells: BTreeMap<FieldKey, Option<Cell>>,
    /// The tombstones of field names, each name once.
    pub names: Vec<Text>,
    /// The tombstone of the whole object.
    pub dropped: bool,
}

/// What is said of a cell.
pub enum Found<'a> {
    Cell(&'a Cell),
    Gone,
    Nothing,
}

fn names_field(names: &[Text], field: &FieldKey) -> bool
    ensures { result ≡ list_any (λ name. bytes_eq name (field_name_of field.now)) names.now }
{
    names.iter().any(|name| field.has_name(name))
}

fn has_text(names: &[Text], name: &Text) -> bool
    ensures { result ≡ list_any (λ other. bytes_eq other name.now) names.now }
{
    names.iter().any(|other| other == name)
}

impl Fields {
    ghost use Rattle.layer_store.specs.Layers.{found_in, is_buried, gone_if, IsFound};

    /// Nothing is said yet.
    pub fn new(alloc: Global) -> Fields
        ensures { (f : List ℕ) → found_in result f ≡ None }
    {
        Fields {
            cells: BTreeMap::new(alloc),
            names: Vec::new(alloc),
            dropped: false,
        }
    }

    /// Whether a tombstone covers a field: its own name, or the whole object.
    pub fn is_buried(&self, field: &FieldKey) -> bool
        ensures { result ≡ is_buried self.now field.now }
    {
        self.dropped || names_field(&self.names, field)
    }

    /// Whether a name or the whole object has a tombstone.
    pub fn buries(&self) -> bool
        ensures { result ≡ false → (f : List ℕ) → is_buried self.now f ≡ false }
    {
        self.dropped || !self.names.is_empty()
    }

    /// What is said of a field: a cell, that it is gone, or nothing.
    pub fn find(&self, field: &FieldKey) -> Found<'_>
        ensures { IsFound result (found_in self.now field.now) }
    {
        match self.cells.get(field) {
            Some(Some(cell)) => Found::Cell(cell),
            Some(None) => Found::Gone,
            None => {
                if self.is_buried(field) {
                    Found::Gone
                } else {
                    Found::Nothing
                }
            }
        }
    }

    /// Whether something is said of it.
    pub fn says(&self, field: &FieldKey) -> bool
        ensures { result ≡ is_some (found_in self.now field.now) }
    {
        self.cells.contains_key(field) || self.is_buried(field)
    }

    fn add(&mut self, field: FieldKey, cell: Option<Cell>) -> Result<(), Memory>
        requires { is_some (found_in self.old field) ≡ false }
        ensures { OnOk result ((f : List ℕ) → found_in self.new f ≡ or_else (found_in self.old f) (if bytes_eq field f then Some cell else None)) }
    {
        self.cells.insert(field, cell)?;
        Ok(())
    }

    /// Puts a cell or its tombstone below what is said already.
    pub fn put(&mut self, field: FieldKey, cell: Option<Cell>) -> Result<(), Memory>
        ensures { OnOk result ((f : List ℕ) → found_in self.new f ≡ or_else (found_in self.old f) (if bytes_eq field f then Some cell else None)) }
    {
        if self.says(&field) {
            return Ok(());
        }
        self.add(field, cell)
    }

    /// Puts the tombstone of a name below what is said already.
    pub fn put_name(&mut self, name: Text) -> Result<(), Memory>
        ensures { OnOk result ((f : List ℕ) → found_in self.new f ≡ or_else (found_in self.old f) (gone_if (bytes_eq name (field_name_of f)))) }
    {
        if has_text(&self.names, &name) {
            return Ok(());
        }
        self.names.push(name)?;
        Ok(())
    }

    /// Puts the tombstone of the object, if it is dropped, below what is said already.
    pub fn put_drop(&mut self, dropped: bool)
        ensures { (f : List ℕ) → found_in self.new f ≡ or_else (found_in self.old f) (gone_if dropped) }
    {
        self.dropped = self.dropped || dropped;
    }

    /// Puts a write of this object below what is said already, and answers the object.
    pub fn put_write(&mut self, write: Write) -> Result<EntityKey, Memory>
        ensures entity { IfOk result (λ entity. entity ≡ entity_of write) }
        ensures found { OnOk result ((f : List ℕ) → found_in self.new f ≡ or_else (found_in self.old f) (field_hit write f)) }
    {
        match write {
            Write::Set(entity, field, cell) => {
                self.put(field, Some(cell))?;
                Ok(entity)
            }
            Write::Drop(entity, field) => {
                self.put(field, None)?;
                Ok(entity)
            }
            Write::DropName(entity, name) => {
                self.put_name(name)?;
                Ok(entity)
            }
            Write::DropAll(entity) => {
                self.put_drop(true);
                Ok(entity)
            }
        }
    }

    fn put_copy(
        &mut self,
        alloc: Global,
        field: &FieldKey,
        cell: &Option<Cell>,
    ) -> Result<(), Memory>
        ensures { OnOk result ((f : List ℕ) → found_in self.new f ≡ or_else (found_in self.old f) (if bytes_eq field.now f then Some cell.now else None)) }
    {
        if self.says(field) {
            return Ok(());
        }
        self.add(field.copy()?, copy_cell(alloc, cell)?)
    }

    /// Puts copies of cells and their tombstones below what is said already.
    pub fn put_cells(
        &mut self,
        alloc: Global,
        cells: &BTreeMap<FieldKey, Option<Cell>>,
    ) -> Result<(), Memory>
        ensures { OnOk result ((f : List ℕ) → found_in self.new f ≡ or_else (found_in self.old f) (get text_cmp cells.now f)) }
    {
        'turn: for (field, cell) in cells {
            self.put_copy(alloc, field, cell)?;
        }
        Ok(())
    }

    fn put_names(&mut self, names: &[Text]) -> Result<(), Memory>
        ensures { OnOk result ((f : List ℕ) → found_in self.new f ≡ or_else (found_in self.old f) (gone_if (list_any (λ name. bytes_eq name (field_name_of f)) names.now))) }
    {
        for name in names {
            self.put_name(name.copy()?)?;
        }
        Ok(())
    }

    /// Puts a copy of what an older layer says of this object below what is said already.
    pub fn put_fields(&mut self, alloc: Global, older: &Fields) -> Result<(), Memory>
        ensures { OnOk result ((f : List ℕ) → found_in self.new f ≡ or_else (found_in self.old f) (found_in older.now f)) }
    {
        self.put_cells(alloc, &older.cells)?;
        self.put_names(&older.names)?;
        self.put_drop(older.dropped);
        Ok(())
    }
}

fn copy_cell(alloc: Global, cell: &Option<Cell>) -> Result<Option<Cell>, Memory>
    ensures { IfOk result (λ copy. copy ≡ cell.now) }
{
    match cell {
        Some(cell) => Ok(Some(cell.copy(alloc)?)),
        None => Ok(None),
    }
}
