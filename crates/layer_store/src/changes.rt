//! What some writes leave of themselves: cells and tombstones by object.

ghost use Rattle.std.specs.Prelude.{◌≡◌, ℕ, List, Some, None, false, if◌then◌else◌, OnOk, IfOk, is_some, bytes_eq};
ghost use Rattle.std.specs.BTreeMap.{get, btree_map_len};
ghost use Rattle.text_types.specs.Texts.{text_cmp};
ghost use Rattle.cache_model.specs.Maps.{hit, effect, or_else};

use crate::base::Base;
use crate::fields::{Fields, Found};
use crate::places::Places;
use cache_model::{EntityKey, FieldKey, Write, Writes};
use std::alloc::Global;
use std::collections::BTreeMap;
use text_types::Memory;

/// Cells and tombstones by object.
#[derive(Drop)]
pub struct Changes {
    pub entities: BTreeMap<EntityKey, Fields>,
}

impl Changes {
    ghost use Rattle.layer_store.specs.Layers.{found_in, found_by, IsFound};
    ghost use Rattle.layer_store.specs.Bases.{place_at};

    /// Nothing is said yet.
    pub fn new(alloc: Global) -> Changes
        ensures said { (e f : List ℕ) → found_by result e f ≡ None }
        ensures none { btree_map_len result.entities ≡ 0 }
    {
        Changes {
            entities: BTreeMap::new(alloc),
        }
    }

    fn take(&mut self, alloc: Global, entity: &EntityKey) -> Fields
        ensures here { (f : List ℕ) → found_in result f ≡ found_by self.old entity.now f }
        ensures others { (e : List ℕ) → bytes_eq entity.now e ≡ false → get text_cmp self.new.entities e ≡ get text_cmp self.old.entities e }
    {
        match self.entities.remove(entity) {
            Some(fields) => fields,
            None => Fields::new(alloc),
        }
    }

    fn put(&mut self, entity: EntityKey, fields: Fields) -> Result<(), Memory>
        ensures { OnOk result ((e : List ℕ) → get text_cmp self.new.entities e ≡ (if bytes_eq entity e then Some fields else get text_cmp self.old.entities e)) }
    {
        self.entities.insert(entity, fields)?;
        Ok(())
    }

    /// Puts a write below what is said already.
    fn put_write(&mut self, alloc: Global, write: Write) -> Result<(), Memory>
        ensures { OnOk result ((e f : List ℕ) → found_by self.new e f ≡ or_else (found_by self.old e f) (hit write e f)) }
    {
        let mut fields = self.take(alloc, write.entity());
        let entity = fields.put_write(write)?;
        self.put(entity, fields)
    }

    /// Puts a copy of what an older layer says of one object below what is said already.
    fn put_fields(
        &mut self,
        alloc: Global,
        entity: &EntityKey,
        older: &Fields,
    ) -> Result<(), Memory>
        ensures { OnOk result ((e f : List ℕ) → found_by self.new e f ≡ or_else (found_by self.old e f) (if bytes_eq entity.now e then found_in older.now f else None)) }
    {
        let mut fields = self.take(alloc, entity);
        fields.put_fields(alloc, older)?;
        self.put(entity.copy()?, fields)
    }

    /// Puts a copy of older changes below what is said already.
    pub fn put_changes(&mut self, alloc: Global, older: &Changes) -> Result<(), Memory>
        ensures { OnOk result ((e f : List ℕ) → found_by self.new e f ≡ or_else (found_by self.old e f) (found_by older.now e f)) }
    {
        'turn: for (entity, fields) in &older.entities {
            self.put_fields(alloc, entity, fields)?;
        }
        Ok(())
    }

    fn put_places(
        &mut self,
        alloc: Global,
        entity: &EntityKey,
        places: &Places,
    ) -> Result<(), Memory>
        ensures { OnOk result ((e f : List ℕ) → found_by self.new e f ≡ or_else (found_by self.old e f) (if bytes_eq entity.now e then get text_cmp places.now f else None)) }
    {
        let mut fields = self.take(alloc, entity);
        fields.put_cells(alloc, places)?;
        self.put(entity.copy()?, fields)
    }

    /// Puts a copy of the base below what is said already.
    pub fn put_base(&mut self, alloc: Global, base: &Base) -> Result<(), Memory>
        ensures { OnOk result ((e f : List ℕ) → found_by self.new e f ≡ or_else (found_by self.old e f) (place_at base.now e f)) }
    {
        'turn: for (entity, places) in &base.entities {
            self.put_places(alloc, entity, places)?;
        }
        Ok(())
    }

    /// What the changes say of a place: a cell, that it is gone, or nothing.
    pub fn find(&self, entity: &EntityKey, field: &FieldKey) -> Found<'_>
        ensures { IsFound result (found_by self.now entity.now field.now) }
    {
        match self.entities.get(entity) {
            Some(fields) => fields.find(field),
            None => Found::Nothing,
        }
    }

    /// Whether they say something of it.
    pub fn says(&self, entity: &EntityKey, field: &FieldKey) -> bool
        ensures { result ≡ is_some (found_by self.now entity.now field.now) }
    {
        match self.entities.get(entity) {
            Some(fields) => fields.says(field),
            None => false,
        }
    }
}

ghost use Rattle.layer_store.specs.Layers.{found_by};

/// What these writes leave. The last of them is put first, so nothing is put in vain.
pub fn changes_of(alloc: Global, writes: Writes) -> Result<Changes, Memory>
    ensures { IfOk result (λ changes. (e f : List ℕ) → found_by changes e f ≡ effect writes e f) }
{
    let mut changes = Changes::new(alloc);
    let mut left = writes.into_vec();
    'turn: while let Some(write) = left.pop() {
        changes.put_write(alloc, write)?;
    }
    Ok(changes)
}
