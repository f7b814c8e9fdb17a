//! The squashed base.

ghost use Rattle.std.specs.Prelude.{◌≡◌, ℕ, List, Some, None, true, false, unwrap_or, OnOk, OnErr, is_some};
ghost use Rattle.std.specs.BTreeMap.{get};
ghost use Rattle.std.specs.Ordering.{is_eq};
ghost use Rattle.std.specs.Option.{option_copied};
ghost use Rattle.text_types.specs.Texts.{text_cmp};
ghost use Rattle.layer_store.specs.Layers.{found_in, found_by};
ghost use Rattle.layer_store.specs.Bases.{base_at, has_place, is_cell, sets};

use crate::changes::Changes;
use crate::fields::Fields;
use crate::places::{Places, absorb_fields, clear_places, make_places};
use cache_model::{Cell, EntityKey, FieldKey};
use std::alloc::Global;
use std::collections::BTreeMap;
use text_types::Memory;

/// The cells of the squashed contents, by object.
#[derive(Drop)]
pub struct Base {
    pub entities: BTreeMap<EntityKey, Places>,
}

impl Base {
    /// No cells yet.
    pub fn new(alloc: Global) -> Base
        ensures { (e f : List ℕ) → base_at result e f ≡ None }
    {
        Base {
            entities: BTreeMap::new(alloc),
        }
    }

    /// The cell of a place, where it has one.
    pub fn get(&self, entity: &EntityKey, field: &FieldKey) -> Option<&Cell>
        ensures { option_copied result ≡ base_at self.now entity.now field.now }
    {
        match self.entities.get(entity) {
            Some(places) => match places.get(field) {
                Some(Some(cell)) => Some(cell),
                _ => None,
            },
            None => None,
        }
    }

    /// Makes the object's part of the base where there is none.
    fn make_entity(&mut self, alloc: Global, entity: &EntityKey) -> Result<(), Memory>
        ensures same { (e f : List ℕ) → base_at self.new e f ≡ base_at self.old e f }
        ensures kept { (e f : List ℕ) → has_place self.old e f ≡ true → has_place self.new e f ≡ true }
        ensures room { OnOk result (is_some (get text_cmp self.new.entities entity.now) ≡ true) }
    {
        if self.entities.contains_key(entity) {
            return Ok(());
        }
        self.entities.insert(entity.copy()?, BTreeMap::new(alloc))?;
        Ok(())
    }

    fn make_places(&mut self, entity: &EntityKey, fields: &Fields) -> Result<(), Memory>
        requires { is_some (get text_cmp self.old.entities entity.now) ≡ true }
        ensures same { (e f : List ℕ) → base_at self.new e f ≡ base_at self.old e f }
        ensures kept { (e f : List ℕ) → has_place self.old e f ≡ true → has_place self.new e f ≡ true }
        ensures room { OnOk result ((f : List ℕ) → is_cell (get text_cmp fields.now.cells f) ≡ true → has_place self.new entity.now f ≡ true) }
    {
        match self.entities.get_mut(entity) {
            Some(places) => make_places(places, fields),
            None => unreachable!(),
        }
    }

    /// Makes a place for each cell of some changes. No cell changes.
    fn make_room(&mut self, alloc: Global, changes: &Changes) -> Result<(), Memory>
        ensures same { (e f : List ℕ) → base_at self.new e f ≡ base_at self.old e f }
        ensures room { OnOk result ((e f : List ℕ) → sets changes.now e f ≡ true → has_place self.new e f ≡ true) }
    {
        'turn: for (entity, fields) in &changes.entities {
            self.make_entity(alloc, entity)?;
            self.make_places(entity, fields)?;
        }
        Ok(())
    }

    fn clear_places(&mut self, entity: &EntityKey, fields: &Fields)
        ensures { (e f : List ℕ) → base_at self.new e f ≡ base_at self.old e f }
    {
        if let Some(places) = self.entities.get_mut(entity) {
            clear_places(places, fields);
        }
    }

    fn has_no_place(&self, entity: &EntityKey) -> bool
        ensures { result ≡ true → (f : List ℕ) → has_place self.now entity.now f ≡ false }
    {
        match self.entities.get(entity) {
            Some(places) => places.is_empty(),
            None => false,
        }
    }

    /// Takes the object's part away where it has no place.
    fn prune(&mut self, entity: &EntityKey)
        ensures same { (e f : List ℕ) → base_at self.new e f ≡ base_at self.old e f }
        ensures kept { (e f : List ℕ) → has_place self.old e f ≡ true → has_place self.new e f ≡ true }
    {
        if self.has_no_place(entity) {
            self.entities.remove(entity);
        }
    }

    /// Takes away the empty places that were made for some changes. No cell changes.
    fn clear_room(&mut self, changes: &Changes)
        ensures { (e f : List ℕ) → base_at self.new e f ≡ base_at self.old e f }
    {
        'turn: for (entity, fields) in &changes.entities {
            self.clear_places(entity, fields);
            self.prune(entity);
        }
    }

    fn absorb_entity(&mut self, entity: &EntityKey, fields: Fields)
        requires { (f : List ℕ) → is_cell (get text_cmp fields.cells f) ≡ true → has_place self.old entity.now f ≡ true }
        ensures here { (f : List ℕ) → base_at self.new entity.now f ≡ unwrap_or (found_in fields f) (base_at self.old entity.now f) }
        ensures others { (e : List ℕ) → is_eq (text_cmp entity.now e) ≡ false → get text_cmp self.new.entities e ≡ get text_cmp self.old.entities e }
    {
        if let Some(places) = self.entities.get_mut(entity) {
            absorb_fields(places, fields);
        }
    }

    /// Does what some changes say, where there is a place for each of their cells.
    fn absorb(&mut self, changes: Changes)
        requires { (e f : List ℕ) → sets changes e f ≡ true → has_place self.old e f ≡ true }
        ensures { (e f : List ℕ) → base_at self.new e f ≡ unwrap_or (found_by changes e f) (base_at self.old e f) }
    {
        let Changes { entities } = changes;
        let mut left = entities;
        'turn: while let Some((entity, fields)) = left.pop_first() {
            self.absorb_entity(&entity, fields);
            self.prune(&entity);
        }
    }

    /// Does what some changes say, or changes no cell.
    pub fn take_in(&mut self, alloc: Global, changes: Changes) -> Result<(), Memory>
        ensures ok { OnOk result ((e f : List ℕ) → base_at self.new e f ≡ unwrap_or (found_by changes e f) (base_at self.old e f)) }
        ensures err { OnErr result ((e f : List ℕ) → base_at self.new e f ≡ base_at self.old e f) }
    {
        match self.make_room(alloc, &changes) {
            Ok(()) => {
                self.absorb(changes);
                Ok(())
            }
            Err(Memory) => {
                self.clear_room(&changes);
                Err(Memory)
            }
        }
    }
}
