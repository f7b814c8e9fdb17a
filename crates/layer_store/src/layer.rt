//! The layer of one ticket.

ghost use Rattle.std.specs.Prelude.{◌≡◌, ℕ, List, [], None, ◌&&◌, false, IfOk, is_some};
ghost use Rattle.std.specs.BTreeMap.{btree_map_len};
ghost use Rattle.cache_model.specs.Maps.{effect};
ghost use Rattle.cache_model.specs.History.{is_optimistic};
ghost use Rattle.cache_model.specs.declared.kind.Kind.TheVariants.{Empty};

use crate::changes::{Changes, changes_of};
use crate::fields::Found;
use cache_model::{EntityKey, FieldKey, Kind, Writes};
use std::alloc::Global;
use text_types::Memory;

/// The kind and mark of a ticket's content, with its cells and tombstones.
#[derive(Drop)]
pub struct Layer {
    pub kind: Kind,
    pub finished: bool,
    pub changes: Changes,
    ghost bare: { kind ≡ Empty → btree_map_len changes.entities ≡ 0 },
}

ghost use Rattle.std.specs.BTreeMap.{btree_map_len};

impl Layer {
    ghost use Rattle.layer_store.specs.Layers.{found_by, IsFound};

    /// The layer of a ticket that was just drawn.
    pub fn empty(alloc: Global) -> Layer
        ensures kind { result.kind ≡ Empty }
        ensures mark { result.finished ≡ false }
        ensures nothing { (e f : List ℕ) → found_by result.changes e f ≡ None }
    {
        Layer {
            kind: Kind::Empty,
            finished: false,
            changes: Changes::new(alloc),
        }
    }

    /// The layer of a content that isn't finished.
    pub fn of(alloc: Global, kind: Kind, writes: Writes) -> Result<Layer, Memory>
        requires { kind ≡ Empty → writes ≡ [] }
        ensures kind { IfOk result (λ layer. layer.kind ≡ kind) }
        ensures mark { IfOk result (λ layer. layer.finished ≡ false) }
        ensures said { IfOk result (λ layer. (e f : List ℕ) → found_by layer.changes e f ≡ effect writes e f) }
    {
        match kind {
            Kind::Empty => Ok(Layer::empty(alloc)),
            _ => Ok(Layer {
                kind,
                finished: false,
                changes: changes_of(alloc, writes)?,
            }),
        }
    }

    /// What the layer says of a place: a cell, that it is gone, or nothing.
    pub fn find(&self, entity: &EntityKey, field: &FieldKey) -> Found<'_>
        ensures { IsFound result (found_by self.now.changes entity.now field.now) }
    {
        match self.kind {
            Kind::Empty => Found::Nothing,
            _ => self.changes.find(entity, field),
        }
    }

    /// Whether it says something of it.
    pub fn says(&self, entity: &EntityKey, field: &FieldKey) -> bool
        ensures { result ≡ is_some (found_by self.now.changes entity.now field.now) }
    {
        match self.kind {
            Kind::Empty => false,
            _ => self.changes.says(entity, field),
        }
    }

    /// Whether it is Optimistic and says something of the cell.
    pub fn guesses(&self, entity: &EntityKey, field: &FieldKey) -> bool
        ensures { result ≡ (is_optimistic self.now.kind && is_some (found_by self.now.changes entity.now field.now)) }
    {
        match self.kind {
            Kind::Optimistic => self.changes.says(entity, field),
            _ => false,
        }
    }
}
