//! The store.

ghost use Rattle.std.specs.Prelude.{◌≡◌, ◌+◌, ◌-◌, ◌<◌, ◌^◌, ◌↔◌, true, [], length, drop, OnOk, OnErr, IfOk};
ghost use Rattle.std.specs.Option.{option_copied};
ghost use Rattle.cache_model.specs.declared.kind.Kind.TheVariants.{Empty};

use crate::base::Base;
use crate::fields::Found;
use crate::layer::Layer;
use crate::layers::{any_guesses, drop_front, find_through, finished_front, merged, says_from};
use crate::listing::list;
use cache_model::{Cell, Cells, EntityKey, FieldKey, Kind, Writes};
use entity_keys::{Lookup, Steps};
use std::alloc::Global;
use std::collections::VecDeque;
use std::sync::ledger::Ledger;
use text_types::Memory;

/// The number of a content, from 1 on, in order of first sending.
pub type Ticket = u64;

/// Why no ticket was drawn.
#[derive(Clone, Copy, Debug, Drop, PartialEq, Eq)]
pub enum StoreError {
    /// Out of memory.
    Memory,
    /// The next ticket would be 2^63.
    Numbers,
}

/// The layered store. A ticket's content can be replaced until it is finished, also when there are
/// later ones. What is finished from the lowest ticket on can be squashed into the base.
#[derive(Drop)]
pub struct Store {
    alloc: Global,
    base: Base,
    base_len: u64,
    layers: VecDeque<Layer>,
    ghost small: { base_len + length layers.items < 2 ^ 63 },
}

impl Store {
    ghost use Rattle.cache_model.specs.History.{History, BeginsUnfinished, reserved, filled, finished, touched_above, touched_optimistically, flattened};
    ghost use Rattle.cache_model.specs.Listing.{ListsMap};
    ghost use Rattle.layer_store.specs.Stores.{Stands, IsUnchanged, IsKept, IsOpen, CanFinish, base_len_of, kept_len_of, tickets_of, cells_of};

    /// No ticket is drawn yet.
    pub fn new(alloc: Global) -> Store
        ensures { Stands result [] }
    {
        Store {
            alloc,
            base: Base::new(alloc),
            base_len: 0,
            layers: VecDeque::new(alloc),
        }
    }

    /// How many contents are kept above the base. Takes no memory.
    pub fn kept(&self) -> u64
        ensures { result ≡ kept_len_of self.now }
    {
        self.layers.len() as u64
    }

    /// How many contents are squashed into the base. Takes no memory.
    pub fn base_len(&self) -> u64
        ensures { result ≡ base_len_of self.now }
    {
        self.base_len
    }

    /// Draws the next ticket. Its content is Empty.
    pub fn reserve(&mut self) -> Result<Ticket, StoreError>
        ensures numbers { (result ≡ Err StoreError.Numbers) ↔ (tickets_of self.old + 1 ≡ 2 ^ 63) }
        ensures ticket { IfOk result (λ ticket. ticket ≡ tickets_of self.old + 1) }
        ensures base { base_len_of self.new ≡ base_len_of self.old }
        ensures ok { (h : History) → Stands self.old h → OnOk result (Stands self.new (reserved h)) }
        ensures err { OnErr result (IsUnchanged self.old self.new) }
    {
        let ticket = self.base_len + self.layers.len() as u64 + 1;
        if ticket == 1 << 63 {
            return Err(StoreError::Numbers);
        }
        let Ok(()) = self.layers.push_back(Layer::empty(self.alloc)) else {
            return Err(StoreError::Memory);
        };
        Ok(ticket)
    }

    /// Whether a ticket was drawn and isn't finished, so that its content may be filled. Takes no memory.
    pub fn is_open(&self, ticket: Ticket) -> bool
        ensures { (result ≡ true) ↔ IsOpen self.now ticket }
    {
        if ticket <= self.base_len {
            return false;
        }
        match self.layers.get((ticket - self.base_len - 1) as usize) {
            Some(layer) => !layer.finished,
            None => false,
        }
    }

    /// Whether a ticket may be finished: it is open, and its content isn't Optimistic. Takes no memory.
    pub fn can_finish(&self, ticket: Ticket) -> bool
        ensures { (result ≡ true) ↔ CanFinish self.now ticket }
    {
        if ticket <= self.base_len {
            return false;
        }
        match self.layers.get((ticket - self.base_len - 1) as usize) {
            Some(layer) => !layer.finished && layer.kind != Kind::Optimistic,
            None => false,
        }
    }

    /// Replaces the whole content of a ticket that isn't finished, also below later ones.
    pub fn fill(&mut self, ticket: Ticket, writes: Writes, kind: Kind) -> Result<(), Memory>
        requires unfinished { IsOpen self.old ticket }
        requires bare { kind ≡ Empty → writes ≡ [] }
        ensures base { base_len_of self.new ≡ base_len_of self.old }
        ensures ok { (h : History) → Stands self.old h → OnOk result (Stands self.new (filled h ticket writes kind)) }
        ensures err { OnErr result (IsUnchanged self.old self.new) }
    {
        let layer = Layer::of(self.alloc, kind, writes)?;
        let at = (ticket - self.base_len - 1) as usize;
        self.layers[at] = layer;
        Ok(())
    }

    /// Marks a ticket as finished: its content stays as it is. Takes no memory.
    pub fn finish(&mut self, ticket: Ticket)
        requires { CanFinish self.old ticket }
        ensures base { base_len_of self.new ≡ base_len_of self.old }
        ensures stands { (h : History) → Stands self.old h → Stands self.new (finished h ticket) }
    {
        let at = (ticket - self.base_len - 1) as usize;
        self.layers[at].finished = true;
    }

    /// Moves the finished contents below the first unfinished one into the base. No look-up changes.
    pub fn squash(&mut self) -> Result<(), Memory>
        ensures tickets { tickets_of self.new ≡ tickets_of self.old }
        ensures ok { (h : History) → Stands self.old h → OnOk result (Stands self.new h) }
        ensures front { (h : History) → Stands self.old h → OnOk result (BeginsUnfinished (drop (base_len_of self.new) h)) }
        ensures err { OnErr result (IsUnchanged self.old self.new) }
    {
        let count = finished_front(&self.layers);
        let changes = merged(self.alloc, &self.layers, count)?;
        self.base.take_in(self.alloc, changes)?;
        drop_front(&mut self.layers, count);
        self.base_len += count as u64;
        Ok(())
    }

    /// Whether a later ticket's content covers the cell. Takes no memory.
    pub fn lookup_above(&self, ticket: Ticket, entity: &EntityKey, field: &FieldKey) -> bool
        requires { IsKept self.now ticket }
        ensures { (h : History) → Stands self.now h → result ≡ touched_above h ticket entity.now field.now }
    {
        let at = (ticket - self.base_len) as usize;
        says_from(&self.layers, at, entity, field)
    }

    /// Whether an Optimistic content covers the cell. Takes no memory.
    pub fn touched(&self, entity: &EntityKey, field: &FieldKey) -> bool
        ensures { (h : History) → Stands self.now h → result ≡ touched_optimistically h entity.now field.now }
    {
        any_guesses(&self.layers, entity, field)
    }

    /// All cells, by the bytes of the object's key and then of the field's key. Each is one step, and
    /// a refusal takes none.
    pub fn flat<L: Ledger>(&self, steps: &mut Steps<L>) -> Result<Cells, Memory>
        ensures ok { (h : History) → Stands self.now h → IfOk result (λ cells. ListsMap cells (flattened h)) }
        ensures counted { IfOk result (λ cells. steps.new ≡ steps.old + length cells) }
        ensures refused { OnErr result (steps.new ≡ steps.old) }
    {
        let mut changes = merged(self.alloc, &self.layers, self.layers.len())?;
        changes.put_base(self.alloc, &self.base)?;
        let cells = list(self.alloc, changes)?;
        steps.add(cells.len() as u64);
        Ok(cells)
    }

    fn find(&self, entity: &EntityKey, field: &FieldKey) -> Option<&Cell>
        ensures { option_copied result ≡ cells_of self.now entity.now field.now }
    {
        match find_through(&self.layers, entity, field) {
            Found::Cell(cell) => Some(cell),
            Found::Gone => None,
            Found::Nothing => self.base.get(entity, field),
        }
    }
}

impl Lookup for Store {
    ghost use Rattle.cache_model.specs.History.{History, flattened};
    ghost use Rattle.layer_store.specs.Stores.{Stands, cells_of};

    ghost cells = { cells_of };

    fn lookup<L: Ledger>(
        &self,
        entity: &EntityKey,
        field: &FieldKey,
        steps: &mut Steps<L>,
    ) -> Option<&Cell>
        ensures found { option_copied result ≡ cells_of self.now entity.now field.now }
        ensures counted { steps.new ≡ steps.old + 1 }
        ensures flattened { (h : History) → Stands self.now h → option_copied result ≡ flattened h entity.now field.now }
    {
        steps.add(1);
        self.find(entity, field)
    }
}
