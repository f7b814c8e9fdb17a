ghost use Rattle.std.specs.Prelude.{◌≡◌, ◌++◌, [], ◌∷◌, ◌+◌, IfOk, OnOk, length, slice_get};
ghost use Rattle.std.specs.Option.{option_copied};
ghost use Rattle.gql_model.specs.declared.document.Document.{Document};
ghost use Rattle.gql_numbering.specs.Beginnings.{sets_of, fields_of};
ghost use Rattle.gql_numbering.specs.Marks.{marks_of, definition_marks};
ghost use Rattle.gql_numbering.specs.Numbers.{Numbers, set_hanging, selection_at};
ghost use Rattle.gql_numbering.specs.Numbered as spec;

use crate::building::number_document;
use crate::mark::{Home, Mark, Spot};
use crate::parts::{as_field, inner_set, set_of_definition};
use gql_model::{Document, Field, Selection, SelectionSet};
use std::alloc::Global;
use std::mem;
use text_types::{Items, Memory};

/// The numbers of a document's selection sets and fields.
#[derive(Drop)]
pub struct Numbering {
    homes: Items<Home>,
    spots: Items<Spot>,
    marks: Items<Items<Mark>>,
    definitions: Items<Mark>,
}

impl Numbering {
    /// Numbers a document, in one pass over it.
    #[tactic(auto, using(crate::proofs::DocumentLaws::numbers_document))]
    pub fn new(alloc: Global, document: &Document) -> Result<Numbering, Memory>
        ensures { IfOk result (λ numbering. Numbers numbering document.now) }
    {
        number_document(alloc, document)
    }

    /// How many selection sets the document has.
    pub fn set_count(&self) -> u64
        ensures { (document : Document) → Numbers self.now document → result ≡ length (sets_of document) }
    {
        self.homes.len() as u64
    }

    /// How many fields the document has.
    pub fn field_count(&self) -> u64
        ensures { (document : Document) → Numbers self.now document → result ≡ length (fields_of document) }
    {
        self.spots.len() as u64
    }

    /// The selection set with this number, where the numbering is that of the document. It climbs to
    /// the set's definition and comes back, which takes as many steps as the set is deep, and no memory.
    #[cycle(climb)]
    pub fn set<'a>(&self, document: &'a Document, number: u64) -> Option<&'a SelectionSet>
        ensures { Numbers self.now document.now → option_copied result ≡ slice_get (sets_of document.now) number }
    {
        match self.homes.get(number as usize)? {
            Home::Definition(at) => set_of_definition(document.definitions.get(*at as usize)?),
            Home::Selection(spot) => {
                if spot.set < number {
                    inner_set(self.selection(document, *spot)?)
                } else {
                    None
                }
            }
        }
    }

    #[cycle(climb)]
    fn selection<'a>(&self, document: &'a Document, spot: Spot) -> Option<&'a Selection>
        ensures { Numbers self.now document.now → option_copied result ≡ selection_at (sets_of document.now) spot }
    {
        self.set(document, spot.set)?
            .selections
            .get(spot.at as usize)
    }

    /// The field with this number, where the numbering is that of the document. It takes as many
    /// steps as the field's set is deep, and no memory.
    pub fn field<'a>(&self, document: &'a Document, number: u64) -> Option<&'a Field>
        ensures { Numbers self.now document.now → option_copied result ≡ slice_get (fields_of document.now) number }
    {
        let spot = *self.spots.get(number as usize)?;
        as_field(self.selection(document, spot)?)
    }

    /// The marks before each selection of the set with this number, in order: where a selection is a
    /// field, its mark tells the field's number, and where it carries a set, that set's number.
    pub fn marks(&self, set: u64) -> Option<&[Mark]>
        ensures { (document : Document) → Numbers self.now document → option_copied result ≡ slice_get (marks_of document) set }
    {
        Some(self.marks.get(set as usize)?.as_slice())
    }

    /// The mark before the definition at this place: where it has a selection set, that set's number.
    pub fn definition(&self, at: usize) -> Option<Mark>
        ensures { (document : Document) → Numbers self.now document → result ≡ slice_get (definition_marks document) at }
    {
        self.definitions.get(at).copied()
    }

    pub(crate) fn empty(alloc: Global) -> Numbering
        ensures { result ≡ spec.empty }
    {
        Numbering {
            homes: Items::new(alloc),
            spots: Items::new(alloc),
            marks: Items::new(alloc),
            definitions: Items::new(alloc),
        }
    }

    pub(crate) fn mark(&self) -> Mark
        ensures { result ≡ spec.mark_in self.now }
    {
        Mark {
            sets: self.homes.len() as u64,
            fields: self.spots.len() as u64,
        }
    }

    /// Gives the next number to a set that hangs here.
    pub(crate) fn open(&mut self, alloc: Global, home: Home) -> Result<u64, Memory>
        ensures number { IfOk result (λ number. number ≡ length self.old.homes) }
        ensures ok { OnOk result (self.new ≡ spec.opened home self.old) }
    {
        let number = self.homes.len() as u64;
        self.homes.push(home)?;
        self.marks.push(Items::new(alloc))?;
        Ok(number)
    }

    /// Keeps the marks of the set with this number.
    pub(crate) fn close(&mut self, number: u64, marks: Items<Mark>)
        ensures { self.new ≡ spec.closed number (record { marks = marks; numbering = self.old }) }
    {
        let alloc = self.marks.allocator();
        let mut all = mem::replace(&mut self.marks, Items::new(alloc)).into_vec();
        if let Some(place) = all.get_mut(number as usize) {
            *place = marks;
        }
        self.marks = Items::from_vec(all);
    }

    /// Gives the next number to a field that stands here.
    pub(crate) fn push_field(&mut self, spot: Spot) -> Result<(), Memory>
        ensures { OnOk result (self.new ≡ spec.with_field spot self.old) }
    {
        self.spots.push(spot)
    }

    pub(crate) fn push_definition(&mut self) -> Result<(), Memory>
        ensures { OnOk result (self.new ≡ record self.old { definitions = self.old.definitions ++ spec.mark_in self.old ∷ [] }) }
    {
        let mark = self.mark();
        self.definitions.push(mark)
    }
}
