ghost use Rattle.std.specs.Prelude.{◌≡◌, [], ◌∷◌, ◌++◌, IfOk, List, length, slice_get};
ghost use Rattle.std.specs.Option.{option_copied, option_and_then};
ghost use Rattle.gql_model.specs.declared.document.Definition.{Definition};
ghost use Rattle.gql_model.specs.Documents.{of_fragment};
ghost use Rattle.check_model.specs.Executables.{as_fragment, fragment_named};
ghost use Rattle.fragment_rules.specs.Indexes.{Indexes, place_in};

use gql_model::{Definition, Document, Fragment};
use std::alloc::Global;
use std::collections::BTreeMap;
use text_types::{Memory, Text};

/// The place of each fragment among the definitions of a document, by its name; of two of one name the
/// first.
#[derive(Drop)]
pub struct FragmentIndex {
    places: BTreeMap<Text, usize>,
}

impl FragmentIndex {
    /// The index of the fragments of a document.
    pub fn of(alloc: Global, document: &Document) -> Result<FragmentIndex, Memory>
        ensures { IfOk result (λ index. Indexes index document.now.definitions) }
    {
        let mut index = FragmentIndex::new(alloc);
        'definitions: for (place, definition) in document
            .definitions
            .as_slice()
            .iter()
            .enumerate()
        {
            index = index.note(definition, place)?;
        }
        Ok(index)
    }

    fn new(alloc: Global) -> FragmentIndex
        ensures { Indexes result [] }
    {
        FragmentIndex {
            places: BTreeMap::new(alloc),
        }
    }

    /// Takes in one definition more.
    fn note(self, definition: &Definition, place: usize) -> Result<FragmentIndex, Memory>
        ensures { (ds : List Definition) → Indexes self ds → place ≡ length ds → IfOk result (λ index. Indexes index (ds ++ definition.now ∷ [])) }
    {
        match definition {
            Definition::Fragment(fragment) => self.note_fragment(fragment, place),
            _ => Ok(self),
        }
    }

    fn note_fragment(self, fragment: &Fragment, place: usize) -> Result<FragmentIndex, Memory>
        ensures { (ds : List Definition) → Indexes self ds → place ≡ length ds → IfOk result (λ index. Indexes index (ds ++ of_fragment fragment.now ∷ [])) }
    {
        let name = &fragment.name.text;
        if self.places.contains_key(name) {
            return Ok(self);
        }
        let FragmentIndex { mut places } = self;
        places.insert(name.copy()?, place)?;
        Ok(FragmentIndex { places })
    }

    /// The place of the fragment of a name.
    pub fn place_of(&self, name: &Text) -> Option<usize>
        ensures { result ≡ place_in self.now name.now }
    {
        self.places.get(name).copied()
    }

    /// The fragment of a name, of the document that this is the index of.
    pub fn fragment<'a>(&self, document: &'a Document, name: &Text) -> Option<&'a Fragment>
        ensures { Indexes self.now document.now.definitions → option_copied result ≡ fragment_named document.now name.now }
    {
        match self.place_of(name) {
            Some(place) => fragment_at(document.definitions.as_slice(), place),
            None => None,
        }
    }
}

/// The fragment that stands at a place among the definitions of a document.
pub fn fragment_at(definitions: &[Definition], place: usize) -> Option<&Fragment>
    ensures { option_copied result ≡ option_and_then as_fragment (slice_get definitions.now place) }
{
    match definitions.get(place) {
        Some(definition) => as_fragment(definition),
        None => None,
    }
}

fn as_fragment(definition: &Definition) -> Option<&Fragment>
    ensures { option_copied result ≡ as_fragment definition.now }
{
    match definition {
        Definition::Fragment(fragment) => Some(fragment),
        _ => None,
    }
}
