ghost use Rattle.std.specs.Prelude.{◌≡◌, [], ◌∷◌, ◌++◌, None, is_some, IfOk, OnSome, ◌<◌, length, slice_get};
ghost use Rattle.std.specs.Option.{option_copied};
ghost use Rattle.text_types.specs.Names.{HasDistinctNames};
ghost use Rattle.schema_model.specs.Tables.{entry, place_of, put};

use std::alloc::Global;
use std::collections::BTreeMap;
use std::marker::Model;
use text_types::{Memory, Named, Text};

/// Values by name, in the order in which they were added. Contracts see the list of pairs, in which
/// no name stands twice. A name is found in logarithmic time.
#[derive(Drop)]
pub struct Table<T> {
    pairs: Named<T>,
    places: BTreeMap<Text, usize>,
}

impl<T> Model for Table<T> {
    ghost use Rattle.std.specs.Prelude.{◌≡◌, List, ℕ};
    ghost use Rattle.std.specs.Coded.{coded_list, coded×, coded_ℕ};
    ghost use Rattle.std.specs.BTreeMap.{get};
    ghost use Rattle.text_types.specs.Texts.{text_cmp};
    ghost use Rattle.schema_model.specs.Tables.{place_of};

    ghost Value = { List (List ℕ × T) };

    ghost coded = { coded_list (coded× (coded_list coded_ℕ) T.code) };

    ghost view = { λ t. t.pairs };

    ghost invariant = { λ t. (name : List ℕ) → get text_cmp t.places name ≡ place_of t.pairs name };
}

impl<T> Table<T> {
    /// No pairs yet. Takes no memory.
    pub fn new(alloc: Global) -> Table<T>
        ensures { result ≡ [] }
    {
        Table {
            pairs: Named::new(alloc),
            places: BTreeMap::new(alloc),
        }
    }

    /// The pairs in the order in which they were added.
    pub fn as_slice(&self) -> &[(Text, T)]
        ensures pairs { result.now ≡ self.now }
        ensures names { HasDistinctNames self.now }
    {
        self.pairs.as_slice()
    }

    /// How many pairs there are.
    pub fn len(&self) -> usize
        ensures { result ≡ length self.now }
    {
        self.pairs.len()
    }

    /// The place of a name among the pairs, counted from 0. Takes no memory.
    pub fn place_of(&self, name: &Text) -> Option<usize>
        ensures { result ≡ place_of self.now name.now }
    {
        self.places.get(name).copied()
    }

    /// Whether there is a value of a name. Takes no memory.
    pub fn has(&self, name: &Text) -> bool
        ensures { result ≡ is_some (entry self.now name.now) }
    {
        self.get(name).is_some()
    }

    /// The pair at a place.
    pub fn at(&self, place: usize) -> Option<&(Text, T)>
        ensures value { option_copied result ≡ slice_get self.now place }
        ensures within { OnSome result (place < length self.now) }
    {
        self.pairs.get(place)
    }

    /// The value of a name. Takes no memory.
    pub fn get(&self, name: &Text) -> Option<&T>
        ensures { option_copied result ≡ entry self.now name.now }
    {
        let place = self.place_of(name)?;
        match self.pairs.get(place) {
            Some((_, value)) => Some(value),
            None => None,
        }
    }
}

impl<T: Drop> Table<T> {
    /// The table with one pair more, or as it is where the name is there.
    pub fn put(self, name: Text, value: T) -> Result<Table<T>, Memory>
        ensures { IfOk result (λ table. table ≡ put self (name, value)) }
    {
        if self.place_of(&name).is_some() {
            Ok(self)
        } else {
            self.with(name, value)
        }
    }

    fn with(self, name: Text, value: T) -> Result<Table<T>, Memory>
        requires { place_of self name ≡ None }
        ensures { IfOk result (λ table. table ≡ self ++ (name, value) ∷ []) }
    {
        let Table {
            mut pairs,
            mut places,
        } = self;
        places.insert(name.copy()?, pairs.len())?;
        pairs.push(name, value)?;
        Ok(Table { pairs, places })
    }
}
