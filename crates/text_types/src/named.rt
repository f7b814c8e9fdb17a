ghost use Rattle.std.specs.Prelude.{◌≡◌, [], ◌∷◌, ◌++◌, length, OnOk, OnErr, OnSome, IsTrue, ◌↔◌, ◌<◌, slice_get};
ghost use Rattle.std.specs.Option.{option_copied};
ghost use Rattle.text_types.specs.Names.{HasDistinctNames, Lacks};

use crate::memory::Memory;
use crate::text::Text;
use std::alloc::Global;
use std::marker::Model;

/// Pairs of a name and a value, in order. No two have one name. It may hold the type that holds it.
#[derive(Debug, Drop)]
pub struct Named<T> {
    pairs: Vec<(Text, T)>,
}

impl<T> Model for Named<T> {
    ghost use Rattle.std.specs.Prelude.{List, ℕ};
    ghost use Rattle.std.specs.Coded.{coded_list, coded×, coded_ℕ};

    ghost Value = { List (List ℕ × T) };

    ghost coded = { coded_list (coded× (coded_list coded_ℕ) T.code) };

    ghost use Rattle.text_types.specs.Names.{HasDistinctNames};

    ghost view = { λ n. n.pairs.items };

    ghost invariant = { λ n. HasDistinctNames n.pairs.items };
}

impl<T> Named<T> {
    /// No pairs yet. Takes no memory.
    pub fn new(alloc: Global) -> Named<T>
        ensures { result ≡ [] }
    {
        Named {
            pairs: Vec::new(alloc),
        }
    }

    /// The pairs, as a vector.
    pub fn into_vec(self) -> Vec<(Text, T)>
        ensures { result.items ≡ self }
    {
        self.pairs
    }

    /// The pairs, in the order in which they were put.
    pub fn as_slice(&self) -> &[(Text, T)]
        ensures pairs { result.now ≡ self.now }
        ensures names { HasDistinctNames self.now }
    {
        self.pairs.as_slice()
    }

    /// How many pairs there are.
    pub fn len(&self) -> usize
        ensures { result ≡ length self.now }
    {
        self.pairs.len()
    }

    /// The pair at a place, counted from 0.
    pub fn get(&self, at: usize) -> Option<&(Text, T)>
        ensures value { option_copied result ≡ slice_get self.now at }
        ensures within { OnSome result (at < length self.now) }
    {
        self.pairs.get(at)
    }

    /// Whether there are none.
    pub fn is_empty(&self) -> bool
        ensures { IsTrue result ↔ self.now ≡ [] }
    {
        self.pairs.is_empty()
    }

    /// Where the memory comes from.
    pub fn allocator(&self) -> Global {
        *self.pairs.allocator()
    }
}

impl<T: Drop> Named<T> {
    /// Puts a pair behind the others; its name is none of theirs. The one error is want of memory, and it
    /// changes nothing.
    pub fn push(&mut self, name: Text, value: T) -> Result<(), Memory>
        requires { Lacks self.old name }
        ensures ok { OnOk result (self.new ≡ self.old ++ (name, value) ∷ []) }
        ensures err { OnErr result (self.new ≡ self.old) }
    {
        self.pairs.push((name, value))?;
        Ok(())
    }
}
