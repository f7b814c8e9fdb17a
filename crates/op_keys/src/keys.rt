//! The numbers of identities.

ghost use Rattle.std.specs.Prelude.{◌≡◌, ◌<◌, [], true, false, length, Some, IfOk, OnOk, OnErr, IsErrOf, ◌↔◌};
ghost use Rattle.op_keys.specs.Identities as spec;
ghost use Rattle.op_keys.specs.KeyParts.{of_key};
ghost use Rattle.op_keys.specs.declared.keys.KeysError.TheVariants.{Numbers, Memory};

use crate::identity::Identity;
use indexmap::IndexSet;
use std::alloc::{AllocFailed, Global};
use std::marker::Model;

/// Why an identity gets no number.
#[derive(Clone, Copy, Debug, Drop, PartialEq, Eq)]
pub enum KeysError {
    /// Each number is taken.
    Numbers,
    Memory,
}

impl From<AllocFailed<Key>> for KeysError {
    ghost from_gives = { λ _ e. e ≡ Rattle.op_keys.specs.declared.keys.KeysError.TheVariants.Memory };

    fn from(_: AllocFailed<Key>) -> KeysError {
        KeysError::Memory
    }
}

/// An identity as it is looked up.
#[derive(PartialEq, Eq, Hash, Drop)]
struct Key {
    document: String,
    operation: String,
    variables: String,
}

fn key_of(identity: Identity) -> Key
    ensures { of_key result ≡ identity }
{
    Key {
        document: identity.document.into_string(),
        operation: identity.operation.into_string(),
        variables: identity.variables.into_string(),
    }
}

/// How many identities can have a number.
const MOST: usize = 4294967295;

/// Identities in the order of their numbers, which count from 0. Contracts see the list of them.
#[derive(Drop)]
pub struct Keys {
    keys: IndexSet<Key>,
}

impl Model for Keys {
    ghost use Rattle.std.specs.Prelude.{map, length, ◌≤◌};
    ghost use Rattle.std.specs.Coded.{codes};
    ghost use Rattle.op_keys.specs.Identities.{Identities, most};
    ghost use Rattle.op_keys.specs.KeyParts.{of_key};

    ghost Value = { Identities };

    ghost coded = { Prim.hlevel (codes) };

    ghost view = { λ k. map of_key k.keys.keys };

    ghost invariant = { λ k. length k.keys.keys ≤ most };
}

impl Keys {
    /// No identity yet.
    pub fn new(alloc: Global) -> Keys
        ensures { result ≡ [] }
    {
        Keys {
            keys: IndexSet::new(alloc),
        }
    }

    /// The number of an identity: its own, or the next one where it is new.
    pub fn intern(&mut self, identity: Identity) -> Result<u32, KeysError>
        ensures number { IfOk result (λ number. spec.number_of self.new identity ≡ Some number) }
        ensures ok { OnOk result (self.new ≡ spec.interned self.old identity) }
        ensures err { OnErr result (self.new ≡ self.old) }
        ensures numbers { IsErrOf result Numbers ↔ (spec.holds self.old identity ≡ false) × (length self.old ≡ spec.most) }
    {
        let key = key_of(identity);
        if self.keys.len() < MOST {
            self.put(key)
        } else {
            self.find(&key)
        }
    }

    /// The number of a key, which is added where it is new.
    fn put(&mut self, key: Key) -> Result<u32, KeysError>
        requires { length self.old < spec.most }
        ensures number { IfOk result (λ number. spec.number_of self.new (of_key key) ≡ Some number) }
        ensures ok { OnOk result (self.new ≡ spec.interned self.old (of_key key)) }
        ensures err { OnErr result (self.new ≡ self.old) }
        ensures numbers { IsErrOf result Numbers → ⊥ }
    {
        let (place, _) = self.keys.insert_full(key)?;
        Ok(place as u32)
    }

    /// The number of a key that is there.
    fn find(&self, key: &Key) -> Result<u32, KeysError>
        ensures number { IfOk result (λ number. spec.number_of self.now (of_key key.now) ≡ Some number) }
        ensures ok { OnOk result (spec.holds self.now (of_key key.now) ≡ true) }
        ensures err { OnErr result (spec.holds self.now (of_key key.now) ≡ false) }
        ensures memory { IsErrOf result Memory → ⊥ }
    {
        match self.keys.get_index_of(key) {
            Some(place) => Ok(place as u32),
            None => Err(KeysError::Numbers),
        }
    }
}
