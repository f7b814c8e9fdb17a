ghost use Rattle.std.specs.Prelude.{◌≡◌, ℕ, None, OnOk, OnErr};
ghost use Rattle.std.specs.Coded.{coded_ℕ};
ghost use Rattle.std.specs.FinMap as map;
ghost use Rattle.std.specs.Ordering.{nat_cmp};

use std::alloc::Global;
use std::collections::BTreeMap;
use std::marker::Model;
use text_types::Memory;

/// The identities that have a fetch in flight, each with the number of its fetch. Contracts see the
/// map from identities to fetches.
#[derive(Drop)]
pub struct InFlight {
    fetches: BTreeMap<u32, u64>,
}

impl Model for InFlight {
    ghost Value = { map.FinMap nat_cmp ℕ };

    ghost coded = { map.code coded_ℕ coded_ℕ };

    ghost view = { λ f. map.from_entries f.fetches.entries };
}

impl InFlight {
    /// No identity has a fetch.
    pub fn new(alloc: Global) -> InFlight
        ensures { result ≡ map.empty }
    {
        InFlight {
            fetches: BTreeMap::new(alloc),
        }
    }

    /// Notes the fetch of an identity that has none.
    pub fn begin(&mut self, key: u32, fetch: u64) -> Result<(), Memory>
        requires { map.get self.old key ≡ None }
        ensures ok { OnOk result (self.new ≡ map.insert self.old key fetch) }
        ensures err { OnErr result (self.new ≡ self.old) }
    {
        self.fetches.insert(key, fetch)?;
        Ok(())
    }

    /// The fetch of an identity. Takes no memory.
    pub fn fetch_of(&self, key: u32) -> Option<u64>
        ensures { result ≡ map.get self.now key }
    {
        self.fetches.get(&key).copied()
    }

    /// From now on the identity has no fetch, whether it had one or not. Takes no memory.
    pub fn forget(&mut self, key: u32)
        ensures { self.new ≡ map.remove self.old key }
    {
        self.fetches.remove(&key);
    }
}
