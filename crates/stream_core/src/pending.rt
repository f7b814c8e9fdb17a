ghost use Rattle.std.specs.Prelude.{◌≡◌, OnOk, OnErr};
ghost use Rattle.std.specs.Option.{option_copied};
ghost use Rattle.std.specs.FinMap as map;

use std::alloc::Global;
use std::collections::BTreeMap;
use std::marker::Model;
use text_types::Memory;

/// What is remembered of each operation that waits for its result, by the operation's id. Contracts
/// see the map.
#[derive(Drop)]
pub struct Pending<V> {
    values: BTreeMap<u64, V>,
}

impl<V> Model for Pending<V> {
    ghost use Rattle.std.specs.Coded.{coded_ℕ};
    ghost use Rattle.std.specs.FinMap as map;
    ghost use Rattle.std.specs.Ordering.{nat_cmp};

    ghost Value = { map.FinMap nat_cmp V };

    ghost coded = { map.code coded_ℕ V.code };

    ghost view = { λ p. map.from_entries p.values.entries };
}

impl<V> Pending<V> {
    /// Nothing waits.
    pub fn new(alloc: Global) -> Pending<V>
        ensures { result ≡ map.empty }
    {
        Pending {
            values: BTreeMap::new(alloc),
        }
    }

    /// What is remembered of the operation of this id. Takes no memory.
    pub fn get(&self, id: u64) -> Option<&V>
        ensures { option_copied result ≡ map.get self.now id }
    {
        self.values.get(&id)
    }

    /// The operation of this id waits no more, and what was remembered of it is handed back. Takes
    /// no memory.
    pub fn take(&mut self, id: u64) -> Option<V>
        ensures was { result ≡ map.get self.old id }
        ensures gone { self.new ≡ map.remove self.old id }
    {
        self.values.remove(&id)
    }
}

impl<V: Drop> Pending<V> {
    /// From now on the operation of this id waits. What was remembered of an earlier one is let go.
    pub fn put(&mut self, id: u64, value: V) -> Result<(), Memory>
        ensures ok { OnOk result (self.new ≡ map.insert self.old id value) }
        ensures err { OnErr result (self.new ≡ self.old) }
    {
        self.values.insert(id, value)?;
        Ok(())
    }
}
