ghost use Rattle.std.specs.Prelude.{◌≡◌, OnOk, List, ℕ};
ghost use Rattle.std.specs.FinSet as set;
ghost use Rattle.std.specs.Coded.{coded_list, coded_ℕ};
ghost use Rattle.text_types.specs.Texts.{text_cmp};

use std::alloc::Global;
use std::collections::BTreeSet;
use std::marker::Model;
use text_types::{Memory, Text};

/// The names of variables that were used so far. Contracts see the set.
#[derive(Drop)]
pub(crate) struct UsedNames {
    names: BTreeSet<Text>,
}

impl Model for UsedNames {
    ghost Value = { set.FinSet text_cmp };

    ghost coded = { set.code (coded_list coded_ℕ) };

    ghost view = { λ n. set.from_list n.names.keys };
}

impl UsedNames {
    pub(crate) fn new(alloc: Global) -> UsedNames
        ensures { result ≡ set.empty }
    {
        UsedNames {
            names: BTreeSet::new(alloc),
        }
    }

    pub(crate) fn note(&mut self, name: &Text) -> Result<(), Memory>
        ensures { OnOk result (self.new ≡ set.insert self.old name.now) }
    {
        if self.names.contains(name) {
            return Ok(());
        }
        self.names.insert(name.copy()?)?;
        Ok(())
    }

    pub(crate) fn has(&self, name: &Text) -> bool
        ensures { result ≡ set.contains self.now name.now }
    {
        self.names.contains(name)
    }
}
