ghost use Rattle.std.specs.Prelude.{◌≡◌, List, [], ◌∷◌, ◌++◌, IfOk};
ghost use Rattle.schema_rules.specs.Lines.{Mark};
ghost use Rattle.schema_defaults.specs.Repetitions.{repeated};
ghost use Rattle.schema_defaults.specs.Seen.{Saw, was_met};

use schema_rules::earlier;
use std::alloc::Global;
use std::collections::BTreeSet;
use text_types::{Memory, Text};

/// The names met so far in a list, and the least line of one that had been met before.
#[derive(Drop)]
pub struct Seen {
    names: BTreeSet<Text>,
    repeated: Option<u64>,
}

impl Seen {
    /// No name met yet.
    pub fn new(alloc: Global) -> Seen
        ensures { Saw result [] }
    {
        Seen {
            names: BTreeSet::new(alloc),
            repeated: None,
        }
    }

    /// Takes in one name more, with its line.
    pub fn note(self, name: &Text, line: u64) -> Result<Seen, Memory>
        ensures { (marks : List Mark) → Saw self marks → IfOk result (λ seen. Saw seen (marks ++ (name.now, line) ∷ [])) }
    {
        let Seen {
            mut names,
            repeated,
        } = self;
        if names.contains(name) {
            let repeated = earlier(repeated, Some(line));
            return Ok(Seen { names, repeated });
        }
        names.insert(name.copy()?)?;
        Ok(Seen { names, repeated })
    }

    /// Whether a name was met.
    pub fn has(&self, name: &Text) -> bool
        ensures { result ≡ was_met self.now name.now }
    {
        self.names.contains(name)
    }

    /// The least line of a name that was met before.
    pub fn repeated_line(&self) -> Option<u64>
        ensures { (marks : List Mark) → Saw self.now marks → result ≡ repeated marks }
    {
        self.repeated
    }
}
