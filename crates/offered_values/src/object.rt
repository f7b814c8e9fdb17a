ghost use Rattle.std.specs.Prelude.{◌≡◌, [], ◌∷◌, ◌++◌, is_some, false, IfOk};
ghost use Rattle.std.specs.Option.{option_map};
ghost use Rattle.text_types.specs.Names.{names_of};
ghost use Rattle.execution_model.specs.Inputs.{next_members};
ghost use Rattle.schema_model.specs.Tables.{place_of, put};

use execution_model::Given;
use gql_value::{Members, Value};
use schema_model::Table;
use std::alloc::Global;
use text_types::{Memory, Text};

/// The members of an object so far, with their names, which are found in logarithmic time.
#[derive(Drop)]
pub struct ObjectBuilder {
    members: Members,
    names: Table<()>,
    ghost tied: { names_of members ≡ names_of names },
}

impl ObjectBuilder {
    /// An object without members.
    pub fn new(alloc: Global) -> ObjectBuilder
        ensures { result.members ≡ [] }
    {
        ObjectBuilder {
            members: Members::new(alloc),
            names: Table::new(alloc),
        }
    }

    /// The members, in the order in which they came.
    pub fn into_members(self) -> Members
        ensures { result ≡ self.members }
    {
        self.members
    }

    fn has(&self, name: &Text) -> bool
        ensures { result ≡ is_some (place_of self.now.names name.now) }
    {
        self.names.place_of(name).is_some()
    }

    /// One member more, unless its name is there.
    pub fn put(self, name: &Text, value: Value) -> Result<ObjectBuilder, Memory>
        ensures { IfOk result (λ r. r.members ≡ put self.members (name.now, value)) }
    {
        if self.has(name) {
            return Ok(self);
        }
        self.with(name, value)
    }

    fn with(self, name: &Text, value: Value) -> Result<ObjectBuilder, Memory>
        requires { is_some (place_of self.names name.now) ≡ false }
        ensures { IfOk result (λ r. r.members ≡ self.members ++ (name.now, value) ∷ []) }
    {
        let ObjectBuilder { mut members, names } = self;
        let named = name.copy()?;
        members.push(named, value)?;
        let names = names.put(name.copy()?, ())?;
        Ok(ObjectBuilder { members, names })
    }

    /// One member more, unless it is absent; nothing where it is refused.
    pub fn next(self, name: &Text, given: Given) -> Result<Option<ObjectBuilder>, Memory>
        ensures { IfOk result (λ r. option_map (λ b. b.members) r ≡ next_members name.now given self.members) }
    {
        match given {
            Given::Absent => Ok(Some(self)),
            Given::Refused => Ok(None),
            Given::Is(value) => Ok(Some(self.put(name, value)?)),
        }
    }
}
