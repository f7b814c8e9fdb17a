ghost use Rattle.std.specs.Prelude.{◌≡◌, [], ◌∷◌, ◌++◌, ℕ, List, None, IfOk, OnOk};
ghost use Rattle.std.specs.BTreeMap.{get};
ghost use Rattle.std.proofs.Props.{props};
ghost use Rattle.text_types.specs.Texts.{text_cmp};
ghost use Rattle.execution_model.specs.Collection.{group_place, joined_set, joined_at, begun, grouped};
ghost use Rattle.gql_collection.specs.Keys.{HasDistinctKeys};

use execution_model::Group;
use std::alloc::Global;
use std::collections::BTreeMap;
use text_types::{Items, Memory, Text};

/// Groups of fields in order of first appearance, and the place of each by its response key.
#[derive(Drop)]
pub(crate) struct Groups {
    groups: Items<Group>,
    places: BTreeMap<Text, usize>,
    ghost placed: { (name : List ℕ) → get text_cmp places name ≡ group_place name groups },
    ghost distinct: { HasDistinctKeys groups } by { Prim.hlevel props },
}

impl Groups {
    pub(crate) fn new(alloc: Global) -> Groups
        ensures { result.groups ≡ [] }
    {
        Groups {
            groups: Items::new(alloc),
            places: BTreeMap::new(alloc),
        }
    }

    pub(crate) fn into_items(self) -> Items<Group>
        ensures groups { result ≡ self.groups }
        ensures keys { HasDistinctKeys result }
    {
        self.groups
    }

    /// One field more, with its own set where it has one.
    pub(crate) fn with(
        self,
        key: &Text,
        field: Option<u64>,
        set: Option<u64>,
    ) -> Result<Groups, Memory>
        ensures { IfOk result (λ r. r.groups ≡ grouped key.now field set self.groups) }
    {
        match self.places.get(key).copied() {
            Some(at) => self.joined(at, set),
            None => self.begun(key, field, set),
        }
    }

    fn begun(self, key: &Text, field: Option<u64>, set: Option<u64>) -> Result<Groups, Memory>
        requires { group_place key.now self.groups ≡ None }
        ensures { IfOk result (λ r. r.groups ≡ self.groups ++ begun key.now field set ∷ []) }
    {
        let Groups {
            mut groups,
            mut places,
        } = self;
        places.insert(key.copy()?, groups.len())?;
        groups.push(group(key, field, set)?)?;
        Ok(Groups { groups, places })
    }

    fn joined(self, at: usize, set: Option<u64>) -> Result<Groups, Memory>
        ensures { IfOk result (λ r. r.groups ≡ joined_at set self.groups at) }
    {
        match set {
            Some(set) => self.joined_set(at, set),
            None => Ok(self),
        }
    }

    fn joined_set(self, at: usize, set: u64) -> Result<Groups, Memory>
        ensures { IfOk result (λ r. r.groups ≡ joined_set self.groups at set) }
    {
        let Groups { groups, places } = self;
        let groups = join_set(groups, at, set)?;
        Ok(Groups { groups, places })
    }
}

/// A group that begins with one field.
fn group(key: &Text, field: Option<u64>, set: Option<u64>) -> Result<Group, Memory>
    ensures { IfOk result (λ group. group ≡ begun key.now field set) }
{
    let mut sets = Items::new(key.allocator());
    if let Some(set) = set {
        sets.push(set)?;
    }
    Ok(Group {
        key: key.copy()?,
        field,
        sets,
    })
}

fn join_set(groups: Items<Group>, at: usize, set: u64) -> Result<Items<Group>, Memory>
    ensures { IfOk result (λ joined. joined ≡ joined_set groups at set) }
{
    let mut groups = groups.into_vec();
    push_set(&mut groups, at, set)?;
    Ok(Items::from_vec(groups))
}

fn push_set(groups: &mut Vec<Group>, at: usize, set: u64) -> Result<(), Memory>
    ensures { OnOk result (groups.new.items ≡ joined_set groups.old.items at set) }
{
    match groups.get_mut(at) {
        Some(group) => group.sets.push(set),
        None => Ok(()),
    }
}
