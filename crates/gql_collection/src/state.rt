ghost use Rattle.std.specs.Prelude.{◌≡◌, IfOk};
ghost use Rattle.gql_model.specs.declared.selection.Field.{out-Field};
ghost use Rattle.check_model.specs.Fields.{response_key};
ghost use Rattle.execution_model.specs.Collection as spec;
ghost use Rattle.gql_collection.specs.Keys.{HasDistinctKeys};
ghost use Rattle.gql_collection.specs.States.{collecting};

use crate::groups::Groups;
use execution_model::Group;
use gql_model::{Field, Name};
use gql_numbering::Mark;
use schema_model::Table;
use std::alloc::Global;
use text_types::{Items, Memory, Text};

/// What a collection has so far: its groups, and the fragments that were spread, each with the number of
/// its set.
#[derive(Drop)]
pub(crate) struct State {
    groups: Groups,
    pub(crate) spread: Table<u64>,
}

impl State {
    pub(crate) fn new(alloc: Global) -> State
        ensures { collecting result ≡ spec.nothing_collected }
    {
        State {
            groups: Groups::new(alloc),
            spread: Table::new(alloc),
        }
    }

    pub(crate) fn into_groups(self) -> Items<Group>
        ensures groups { result ≡ (collecting self).groups }
        ensures keys { HasDistinctKeys result }
    {
        self.groups.into_items()
    }

    pub(crate) fn with_field(self, mark: Mark, field: &Field) -> Result<State, Memory>
        ensures { IfOk result (λ state. collecting state ≡ spec.with_field mark field.now (collecting self)) }
    {
        let key = response_key(&field.alias, &field.name.text);
        let set = match field.selection_set {
            Some(_) => Some(mark.sets),
            None => None,
        };
        Ok(State {
            groups: self.groups.with(key, Some(mark.fields), set)?,
            spread: self.spread,
        })
    }

    /// `__typename` at the front of a set, where it is put in.
    pub(crate) fn with_front(
        self,
        alloc: Global,
        fronts: &[bool],
        set: u64,
    ) -> Result<State, Memory>
        ensures { IfOk result (λ state. collecting state ≡ spec.with_front fronts.now set (collecting self)) }
    {
        if !is_fronted(fronts, set) {
            return Ok(self);
        }
        let key = Text::from_str(alloc, "__typename")?;
        Ok(State {
            groups: self.groups.with(&key, None, None)?,
            spread: self.spread,
        })
    }

    pub(crate) fn has_spread(&self, name: &Text) -> bool
        ensures { result ≡ spec.was_spread name.now (collecting self.now) }
    {
        self.spread.has(name)
    }

    pub(crate) fn spread_once(self, name: &Text, set: u64) -> Result<State, Memory>
        ensures { IfOk result (λ state. collecting state ≡ spec.spread_once name.now set (collecting self)) }
    {
        Ok(State {
            groups: self.groups,
            spread: self.spread.put(name.copy()?, set)?,
        })
    }
}

fn response_key<'a>(alias: &'a Option<Name>, name: &'a Text) -> &'a Text
    ensures { result.now ≡ response_key alias.now name.now }
{
    match alias {
        Some(alias) => &alias.text,
        None => name,
    }
}

fn is_fronted(fronts: &[bool], set: u64) -> bool
    ensures { result ≡ spec.is_put_in fronts.now set }
{
    match fronts.get(set as usize) {
        Some(fronted) => *fronted,
        None => false,
    }
}
