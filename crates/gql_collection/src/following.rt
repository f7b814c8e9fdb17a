ghost use Rattle.std.specs.Prelude.{◌≡◌, IfOk, slice_get};
ghost use Rattle.gql_model.specs.declared.selection.Selection.{out-Selection};
ghost use Rattle.check_model.specs.RootFields as roots;
ghost use Rattle.execution_model.specs.Collection as spec;
ghost use Rattle.gql_collection.specs.Keys.{HasDistinctKeys};
ghost use Rattle.gql_collection.specs.States.{IsPrepared, collecting, context_of, option_fragment};

use crate::collector::Collector;
use crate::conditions::is_passed_over;
use crate::state::State;
use execution_model::Group;
use fragment_rules::fragment_at;
use gql_model::{Directive, Name, Selection, SelectionSet};
use gql_numbering::Mark;
use std::alloc::Global;
use text_types::{Items, Memory, Text};

/// How deep sets nest in a checked document, spreads followed.
#[tactic(auto, unfolding(execution_model::specs::Collection::deepest))]
fn deepest() -> u64
    ensures { result ≡ spec.deepest }
{
    64
}

impl<'a> Collector<'a> {
    /// The fields that joined sets, by their numbers, collect: by response key, in order of first
    /// appearance. No two groups have one response key.
    pub fn collect(&self, alloc: Global, sets: &[u64]) -> Result<Items<Group>, Memory>
        requires { IsPrepared self.now }
        ensures groups { IfOk result (λ groups. groups ≡ spec.collected (context_of self.now) sets.now) }
        ensures keys { IfOk result (λ groups. HasDistinctKeys groups) }
    {
        let mut state = State::new(alloc);
        'sets: for set in sets {
            state = self.follow(alloc, deepest(), *set, state)?;
        }
        Ok(state.into_groups())
    }

    /// Follows a set so deep, and nothing below.
    #[cycle(follow)]
    fn follow(&self, alloc: Global, depth: u64, set: u64, state: State) -> Result<State, Memory>
        requires { IsPrepared self.now }
        ensures { IfOk result (λ r. collecting r ≡ spec.followed_within depth (context_of self.now) set (collecting state)) }
    {
        if depth == 0 {
            return Ok(state);
        }
        self.follow_set(alloc, depth - 1, set, state)
    }

    #[cycle(follow)]
    fn follow_set(&self, alloc: Global, depth: u64, set: u64, state: State) -> Result<State, Memory>
        requires { IsPrepared self.now }
        ensures { IfOk result (λ r. collecting r ≡ spec.follow_set (spec.followed_within depth (context_of self.now)) (context_of self.now) set (collecting state)) }
    {
        match (
            self.numbering.marks(set),
            self.numbering.set(self.document, set),
        ) {
            (Some(marks), Some(found)) => {
                let state = state.with_front(alloc, self.fronts, set)?;
                self.with_selections(alloc, depth, marks, found, state)
            }
            _ => Ok(state),
        }
    }

    #[cycle(follow)]
    fn with_selections(
        &self,
        alloc: Global,
        depth: u64,
        marks: &[Mark],
        set: &SelectionSet,
        state: State,
    ) -> Result<State, Memory>
        requires { IsPrepared self.now }
        ensures { IfOk result (λ r. collecting r ≡ spec.with_selections (spec.followed_within depth (context_of self.now)) (context_of self.now) marks.now set.now (collecting state)) }
    {
        let mut state = state;
        'selections: for (at, selection) in set.selections.as_slice().iter().enumerate() {
            state = self.with_nth(alloc, depth, mark_at(marks, at), selection, state)?;
        }
        Ok(state)
    }

    #[cycle(follow)]
    fn with_nth(
        &self,
        alloc: Global,
        depth: u64,
        mark: Option<Mark>,
        selection: &Selection,
        state: State,
    ) -> Result<State, Memory>
        requires { IsPrepared self.now }
        ensures { IfOk result (λ r. collecting r ≡ spec.with_marked (spec.followed_within depth (context_of self.now)) (context_of self.now) selection.now (collecting state) mark) }
    {
        match mark {
            Some(mark) => self.with_selection(alloc, depth, mark, selection, state),
            None => Ok(state),
        }
    }

    #[cycle(follow)]
    fn with_selection(
        &self,
        alloc: Global,
        depth: u64,
        mark: Mark,
        selection: &Selection,
        state: State,
    ) -> Result<State, Memory>
        requires { IsPrepared self.now }
        ensures { IfOk result (λ r. collecting r ≡ spec.with_selection (spec.followed_within depth (context_of self.now)) (context_of self.now) mark selection.now (collecting state)) }
    {
        if is_passed_over(self.variables, directives_of(selection)) {
            return Ok(state);
        }
        match selection {
            Selection::Field(field) => state.with_field(mark, field),
            Selection::Spread(spread) => self.with_spread(alloc, depth, &spread.name.text, state),
            Selection::Inline(fragment) => {
                self.with_inline(alloc, depth, mark, &fragment.type_condition, state)
            }
        }
    }

    #[cycle(follow)]
    fn with_inline(
        &self,
        alloc: Global,
        depth: u64,
        mark: Mark,
        condition: &Option<Name>,
        state: State,
    ) -> Result<State, Memory>
        requires { IsPrepared self.now }
        ensures { IfOk result (λ r. collecting r ≡ spec.with_inline (spec.followed_within depth (context_of self.now)) (context_of self.now) mark condition.now (collecting state)) }
    {
        if self.applies_inline(condition) {
            self.follow(alloc, depth, mark.sets, state)
        } else {
            Ok(state)
        }
    }

    #[cycle(follow)]
    fn with_spread(
        &self,
        alloc: Global,
        depth: u64,
        name: &Text,
        state: State,
    ) -> Result<State, Memory>
        requires { IsPrepared self.now }
        ensures { IfOk result (λ r. collecting r ≡ spec.with_spread (spec.followed_within depth (context_of self.now)) (context_of self.now) name.now (collecting state)) }
    {
        if state.has_spread(name) {
            return Ok(state);
        }
        match self.spread_fragment(name) {
            Some((condition, set)) => {
                self.with_fragment(alloc, depth, name, condition, set, state)
            }
            None => Ok(state),
        }
    }

    #[cycle(follow)]
    fn with_fragment(
        &self,
        alloc: Global,
        depth: u64,
        name: &Text,
        condition: &Text,
        set: u64,
        state: State,
    ) -> Result<State, Memory>
        requires { IsPrepared self.now }
        ensures { IfOk result (λ r. collecting r ≡ spec.with_fragment (spec.followed_within depth (context_of self.now)) (context_of self.now) name.now (collecting state) (condition.now, set)) }
    {
        if !self.applies(condition) {
            return Ok(state);
        }
        let state = state.spread_once(name, set)?;
        self.follow(alloc, depth, set, state)
    }

    /// The condition of the fragment of a name, and the number of its set.
    fn spread_fragment(&self, name: &Text) -> Option<(&'a Text, u64)>
        requires { IsPrepared self.now }
        ensures { option_fragment result ≡ spec.spread_fragment self.now.document.now name.now }
    {
        match self.fragments.place_of(name) {
            Some(place) => self.fragment_at(place),
            None => None,
        }
    }

    fn fragment_at(&self, place: usize) -> Option<(&'a Text, u64)>
        requires { IsPrepared self.now }
        ensures { option_fragment result ≡ spec.fragment_at self.now.document.now place }
    {
        match fragment_at(self.document.definitions.as_slice(), place) {
            Some(fragment) => match self.numbering.definition(place) {
                Some(mark) => Some((&fragment.type_condition.text, mark.sets)),
                None => None,
            },
            None => None,
        }
    }

    /// Whether a fragment of this condition applies to the object type.
    fn applies(&self, condition: &Text) -> bool
        ensures { result ≡ roots.applies self.now.schema.now self.now.object condition.now }
    {
        match self.schema.type_named(condition) {
            Some(named) => self.schema.is_possible(self.object, named),
            None => false,
        }
    }

    fn applies_inline(&self, condition: &Option<Name>) -> bool
        ensures { result ≡ roots.applies_inline self.now.schema.now self.now.object condition.now }
    {
        match condition {
            Some(condition) => self.applies(&condition.text),
            None => true,
        }
    }
}

fn mark_at(marks: &[Mark], at: usize) -> Option<Mark>
    ensures { result ≡ slice_get marks.now at }
{
    marks.get(at).copied()
}

fn directives_of(selection: &Selection) -> &[Directive]
    ensures { result.now ≡ spec.directives_of (out-Selection selection.now) }
{
    match selection {
        Selection::Field(field) => field.directives.as_slice(),
        Selection::Spread(spread) => spread.directives.as_slice(),
        Selection::Inline(fragment) => fragment.directives.as_slice(),
    }
}
