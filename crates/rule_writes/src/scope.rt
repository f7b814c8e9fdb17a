ghost use Rattle.std.specs.Prelude.{◌≡◌, [], ◌++◌, IfOk, OnOk};
ghost use Rattle.std.specs.Option.{option_copied, option_map, option_to_list};
ghost use Rattle.schema_model.specs.Tables.{entry};
ghost use Rattle.rule_effects.specs.Effects as spec;
ghost use Rattle.rule_writes.specs.Views.{pairs_of, scope_of};

use gql_value::{Members, Value};
use offered_values::is_deeper;
use std::alloc::Global;
use text_types::{Memory, Text};
use updater_rules::{Term, Terms};

/// What terms name: the values of a root field's arguments, and the members of its object.
#[derive(Drop)]
pub(crate) struct Scope<'v> {
    pub(crate) arguments: &'v Members,
    pub(crate) members: &'v [(&'v Text, &'v Value)],
}

impl<'v> Scope<'v> {
    /// The value of a term, where it has one.
    pub(crate) fn value(&self, term: &'v Term) -> Option<&'v Value>
        ensures { option_copied result ≡ spec.term_value (scope_of self.now) term.now }
    {
        match self.named(term) {
            Some(value) => kept(value),
            None => None,
        }
    }

    fn named(&self, term: &'v Term) -> Option<&'v Value>
        ensures { option_copied result ≡ spec.named_value (scope_of self.now) term.now }
    {
        match term {
            Term::Argument(name) => argument_named(self.arguments, name),
            Term::Member(name) => member_named(self.members, name.as_str()),
            Term::Literal(value) => Some(value),
        }
    }

    /// Names with the values of their terms, where each has one.
    pub(crate) fn values(
        &self,
        alloc: Global,
        terms: &'v Terms,
    ) -> Result<Option<Vec<(&'v Text, &'v Value)>>, Memory>
        ensures { IfOk result (λ values. option_map (λ vs. pairs_of vs.items) values ≡ spec.values_onto (scope_of self.now) [] terms.now) }
    {
        let mut values = Vec::new(alloc);
        'terms: for named in terms.as_slice() {
            let Some(value) = self.value(&named.1) else {
                return Ok(None);
            };
            values.push((&named.0, value))?;
        }
        Ok(Some(values))
    }
}

/// A value, unless it nests too deep to be kept.
fn kept(value: &Value) -> Option<&Value>
    ensures { option_copied result ≡ spec.kept_value value.now }
{
    if is_deeper(value, deepest_kept()) {
        None
    } else {
        Some(value)
    }
}

#[tactic(auto, unfolding(rule_effects::specs::Effects::deepest_kept))]
fn deepest_kept() -> u64
    ensures { result ≡ spec.deepest_kept }
{
    126
}

fn argument_named<'v>(arguments: &'v Members, name: &Text) -> Option<&'v Value>
    ensures { option_copied result ≡ entry arguments.now name.now }
{
    for argument in arguments.as_slice() {
        if name.as_bytes() == argument.0.as_bytes() {
            return Some(&argument.1);
        }
    }
    None
}

/// The value of the first member of a name.
pub(crate) fn member_named<'v>(members: &[(&Text, &'v Value)], name: &str) -> Option<&'v Value>
    ensures { option_copied result ≡ entry (pairs_of members.now) name.now }
{
    for member in members {
        if name.as_bytes() == member.0.as_bytes() {
            return Some(member.1);
        }
    }
    None
}

/// One name more, where it has a value.
pub(crate) fn push_value<'v>(
    values: &mut Vec<(&'v Text, &'v Value)>,
    name: &'v Text,
    value: Option<&'v Value>,
) -> Result<(), Memory>
    ensures { OnOk result (pairs_of values.new.items ≡ pairs_of values.old.items ++ option_to_list (option_map (λ v. (name.now, v)) (option_copied value.entry))) }
{
    if let Some(value) = value {
        values.push((name, value))?;
    }
    Ok(())
}
