//! The keys of objects by the values that are their ids.

ghost use Rattle.std.specs.Prelude.{◌≡◌, IfOk};
ghost use Rattle.std.specs.Option.{option_copied, option_map, option_and_then};
ghost use Rattle.cache_model.specs.Keys.{keyed_text};
ghost use Rattle.entity_keys.specs.Objects.{id_of};
ghost use Rattle.rule_effects.specs.Effects as spec;
ghost use Rattle.rule_writes.specs.Views.{scope_of};

use crate::scope::Scope;
use entity_keys::{EntityKey, keyed};
use gql_value::Value;
use itoa::Buffer;
use std::alloc::Global;
use text_types::{Memory, Text};
use updater_rules::Term;

/// The key of an object of a type whose id is this value: a text or a whole number.
pub(crate) fn key_by_value(
    alloc: Global,
    named: &Text,
    id: &Value,
) -> Result<Option<EntityKey>, Memory>
    ensures { IfOk result (λ key. key ≡ option_map (keyed_text named.now) (id_of id.now)) }
{
    match id {
        Value::Text(text) => Ok(Some(keyed(named, text)?)),
        Value::Int(number) => {
            let text = Text::from_str(alloc, Buffer::new().format(*number))?;
            Ok(Some(keyed(named, &text)?))
        }
        Value::Null | Value::Bool(_) | Value::List(_) | Value::Obj(_) => Ok(None),
    }
}

/// The same, where the id may be missing.
pub(crate) fn key_by_option(
    alloc: Global,
    named: &Text,
    id: Option<&Value>,
) -> Result<Option<EntityKey>, Memory>
    ensures { IfOk result (λ key. key ≡ option_map (keyed_text named.now) (option_and_then id_of (option_copied id.entry))) }
{
    match id {
        Some(id) => key_by_value(alloc, named, id),
        None => Ok(None),
    }
}

impl Scope<'_> {
    /// The key of an object of a type whose id is what a term gives.
    pub(crate) fn key(
        &self,
        alloc: Global,
        named: &Text,
        term: &Term,
    ) -> Result<Option<EntityKey>, Memory>
        ensures { IfOk result (λ key. key ≡ option_map (keyed_text named.now) (spec.term_id (scope_of self.now) term.now)) }
    {
        key_by_option(alloc, named, self.value(term))
    }
}
