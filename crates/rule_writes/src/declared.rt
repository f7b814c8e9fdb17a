//! The object that an optimistic rule says that a root field will have.

ghost use Rattle.std.specs.Prelude.{◌≡◌, ◌++◌, ◌∷◌, [], IfOk, map, codes};
ghost use Rattle.std.specs.Option.{option_map};
ghost use Rattle.cache_model.specs.Keys.{keyed_text};
ghost use Rattle.cache_model.specs.declared.cell.Cell.TheVariants as cell;
ghost use Rattle.cache_model.specs.declared.write.Write.TheVariants as write;
ghost use Rattle.execution_model.specs.Values.{text_value};
ghost use Rattle.field_asking.specs.Asking.{executed, asked_field};
ghost use Rattle.rule_effects.specs.Effects as spec;
ghost use Rattle.rule_writes.specs.Views.{pairs_of};

use crate::ids::key_by_option;
use crate::ruling::Ruling;
use crate::scope::{Scope, member_named, push_value};
use crate::updates::pushed;
use cache_model::{Cell, EntityKey, Write, Writes};
use entity_keys::plain_field_key;
use field_asking::AskedField;
use gql_value::{Members, Value};
use std::alloc::Global;
use text_types::{Memory, Text};
use updater_rules::{Optimistic, listed_key_field};

impl<'a> Ruling<'a> {
    /// What a rule writes on a root field: its object, and then what updaters write over that object.
    pub(crate) fn declare(
        &self,
        asked: &AskedField<'a>,
        rule: &Optimistic,
        out: Writes,
    ) -> Result<Writes, Memory>
        ensures { IfOk result (λ writes. writes ≡ out ++ spec.declared_writes self.now.rules.now (executed self.now.asking.now) (asked_field asked.now) rule.now) }
    {
        let members = listed_values(self.alloc, rule, &asked.arguments)?;
        let out = self.write_object(rule, members.as_slice(), out)?;
        self.update(asked, members.as_slice(), out)
    }

    /// An object without an id writes nothing of itself.
    fn write_object(
        &self,
        rule: &Optimistic,
        members: &[(&Text, &Value)],
        out: Writes,
    ) -> Result<Writes, Memory>
        ensures { IfOk result (λ writes. writes ≡ out ++ spec.own_writes self.now.rules.now.keys rule.now (pairs_of members.now)) }
    {
        match self.own_key(rule, members)? {
            Some(entity) => object_writes(self.alloc, &rule.named, members, &entity, out),
            None => Ok(out),
        }
    }

    fn own_key(
        &self,
        rule: &Optimistic,
        members: &[(&Text, &Value)],
    ) -> Result<Option<EntityKey>, Memory>
        ensures { IfOk result (λ key. key ≡ option_map (keyed_text rule.now.named) (spec.optimistic_id self.now.rules.now.keys rule.now (pairs_of members.now))) }
    {
        let rules = self.rules;
        match listed_key_field(&rules.keys, &rule.named, &rule.fields) {
            Some(field) => key_by_option(self.alloc, &rule.named, member_named(members, field)),
            None => Ok(None),
        }
    }
}

/// The members of an optimistic object; one without value is left out.
fn listed_values<'v>(
    alloc: Global,
    rule: &'v Optimistic,
    arguments: &'v Members,
) -> Result<Vec<(&'v Text, &'v Value)>, Memory>
    ensures { IfOk result (λ members. pairs_of members.items ≡ spec.optimistic_members rule.now arguments.now) }
{
    let scope = Scope {
        arguments,
        members: &[],
    };
    let mut members = Vec::new(alloc);
    'fields: for listed in rule.fields.as_slice() {
        push_value(&mut members, &listed.0, scope.value(&listed.1))?;
    }
    Ok(members)
}

/// An object sets its type's name before its members.
fn object_writes(
    alloc: Global,
    named: &Text,
    members: &[(&Text, &Value)],
    entity: &EntityKey,
    out: Writes,
) -> Result<Writes, Memory>
    ensures { IfOk result (λ writes. writes ≡ out ++ spec.object_writes named.now (pairs_of members.now) entity.now) }
{
    let first = typename_write(alloc, named, entity)?;
    let begun = pushed(out, first)?;
    member_writes(alloc, members, entity, begun)
}

fn typename_write(alloc: Global, named: &Text, entity: &EntityKey) -> Result<Write, Memory>
    ensures { IfOk result (λ set. set ≡ write.Set entity.now (codes "__typename") (cell.Leaf (text_value named.now))) }
{
    let typename = Text::from_str(alloc, "__typename")?;
    let value = Value::Text(named.copy()?);
    set_member(alloc, entity, &typename, &value)
}

fn member_writes(
    alloc: Global,
    members: &[(&Text, &Value)],
    entity: &EntityKey,
    out: Writes,
) -> Result<Writes, Memory>
    ensures { IfOk result (λ writes. writes ≡ out ++ map (λ m. write.Set entity.now m.0.now (cell.Leaf m.1.now)) members.now) }
{
    let mut out = out;
    'members: for member in members {
        out.push(set_member(alloc, entity, member.0, member.1)?)?;
    }
    Ok(out)
}

/// A field of an object, by its name alone, holds this value.
fn set_member(
    alloc: Global,
    entity: &EntityKey,
    name: &Text,
    value: &Value,
) -> Result<Write, Memory>
    ensures { IfOk result (λ set. set ≡ write.Set entity.now name.now (cell.Leaf value.now)) }
{
    Ok(Write::Set(
        entity.copy()?,
        plain_field_key(name)?,
        Cell::Leaf(value.copy(alloc)?),
    ))
}
