//! The members that a root field has in an answer.

ghost use Rattle.std.specs.Prelude.{◌≡◌, [], IfOk, map};
ghost use Rattle.std.specs.List.{filter_map};
ghost use Rattle.std.specs.Option.{option_copied, option_map, option_map_or, option_and_then};
ghost use Rattle.gql_value.specs.declared.value.Value.{out-Value};
ghost use Rattle.check_model.specs.FieldTypes.{parent_below};
ghost use Rattle.answer_model.specs.Paths.{members_in};
ghost use Rattle.answer_model.specs.Writing.{plain_member};
ghost use Rattle.field_asking.specs.Asking.{executed, asked_field};
ghost use Rattle.rule_effects.specs.Effects as spec;
ghost use Rattle.rule_writes.specs.Views.{IsAsSent, pairs_of};

use crate::answer::Answer;
use crate::ruling::Ruling;
use crate::scope::push_value;
use answer_parts::{MemberIndex, ObjectType, parent_below, type_of_members};
use field_asking::AskedField;
use gql_model::TypeRef;
use gql_value::{Members, Value};
use schema_model::{Schema, TypeId};
use std::alloc::Global;
use text_types::{Memory, Text};

impl<'a> Ruling<'a> {
    /// The members that a root field has in the data of an answer; none where it has no object.
    pub(crate) fn answered_members(
        &self,
        asked: &AskedField<'_>,
        answer: &Answer<'a>,
    ) -> Result<Vec<(&'a Text, &'a Value)>, Memory>
        requires { IsAsSent self.now.asking.now }
        ensures { IfOk result (λ members. pairs_of members.items ≡ spec.answered_members (executed self.now.asking.now) answer.now.value.now (asked_field asked.now)) }
    {
        match answer.member(&asked.key) {
            Some(value) => self.result_members(asked, value),
            None => Ok(Vec::new(self.alloc)),
        }
    }

    fn result_members(
        &self,
        asked: &AskedField<'_>,
        value: &'a Value,
    ) -> Result<Vec<(&'a Text, &'a Value)>, Memory>
        requires { IsAsSent self.now.asking.now }
        ensures { IfOk result (λ members. pairs_of members.items ≡ spec.result_members (executed self.now.asking.now) (asked_field asked.now) value.now) }
    {
        let asking = self.asking;
        match parent_of(asking.inputs.schema, asked.field_type) {
            Some(parent) => self.value_members(asked, parent, value),
            None => Ok(Vec::new(self.alloc)),
        }
    }

    fn value_members(
        &self,
        asked: &AskedField<'_>,
        parent: TypeId,
        value: &'a Value,
    ) -> Result<Vec<(&'a Text, &'a Value)>, Memory>
        requires { IsAsSent self.now.asking.now }
        ensures { IfOk result (λ members. pairs_of members.items ≡ option_map_or (spec.object_members (executed self.now.asking.now) (asked_field asked.now) parent) (members_in (out-Value value.now)) []) }
    {
        match value {
            Value::Obj(members) => self.object_members(asked, parent, members),
            _ => Ok(Vec::new(self.alloc)),
        }
    }

    fn object_members(
        &self,
        asked: &AskedField<'_>,
        parent: TypeId,
        members: &'a Members,
    ) -> Result<Vec<(&'a Text, &'a Value)>, Memory>
        requires { IsAsSent self.now.asking.now }
        ensures { IfOk result (λ found. pairs_of found.items ≡ spec.object_members (executed self.now.asking.now) (asked_field asked.now) parent members.now) }
    {
        let asking = self.asking;
        match type_of_members(asking.inputs.schema, parent, members) {
            Some(of) => self.typed_members(asked, of, members),
            None => Ok(Vec::new(self.alloc)),
        }
    }

    /// The members of the fields that were asked without arguments.
    fn typed_members(
        &self,
        asked: &AskedField<'_>,
        of: ObjectType<'a>,
        members: &'a Members,
    ) -> Result<Vec<(&'a Text, &'a Value)>, Memory>
        requires { IsAsSent self.now.asking.now }
        ensures { IfOk result (λ found. pairs_of found.items ≡ spec.typed_members (executed self.now.asking.now) (asked_field asked.now) members.now (of.entry.0, of.entry.1.now)) }
    {
        let asking = self.asking;
        let fields = asking.fields(self.alloc, of.0, asked.sets.as_slice())?;
        let index = MemberIndex::new(self.alloc, members)?;
        plain_members(self.alloc, fields.as_slice(), &index)
    }
}

/// The composite type that a field leads to.
fn parent_of(schema: &Schema, field_type: Option<&TypeRef>) -> Option<TypeId>
    ensures { result ≡ option_and_then (parent_below schema.now) (option_copied field_type.entry) }
{
    match field_type {
        Some(field_type) => parent_below(schema, field_type),
        None => None,
    }
}

fn plain_members<'a>(
    alloc: Global,
    fields: &[AskedField<'a>],
    members: &MemberIndex<'a>,
) -> Result<Vec<(&'a Text, &'a Value)>, Memory>
    ensures { IfOk result (λ found. pairs_of found.items ≡ filter_map (plain_member members.now.members.now) (map asked_field fields.now)) }
{
    let mut found = Vec::new(alloc);
    'fields: for field in fields {
        push_value(&mut found, field.name, plain_value(field, members))?;
    }
    Ok(found)
}

fn plain_value<'a>(field: &AskedField<'_>, members: &MemberIndex<'a>) -> Option<&'a Value>
    ensures { option_map (λ v. (field.now.name.now, v)) (option_copied result) ≡ plain_member members.now.members.now (asked_field field.now) }
{
    if field.arguments.is_empty() {
        members.get(&field.key)
    } else {
        None
    }
}
