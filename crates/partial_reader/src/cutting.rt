//! An answer cut to the client's own selection: objects, their fields, and the lists between them.

ghost use Rattle.std.specs.Prelude.{◌≡◌, ◌≤◌, ◌++◌, IfOk, OnOk, map};
ghost use Rattle.std.specs.List.{filter_map};
ghost use Rattle.std.specs.Option.{option_copied, option_map, option_map_or, option_to_list};
ghost use Rattle.text_types.specs.Names.{Lacks};
ghost use Rattle.execution_model.specs.Values.{list_value};
ghost use Rattle.check_model.specs.FieldTypes.{parent_below};
ghost use Rattle.answer_model.specs.Projection as spec;
ghost use Rattle.answer_parts.specs.Heights.{height, type_height};
ghost use Rattle.field_asking.specs.Asking.{HasOwnKeys, executed, asked_field};
ghost use Rattle.partial_reader.specs.Walks.{AreLow, IsReady};

use crate::fields::client_fields;
use answer_parts::{MemberIndex, parent_below, type_of_members};
use field_asking::{AskedField, Asking};
use gql_model::TypeRef;
use gql_value::{Members, Value};
use schema_model::TypeId;
use std::alloc::Global;
use text_types::{Items, Memory, Text};

/// What cuts: the operation that was asked.
#[derive(Drop)]
pub(crate) struct Cutter<'a> {
    pub(crate) alloc: Global,
    pub(crate) asking: &'a Asking<'a>,
}

impl<'a> Cutter<'a> {
    /// The members of an object of a type that sets ask for, objects so deep, and none below.
    #[cycle(cut)]
    pub(crate) fn members(
        &self,
        depth: u64,
        sets: &[u64],
        object: TypeId,
        members: &Members,
    ) -> Result<Members, Memory>
        requires { IsReady self.now.asking.now }
        ensures { IfOk result (λ cut. cut ≡ spec.cut_within depth (executed self.now.asking.now) sets.now object members.now) }
    {
        if depth == 0 {
            return Ok(Members::new(self.alloc));
        }
        let fields = client_fields(self.alloc, self.asking, object, sets)?;
        self.object_fields(depth - 1, fields.as_slice(), members)
    }

    #[cycle(cut)]
    #[tactic(auto, using(crate::proofs::StepLaws::low_at))]
    fn object_fields(
        &self,
        depth: u64,
        fields: &[AskedField<'_>],
        members: &Members,
    ) -> Result<Members, Memory>
        requires ready { IsReady self.now.asking.now }
        requires keys { HasOwnKeys fields.now }
        requires low { AreLow self.now.asking.now.inputs.schema.now fields.now }
        ensures { IfOk result (λ cut. cut ≡ filter_map (spec.member_cut (spec.cut_within depth (executed self.now.asking.now)) self.now.asking.now.inputs.schema.now members.now) (map asked_field fields.now)) }
    {
        let found = MemberIndex::new(self.alloc, members)?;
        let mut cut = Members::new(self.alloc);
        'fields: for field in fields {
            let value = self.member(depth, field, found.get(&field.key))?;
            push_member(&mut cut, &field.key, value)?;
        }
        Ok(cut)
    }

    /// The value of a member, where there is one.
    #[cycle(cut)]
    fn member(
        &self,
        depth: u64,
        field: &AskedField<'_>,
        found: Option<&Value>,
    ) -> Result<Option<Value>, Memory>
        requires ready { IsReady self.now.asking.now }
        requires low { type_height (option_copied field.now.field_type) ≤ height self.now.asking.now.inputs.schema.now }
        ensures { IfOk result (λ value. value ≡ option_map (spec.field_cut (spec.cut_within depth (executed self.now.asking.now)) self.now.asking.now.inputs.schema.now (asked_field field.now)) (option_copied found.entry)) }
    {
        match found {
            Some(value) => Ok(Some(self.field(depth, field, value)?)),
            None => Ok(None),
        }
    }

    /// A leaf stays as it came.
    #[cycle(cut)]
    fn field(&self, depth: u64, field: &AskedField<'_>, value: &Value) -> Result<Value, Memory>
        requires ready { IsReady self.now.asking.now }
        requires low { type_height (option_copied field.now.field_type) ≤ height self.now.asking.now.inputs.schema.now }
        ensures { IfOk result (λ cut. cut ≡ spec.field_cut (spec.cut_within depth (executed self.now.asking.now)) self.now.asking.now.inputs.schema.now (asked_field field.now) value.now) }
    {
        match field.field_type {
            Some(wanted) => self.typed(depth, field.sets.as_slice(), wanted, value),
            None => value.copy(self.alloc),
        }
    }

    #[cycle(cut)]
    fn typed(
        &self,
        depth: u64,
        sets: &[u64],
        wanted: &TypeRef,
        value: &Value,
    ) -> Result<Value, Memory>
        requires { IsReady self.now.asking.now }
        ensures { IfOk result (λ cut. cut ≡ option_map_or (λ parent. spec.value_cut (spec.members_cut (spec.cut_within depth (executed self.now.asking.now)) self.now.asking.now.inputs.schema.now sets.now parent) wanted.now value.now) (parent_below self.now.asking.now.inputs.schema.now wanted.now) value.now) }
    {
        let asking = self.asking;
        match parent_below(asking.inputs.schema, wanted) {
            Some(parent) => self.value(depth, sets, parent, wanted, value),
            None => value.copy(self.alloc),
        }
    }

    #[cycle(cut)]
    fn value(
        &self,
        depth: u64,
        sets: &[u64],
        parent: TypeId,
        wanted: &TypeRef,
        value: &Value,
    ) -> Result<Value, Memory>
        requires { IsReady self.now.asking.now }
        ensures { IfOk result (λ cut. cut ≡ spec.value_cut (spec.members_cut (spec.cut_within depth (executed self.now.asking.now)) self.now.asking.now.inputs.schema.now sets.now parent) wanted.now value.now) }
    {
        match (wanted, value) {
            (TypeRef::Named { .. }, Value::Obj(members)) => {
                self.object(depth, sets, parent, members)
            }
            (TypeRef::List { of, .. }, Value::List(items)) => {
                self.items(depth, sets, parent, of.get(), items.as_slice())
            }
            _ => value.copy(self.alloc),
        }
    }

    #[cycle(cut)]
    fn items(
        &self,
        depth: u64,
        sets: &[u64],
        parent: TypeId,
        wanted: &TypeRef,
        items: &[Value],
    ) -> Result<Value, Memory>
        requires { IsReady self.now.asking.now }
        ensures { IfOk result (λ cut. cut ≡ list_value (map (spec.value_cut (spec.members_cut (spec.cut_within depth (executed self.now.asking.now)) self.now.asking.now.inputs.schema.now sets.now parent) wanted.now) items.now)) }
    {
        let mut values = Items::new(self.alloc);
        'items: for item in items {
            values.push(self.value(depth, sets, parent, wanted, item)?)?;
        }
        Ok(Value::List(values))
    }

    /// An object of the type that its `__typename` tells.
    #[cycle(cut)]
    fn object(
        &self,
        depth: u64,
        sets: &[u64],
        parent: TypeId,
        members: &Members,
    ) -> Result<Value, Memory>
        requires { IsReady self.now.asking.now }
        ensures { IfOk result (λ cut. cut ≡ spec.members_cut (spec.cut_within depth (executed self.now.asking.now)) self.now.asking.now.inputs.schema.now sets.now parent members.now) }
    {
        let asking = self.asking;
        match type_of_members(asking.inputs.schema, parent, members) {
            Some(of) => Ok(Value::Obj(self.members(depth, sets, of.0, members)?)),
            None => Ok(Value::Obj(Members::new(self.alloc))),
        }
    }
}

fn push_member(members: &mut Members, key: &Text, value: Option<Value>) -> Result<(), Memory>
    requires { Lacks members.old key.now }
    ensures { OnOk result (members.new ≡ members.old ++ option_to_list (option_map (λ v. (key.now, v)) value)) }
{
    match value {
        Some(value) => members.push(key.copy()?, value),
        None => Ok(()),
    }
}
