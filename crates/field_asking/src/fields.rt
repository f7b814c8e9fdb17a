ghost use Rattle.std.specs.Prelude.{◌≡◌, IfOk, map, slice_get};
ghost use Rattle.std.specs.Option.{option_copied, option_and_then, option_map};
ghost use Rattle.gql_numbering.specs.Beginnings.{fields_of};
ghost use Rattle.execution_model.specs.Arguments.{coerced_arguments};
ghost use Rattle.execution_model.specs.Asked.{asked_as, asked_of, asked_with};
ghost use Rattle.checked_operation.specs.Acceptance.{IsWhole, execution_of};
ghost use Rattle.gql_collection.specs.States.{IsPrepared, context_of};
ghost use Rattle.field_asking.specs.Asking.{HasOwnKeys, executed, context_at, asked_field, arguments_in};

use crate::asking::Asking;
use crate::field::AskedField;
use checked_operation::Checked;
use execution_model::Group;
use gql_coercion::{Inputs, coerced_arguments};
use gql_collection::Collector;
use gql_model::{Argument, Field, TypeRef};
use gql_value::{Members, Value};
use schema_model::{SchemaField, Table, TypeId};
use std::alloc::Global;
use text_types::{Items, Memory, Text};

impl<'a> Asking<'a> {
    /// What a checked operation asks, with the values of its variables and the flags of the sets that get
    /// `__typename` at their front. The one error is want of memory.
    pub fn new(
        alloc: Global,
        inputs: Inputs<'a>,
        operation: &'a Checked,
        variables: &'a Table<Value>,
        fronts: &'a [bool],
    ) -> Result<Asking<'a>, Memory>
        ensures execution { IfOk result (λ asking. executed asking ≡ execution_of inputs.entry.schema.now inputs.entry.defaults.now variables.now operation.now) }
        ensures operation { IfOk result (λ asking. asking.operation.now ≡ operation.now) }
        ensures fronts { IfOk result (λ asking. asking.fronts.now ≡ fronts.now) }
    {
        let typename = Text::from_str(alloc, "__typename")?;
        Ok(Asking {
            inputs,
            operation,
            variables,
            fronts,
            typename,
        })
    }

    /// What sets, by their numbers, ask of an object of a type, in order.
    pub fn fields(
        &self,
        alloc: Global,
        object: TypeId,
        sets: &[u64],
    ) -> Result<Vec<AskedField<'_>>, Memory>
        requires { IsWhole self.now.operation.now }
        ensures fields { IfOk result (λ fields. map asked_field fields.items ≡ asked_with self.now.fronts.now (executed self.now) object sets.now) }
        ensures keys { IfOk result (λ fields. HasOwnKeys fields.items) }
    {
        let groups = self.collector(object).collect(alloc, sets)?;
        self.fields_of_groups(alloc, object, groups)
    }

    fn collector(&self, object: TypeId) -> Collector<'_>
        requires { IsWhole self.now.operation.now }
        ensures prepared { IsPrepared result }
        ensures context { context_of result ≡ context_at self.now object }
    {
        Collector {
            schema: self.inputs.schema,
            document: &self.operation.document,
            numbering: &self.operation.numbering,
            fragments: &self.operation.fragments,
            variables: self.variables,
            object,
            fronts: self.fronts,
        }
    }

    fn fields_of_groups(
        &self,
        alloc: Global,
        object: TypeId,
        groups: Items<Group>,
    ) -> Result<Vec<AskedField<'_>>, Memory>
        requires { IsWhole self.now.operation.now }
        ensures { IfOk result (λ fields. map asked_field fields.items ≡ map (asked_of (executed self.now) object) groups) }
    {
        let mut fields = Vec::new(alloc);
        'groups: for group in groups.into_vec() {
            let field = self.field_of_group(alloc, object, group)?;
            fields.push(field)?;
        }
        Ok(fields)
    }

    fn field_of_group(
        &self,
        alloc: Global,
        object: TypeId,
        group: Group,
    ) -> Result<AskedField<'_>, Memory>
        requires { IsWhole self.now.operation.now }
        ensures { IfOk result (λ field. asked_field field ≡ asked_of (executed self.now) object group) }
    {
        match self.first_field(group.field) {
            Some(field) => {
                let arguments = field.arguments.as_slice();
                self.field_named(alloc, object, group, &field.name.text, arguments)
            }
            None => self.field_named(alloc, object, group, &self.typename, &[]),
        }
    }

    /// The field of a number, where the field isn't put in.
    fn first_field(&self, number: Option<u64>) -> Option<&Field>
        requires { IsWhole self.now.operation.now }
        ensures { option_copied result ≡ option_and_then (slice_get (fields_of self.now.operation.now.document)) number }
    {
        match number {
            Some(number) => {
                let operation = self.operation;
                operation.numbering.field(&operation.document, number)
            }
            None => None,
        }
    }

    fn field_named<'s>(
        &'s self,
        alloc: Global,
        object: TypeId,
        group: Group,
        name: &'s Text,
        arguments: &[Argument],
    ) -> Result<AskedField<'s>, Memory>
        ensures { IfOk result (λ field. asked_field field ≡ asked_as (executed self.now) object group (name.now, arguments.now)) }
    {
        let defined = self.inputs.schema.field(object, name);
        let arguments = self.argument_values(alloc, defined, arguments)?;
        Ok(AskedField {
            key: group.key,
            name,
            arguments,
            field_type: type_of(defined),
            sets: group.sets,
        })
    }

    /// The values of the arguments of a field; one that isn't defined has none.
    fn argument_values(
        &self,
        alloc: Global,
        defined: Option<&SchemaField>,
        arguments: &[Argument],
    ) -> Result<Members, Memory>
        ensures { IfOk result (λ members. members ≡ coerced_arguments self.now.inputs.defaults.now self.now.inputs.schema.now self.now.variables.now (arguments_in (option_copied defined.entry)) arguments.now) }
    {
        match defined {
            Some(defined) => coerced_arguments(
                alloc,
                &self.inputs,
                self.variables,
                &defined.arguments,
                arguments,
            ),
            None => Ok(Members::new(alloc)),
        }
    }
}

fn type_of<'a>(defined: Option<&'a SchemaField>) -> Option<&'a TypeRef>
    ensures { option_copied result ≡ option_map (λ f. f.field_type.type_ref) (option_copied defined.entry) }
{
    match defined {
        Some(defined) => Some(&defined.field_type.type_ref),
        None => None,
    }
}
