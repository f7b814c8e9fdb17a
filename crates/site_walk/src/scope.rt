ghost use Rattle.std.specs.Prelude.{◌≡◌, cond, IfOk};
ghost use Rattle.std.specs.Option.{option_copied};
ghost use Rattle.check_model.specs.Executables.{fragment_named};
ghost use Rattle.check_model.specs.FieldTypes.{field_arguments, arguments_on, selected_type, selected_on};
ghost use Rattle.check_model.specs.Directives.{is_conditional, directive_arguments};
ghost use Rattle.check_model.specs.Sites.{spread_parent};
ghost use Rattle.fragment_rules.specs.Indexes.{Indexes};

use crate::built_in::BuiltIn;
use crate::types::{composite_named, is_typename};
use fragment_rules::FragmentIndex;
use gql_model::{Document, Fragment, TypeRef};
use schema_model::{InputValue, Schema, Table, TypeId};
use std::alloc::Global;
use text_types::{Memory, Text};

/// A document under a schema, with what is looked up in them.
#[derive(Drop)]
pub struct Scope<'a> {
    pub schema: &'a Schema,
    pub document: &'a Document,
    built_in: BuiltIn,
    fragments: FragmentIndex,
    ghost indexed: { Indexes fragments document.now.definitions },
}

impl<'a> Scope<'a> {
    /// A document under its schema, with the index of its fragments. The one error is want of memory.
    pub fn new(
        alloc: Global,
        schema: &'a Schema,
        document: &'a Document,
    ) -> Result<Scope<'a>, Memory>
        ensures schema_is { IfOk result (λ scope. scope.schema.now ≡ schema.now) }
        ensures document_is { IfOk result (λ scope. scope.document.now ≡ document.now) }
    {
        Ok(Scope {
            schema,
            document,
            built_in: BuiltIn::new(alloc)?,
            fragments: FragmentIndex::of(alloc, document)?,
        })
    }

    /// The fragment that a spread of a name spreads.
    pub fn fragment(&self, name: &Text) -> Option<&'a Fragment>
        ensures { option_copied result ≡ fragment_named self.now.document.now name.now }
    {
        self.fragments.fragment(self.document, name)
    }

    /// The type of the fragment that a spread of a name spreads.
    pub fn spread_parent(&self, name: &Text) -> Option<TypeId>
        ensures { result ≡ spread_parent self.now.schema.now self.now.document.now name.now }
    {
        match self.fragment(name) {
            Some(fragment) => composite_named(self.schema, &fragment.type_condition.text),
            None => None,
        }
    }

    /// The arguments that a field of a name has in a set of a type.
    pub fn field_arguments(&self, parent: Option<TypeId>, name: &Text) -> &Table<InputValue>
        ensures { result.now ≡ field_arguments self.now.schema.now parent name.now }
    {
        match parent {
            Some(parent) => self.arguments_on(parent, name),
            None => &self.built_in.nothing,
        }
    }

    fn arguments_on(&self, parent: TypeId, name: &Text) -> &Table<InputValue>
        ensures { result.now ≡ arguments_on self.now.schema.now name.now parent }
    {
        match self.schema.field(parent, name) {
            Some(field) => &field.arguments,
            None => &self.built_in.nothing,
        }
    }

    /// The arguments that a directive of a name has.
    pub fn directive_arguments(&self, name: &Text) -> &Table<InputValue>
        ensures { result.now ≡ directive_arguments self.now.schema.now name.now }
    {
        if is_conditional(name) {
            return &self.built_in.condition;
        }
        match self.schema.directive(name) {
            Some(directive) => &directive.arguments,
            None => &self.built_in.nothing,
        }
    }

    /// The type of a field of a name in a set of a type.
    pub fn selected_type(&self, parent: Option<TypeId>, name: &Text) -> Option<&TypeRef>
        ensures { option_copied result ≡ selected_type self.now.schema.now parent name.now }
    {
        match parent {
            Some(parent) => self.selected_on(parent, name),
            None => None,
        }
    }

    fn selected_on(&self, parent: TypeId, name: &Text) -> Option<&TypeRef>
        ensures { option_copied result ≡ selected_on self.now.schema.now name.now parent }
    {
        if is_typename(name) {
            Some(&self.built_in.typename)
        } else {
            self.schema.field_type(parent, name)
        }
    }
}

fn is_conditional(name: &Text) -> bool
    ensures { result ≡ is_conditional name.now }
{
    name.as_str() == "skip" || name.as_str() == "include"
}
