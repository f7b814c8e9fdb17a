ghost use Rattle.std.specs.Prelude.{◌≡◌, None, is_none, false, IfOk, OnOk, map, List, ℕ};
ghost use Rattle.std.specs.List.{fold, flat_map};
ghost use Rattle.std.specs.Option.{option_copied, option_map_or};
ghost use Rattle.schema_model.specs.declared.schema.InputValue.{InputValue};
ghost use Rattle.check_model.specs.Usages.{usages_in, usages_in_value, usages_in_field, at_item, wanted_at, argument_usages};
ghost use Rattle.variable_rules.specs.Places.{at_of, fields_of};
ghost use Rattle.variable_rules.specs.Uses.{usage, noted, note_site, IsStart, is_disallowed_for};

use crate::declared::Declared;
use crate::goes::may_stand_for;
use crate::names::UsedNames;
use crate::wanted::{Wanted, at_item, input_fields_at, wanted_at, wanted_in};
use gql_model::{Argument, Literal, LiteralValue, ObjectField, Operation, VariableDefinition};
use schema_model::{InputValue, Schema, Table};
use site_walk::{Site, Visitor};
use std::alloc::Global;
use text_types::{Memory, Text};

/// What is known of the variables that were used so far, for one operation.
#[derive(Drop)]
pub(crate) struct Uses<'a> {
    pub schema: &'a Schema,
    pub declared: Declared<'a>,
    pub used: UsedNames,
    pub undeclared: bool,
    pub disallowed: bool,
}

impl<'a> Visitor for Uses<'a> {
    ghost step = { note_site };

    fn visit(&mut self, site: Site<'_>) -> Result<(), Memory> {
        match site {
            Site::Given { defined, arguments } => {
                let schema = self.schema;
                self.note_arguments(schema, defined, arguments)
            }
            _ => Ok(()),
        }
    }
}

impl<'a> Uses<'a> {
    pub(crate) fn new(
        alloc: Global,
        schema: &'a Schema,
        operation: &'a Operation,
    ) -> Result<Uses<'a>, Memory>
        ensures { IfOk result (λ uses. IsStart schema.now operation.now uses) }
    {
        Ok(Uses {
            schema,
            declared: Declared::new(alloc, operation)?,
            used: UsedNames::new(alloc),
            undeclared: false,
            disallowed: false,
        })
    }

    fn note(&mut self, name: &Text, at: Option<Wanted<'_>>) -> Result<(), Memory>
        ensures { OnOk result (self.new ≡ noted self.old (usage name.now (at_of at.entry))) }
    {
        self.used.note(name)?;
        let variable = self.declared.find(name);
        self.undeclared = self.undeclared || variable.is_none();
        self.disallowed = self.disallowed || is_disallowed(variable, at);
        Ok(())
    }

    fn note_arguments(
        &mut self,
        schema: &Schema,
        defined: &Table<InputValue>,
        arguments: &[Argument],
    ) -> Result<(), Memory>
        ensures { OnOk result (self.new ≡ fold noted self.old (flat_map (argument_usages schema.now defined.now) arguments.now)) }
    {
        'arguments: for argument in arguments {
            let at = wanted_at(defined, &argument.name.text);
            self.note_literal(schema, &argument.value, at)?;
        }
        Ok(())
    }

    #[cycle(uses)]
    fn note_literal(
        &mut self,
        schema: &Schema,
        literal: &Literal,
        at: Option<Wanted<'_>>,
    ) -> Result<(), Memory>
        ensures { OnOk result (self.new ≡ fold noted self.old (usages_in schema.now literal.now (at_of at.entry))) }
    {
        self.note_value(schema, &literal.value, at)
    }

    #[cycle(uses)]
    fn note_value(
        &mut self,
        schema: &Schema,
        value: &LiteralValue,
        at: Option<Wanted<'_>>,
    ) -> Result<(), Memory>
        ensures { OnOk result (self.new ≡ fold noted self.old (usages_in_value schema.now value.now (at_of at.entry))) }
    {
        match value {
            LiteralValue::Variable(name) => self.note(name, at),
            LiteralValue::List(items) => self.note_items(schema, items.as_slice(), at_item(at)),
            LiteralValue::Object(fields) => {
                self.note_fields(schema, fields.as_slice(), input_fields_at(schema, at))
            }
            _ => Ok(()),
        }
    }

    #[cycle(uses)]
    fn note_items(
        &mut self,
        schema: &Schema,
        items: &[Literal],
        at: Option<Wanted<'_>>,
    ) -> Result<(), Memory>
        ensures { OnOk result (self.new ≡ fold noted self.old (flat_map (λ usages. usages (at_of at.entry)) (map (usages_in schema.now) items.now))) }
    {
        'items: for item in items {
            self.note_literal(schema, item, at)?;
        }
        Ok(())
    }

    #[cycle(uses)]
    fn note_fields(
        &mut self,
        schema: &Schema,
        fields: &[ObjectField],
        defined: Option<&Table<InputValue>>,
    ) -> Result<(), Memory>
        ensures { OnOk result (self.new ≡ fold noted self.old (flat_map (λ f. f.1 (wanted_at (fields_of (option_copied defined.entry)) f.0)) (map (usages_in_field schema.now) fields.now))) }
    {
        'fields: for field in fields {
            self.note_field(schema, field, defined)?;
        }
        Ok(())
    }

    #[cycle(uses)]
    fn note_field(
        &mut self,
        schema: &Schema,
        field: &ObjectField,
        defined: Option<&Table<InputValue>>,
    ) -> Result<(), Memory>
        ensures { OnOk result (self.new ≡ fold noted self.old ((usages_in_field schema.now field.now).1 (wanted_at (fields_of (option_copied defined.entry)) (usages_in_field schema.now field.now).0))) }
    {
        let at = wanted_in(defined, &field.name.text);
        self.note_literal(schema, &field.value, at)
    }
}

fn is_disallowed(variable: Option<&VariableDefinition>, at: Option<Wanted<'_>>) -> bool
    ensures { result ≡ is_disallowed_for (option_copied variable.entry) (at_of at.entry) }
{
    match (variable, at) {
        (Some(variable), Some(wanted)) => !may_stand_for(variable, wanted),
        _ => false,
    }
}
