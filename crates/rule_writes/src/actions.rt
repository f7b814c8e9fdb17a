//! What an updater writes.

ghost use Rattle.std.specs.Prelude.{◌≡◌, IfOk};
ghost use Rattle.std.specs.Option.{option_map, option_and_then};
ghost use Rattle.entity_keys.specs.Fields.{field_key_text};
ghost use Rattle.cache_model.specs.declared.cell.Cell.TheVariants as cell;
ghost use Rattle.rule_effects.specs.Effects as spec;
ghost use Rattle.rule_writes.specs.Views.{running_of};

use crate::arguments::coerced_values;
use crate::updating::Updating;
use cache_model::{Cell, EntityKey, FieldKey, Link, Write};
use entity_keys::{field_key, root_key};
use gql_value::{Members, Value};
use schema_model::SchemaField;
use text_types::{Memory, Text};
use updater_rules::{Action, LinkedEntity, Target, Term, Terms, Updater, field_named};

impl<'v> Updating<'v> {
    /// What an updater writes; nothing where a term has no value, an id is of another kind, or arguments
    /// don't coerce.
    pub(crate) fn write(&self, updater: &'v Updater) -> Result<Option<Write>, Memory>
        ensures { IfOk result (λ write. write ≡ spec.updater_write (running_of self.now) updater.now) }
    {
        match self.updated_entity(updater)? {
            Some(entity) => self.action_write(&updater.named, &updater.action, entity),
            None => Ok(None),
        }
    }

    /// The key of the object that an updater changes: the query root's, or that of an object by its id.
    fn updated_entity(&self, updater: &'v Updater) -> Result<Option<EntityKey>, Memory>
        ensures { IfOk result (λ key. key ≡ spec.updated_entity (running_of self.now).scope updater.now) }
    {
        match &updater.id {
            Some(id) => self.scope.key(self.alloc, &updater.named, id),
            None => Ok(Some(root_key(&updater.named)?)),
        }
    }

    fn action_write(
        &self,
        named: &Text,
        action: &'v Action,
        entity: EntityKey,
    ) -> Result<Option<Write>, Memory>
        ensures { IfOk result (λ write. write ≡ spec.action_write (running_of self.now) named.now action.now entity) }
    {
        match action {
            Action::Write(target, value) => self.write_value(named, entity, target, value),
            Action::Clear(target) => {
                self.set_target(named, entity, target, Cell::Leaf(Value::Null))
            }
            Action::Link(target, linked) => self.link(named, entity, target, linked),
            Action::Invalidate => Ok(Some(Write::DropAll(entity))),
            Action::InvalidateField(field) => Ok(Some(Write::DropName(entity, field.copy()?))),
        }
    }

    fn write_value(
        &self,
        named: &Text,
        entity: EntityKey,
        target: &'v Target,
        value: &'v Term,
    ) -> Result<Option<Write>, Memory>
        ensures { IfOk result (λ write. write ≡ option_and_then (λ v. spec.set_target (running_of self.now) named.now entity target.now (cell.Leaf v)) (spec.term_value (running_of self.now).scope value.now)) }
    {
        match self.scope.value(value) {
            Some(value) => {
                let cell = Cell::Leaf(value.copy(self.alloc)?);
                self.set_target(named, entity, target, cell)
            }
            None => Ok(None),
        }
    }

    fn link(
        &self,
        named: &Text,
        entity: EntityKey,
        target: &'v Target,
        linked: &'v LinkedEntity,
    ) -> Result<Option<Write>, Memory>
        ensures { IfOk result (λ write. write ≡ option_and_then (spec.set_target (running_of self.now) named.now entity target.now) (spec.linked_cell (running_of self.now) linked.now)) }
    {
        match self.linked_cell(linked)? {
            Some(cell) => self.set_target(named, entity, target, cell),
            None => Ok(None),
        }
    }

    /// The cell that leads to another object.
    #[tactic(auto, using(crate::proofs::OptionLaws::map_twice))]
    fn linked_cell(&self, linked: &'v LinkedEntity) -> Result<Option<Cell>, Memory>
        ensures { IfOk result (λ cell. cell ≡ spec.linked_cell (running_of self.now) linked.now) }
    {
        match self.scope.key(self.alloc, &linked.to_type, &linked.to_id)? {
            Some(key) => Ok(Some(Cell::Link(Link::Entity(key)))),
            None => Ok(None),
        }
    }

    /// The field of an object holds this cell.
    fn set_target(
        &self,
        named: &Text,
        entity: EntityKey,
        target: &'v Target,
        cell: Cell,
    ) -> Result<Option<Write>, Memory>
        ensures { IfOk result (λ write. write ≡ spec.set_target (running_of self.now) named.now entity target.now cell) }
    {
        match self.target_key(named, target)? {
            Some(field) => Ok(Some(Write::Set(entity, field, cell))),
            None => Ok(None),
        }
    }

    /// The key of the field that an action changes, on an object of this type.
    fn target_key(&self, named: &Text, target: &'v Target) -> Result<Option<FieldKey>, Memory>
        ensures { IfOk result (λ key. key ≡ spec.target_key (running_of self.now) named.now target.now) }
    {
        let asking = self.asking;
        match field_named(asking.inputs.schema, named, &target.field) {
            Some(field) => self.key_of_field(target, field),
            None => Ok(None),
        }
    }

    fn key_of_field(
        &self,
        target: &'v Target,
        field: &SchemaField,
    ) -> Result<Option<FieldKey>, Memory>
        ensures { IfOk result (λ key. key ≡ option_map (field_key_text target.now.field) (spec.target_arguments (running_of self.now) target.now.args field.now)) }
    {
        match self.arguments(&target.args, field)? {
            Some(arguments) => Ok(Some(field_key(&target.field, &arguments)?)),
            None => Ok(None),
        }
    }

    fn arguments(&self, args: &'v Terms, field: &SchemaField) -> Result<Option<Members>, Memory>
        ensures { IfOk result (λ members. members ≡ spec.target_arguments (running_of self.now) args.now field.now) }
    {
        match self.scope.values(self.alloc, args)? {
            Some(values) => {
                let asking = self.asking;
                let values = values.as_slice();
                coerced_values(self.alloc, &asking.inputs, &field.arguments, values)
            }
            None => Ok(None),
        }
    }
}
