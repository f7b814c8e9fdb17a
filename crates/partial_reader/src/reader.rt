//! The walk over the cells that an operation reads: objects, their fields, and the links between them.

ghost use Rattle.std.specs.Prelude.{◌≡◌, ◌+◌, ◌≤◌, [], ◌∷◌, ◌++◌, IfOk, OnOk, OnErr, length, map, codes};
ghost use Rattle.std.specs.Option.{option_copied};
ghost use Rattle.execution_model.specs.Values.{list_value};
ghost use Rattle.execution_model.specs.Asked.{root_type};
ghost use Rattle.answer_model.specs.Reading as spec;
ghost use Rattle.answer_parts.specs.Heights.{height, type_height};
ghost use Rattle.field_asking.specs.Asking.{HasOwnKeys, executed, asked_field};
ghost use Rattle.partial_reader.specs.Walks.{AreLow, IsReady, after, after_all, found_within, linked, looks, no_fields, with_positions};

use crate::cells::{leaf_value, listed, null_leaf, type_in_cell, with_value};
use crate::fields::client_fields;
use crate::object::Object;
use crate::trail::{Trail, look};
use answer_parts::{ObjectType, has_shape, parent_below};
use cache_model::{Cell, EntityKey, Link};
use entity_keys::{Lookup, Steps, plain_field_key};
use field_asking::{AskedField, Asking};
use gql_model::TypeRef;
use gql_value::Value;
use schema_model::TypeId;
use schema_rules::is_non_null;
use site_walk::is_typename;
use std::alloc::Global;
use std::sync::ledger::Ledger;
use text_types::{Items, Memory, Text};

/// What reads: an operation, and the cells.
#[derive(Drop)]
pub(crate) struct Reader<'a, C: Lookup> {
    pub(crate) alloc: Global,
    pub(crate) asking: &'a Asking<'a>,
    pub(crate) cells: &'a C,
}

impl<'a, C: Lookup> Reader<'a, C> {
    /// The fields that sets ask of an object of a type, objects so deep, and none below.
    #[cycle(read)]
    pub(crate) fn object<L: Ledger>(
        &self,
        depth: u64,
        sets: &[u64],
        of: ObjectType<'_>,
        entity: &EntityKey,
        trail: &mut Trail,
        steps: &mut Steps<L>,
    ) -> Result<Object, Memory>
        requires { IsReady self.now.asking.now }
        ensures object { IfOk result (λ object. object ≡ with_positions no_fields (spec.positions_within depth (executed self.now.asking.now) (C.cells self.now.cells.now) sets.now (of.entry.0, of.entry.1.now) entity.now)) }
        ensures trail { OnOk result (trail.new ≡ after_all trail.old (map spec.member_found (spec.positions_within depth (executed self.now.asking.now) (C.cells self.now.cells.now) sets.now (of.entry.0, of.entry.1.now) entity.now))) }
        ensures counted { OnOk result (steps.new ≡ steps.old + looks (map spec.member_found (spec.positions_within depth (executed self.now.asking.now) (C.cells self.now.cells.now) sets.now (of.entry.0, of.entry.1.now) entity.now))) }
        ensures bounded { OnErr result (steps.new ≤ steps.old + looks (map spec.member_found (spec.positions_within depth (executed self.now.asking.now) (C.cells self.now.cells.now) sets.now (of.entry.0, of.entry.1.now) entity.now))) }
    {
        if depth == 0 {
            return Ok(Object::new(self.alloc));
        }
        let fields = client_fields(self.alloc, self.asking, of.0, sets)?;
        self.object_fields(depth - 1, fields.as_slice(), of, entity, trail, steps)
    }

    #[cycle(read)]
    #[tactic(auto, using(crate::proofs::StepLaws::low_at, crate::proofs::StepLaws::lacks_own))]
    fn object_fields<L: Ledger>(
        &self,
        depth: u64,
        fields: &[AskedField<'_>],
        of: ObjectType<'_>,
        entity: &EntityKey,
        trail: &mut Trail,
        steps: &mut Steps<L>,
    ) -> Result<Object, Memory>
        requires ready { IsReady self.now.asking.now }
        requires keys { HasOwnKeys fields.now }
        requires low { AreLow self.now.asking.now.inputs.schema.now fields.now }
        ensures object { IfOk result (λ object. object ≡ with_positions no_fields (map (spec.position_of (found_within depth (executed self.now.asking.now) (C.cells self.now.cells.now)) self.now.asking.now.inputs.schema.now (C.cells self.now.cells.now) (of.entry.0, of.entry.1.now) entity.now) (map asked_field fields.now))) }
        ensures trail { OnOk result (trail.new ≡ after_all trail.old (map spec.member_found (map (spec.position_of (found_within depth (executed self.now.asking.now) (C.cells self.now.cells.now)) self.now.asking.now.inputs.schema.now (C.cells self.now.cells.now) (of.entry.0, of.entry.1.now) entity.now) (map asked_field fields.now)))) }
        ensures counted { OnOk result (steps.new ≡ steps.old + looks (map spec.member_found (map (spec.position_of (found_within depth (executed self.now.asking.now) (C.cells self.now.cells.now)) self.now.asking.now.inputs.schema.now (C.cells self.now.cells.now) (of.entry.0, of.entry.1.now) entity.now) (map asked_field fields.now)))) }
        ensures bounded { OnErr result (steps.new ≤ steps.old + looks (map spec.member_found (map (spec.position_of (found_within depth (executed self.now.asking.now) (C.cells self.now.cells.now)) self.now.asking.now.inputs.schema.now (C.cells self.now.cells.now) (of.entry.0, of.entry.1.now) entity.now) (map asked_field fields.now)))) }
    {
        let mut object = Object::new(self.alloc);
        'fields: for field in fields {
            let found = self.position(depth, field, of, entity, trail, steps)?;
            let something = is_something(field, &found);
            let value = trail.or_null(is_required(field), found);
            object = object.with(&field.key, value, something)?;
        }
        Ok(object)
    }

    /// What is at the position of a field. `__typename` looks at no cell.
    #[cycle(read)]
    fn position<L: Ledger>(
        &self,
        depth: u64,
        field: &AskedField<'_>,
        of: ObjectType<'_>,
        entity: &EntityKey,
        trail: &mut Trail,
        steps: &mut Steps<L>,
    ) -> Result<Option<Value>, Memory>
        requires low { type_height (option_copied field.now.field_type) ≤ height self.now.asking.now.inputs.schema.now }
        requires ready { IsReady self.now.asking.now }
        ensures value { IfOk result (λ value. value ≡ (spec.position_found (found_within depth (executed self.now.asking.now) (C.cells self.now.cells.now)) self.now.asking.now.inputs.schema.now (C.cells self.now.cells.now) (of.entry.0, of.entry.1.now) entity.now (asked_field field.now)).value) }
        ensures trail { OnOk result (trail.new ≡ after trail.old (spec.position_found (found_within depth (executed self.now.asking.now) (C.cells self.now.cells.now)) self.now.asking.now.inputs.schema.now (C.cells self.now.cells.now) (of.entry.0, of.entry.1.now) entity.now (asked_field field.now))) }
        ensures counted { OnOk result (steps.new ≡ steps.old + length (spec.position_found (found_within depth (executed self.now.asking.now) (C.cells self.now.cells.now)) self.now.asking.now.inputs.schema.now (C.cells self.now.cells.now) (of.entry.0, of.entry.1.now) entity.now (asked_field field.now)).visited) }
        ensures bounded { OnErr result (steps.new ≤ steps.old + length (spec.position_found (found_within depth (executed self.now.asking.now) (C.cells self.now.cells.now)) self.now.asking.now.inputs.schema.now (C.cells self.now.cells.now) (of.entry.0, of.entry.1.now) entity.now (asked_field field.now)).visited) }
    {
        if is_typename(field.name) {
            Ok(Some(Value::Text(of.1.copy()?)))
        } else {
            self.field(depth, field, entity, trail, steps)
        }
    }

    #[cycle(read)]
    fn field<L: Ledger>(
        &self,
        depth: u64,
        field: &AskedField<'_>,
        entity: &EntityKey,
        trail: &mut Trail,
        steps: &mut Steps<L>,
    ) -> Result<Option<Value>, Memory>
        requires low { type_height (option_copied field.now.field_type) ≤ height self.now.asking.now.inputs.schema.now }
        requires ready { IsReady self.now.asking.now }
        ensures value { IfOk result (λ value. value ≡ (spec.field_found (found_within depth (executed self.now.asking.now) (C.cells self.now.cells.now)) self.now.asking.now.inputs.schema.now (C.cells self.now.cells.now) entity.now (asked_field field.now)).value) }
        ensures trail { OnOk result (trail.new ≡ after trail.old (spec.field_found (found_within depth (executed self.now.asking.now) (C.cells self.now.cells.now)) self.now.asking.now.inputs.schema.now (C.cells self.now.cells.now) entity.now (asked_field field.now))) }
        ensures counted { OnOk result (steps.new ≡ steps.old + length (spec.field_found (found_within depth (executed self.now.asking.now) (C.cells self.now.cells.now)) self.now.asking.now.inputs.schema.now (C.cells self.now.cells.now) entity.now (asked_field field.now)).visited) }
        ensures bounded { OnErr result (steps.new ≤ steps.old + length (spec.field_found (found_within depth (executed self.now.asking.now) (C.cells self.now.cells.now)) self.now.asking.now.inputs.schema.now (C.cells self.now.cells.now) entity.now (asked_field field.now)).visited) }
    {
        let cell = look(self.cells, entity, field.cell_key()?, trail, steps)?;
        match field.field_type {
            Some(wanted) => self.cell(depth, field, wanted, cell, trail, steps),
            None => Ok(None),
        }
    }

    #[cycle(read)]
    fn cell<L: Ledger>(
        &self,
        depth: u64,
        field: &AskedField<'_>,
        wanted: &TypeRef,
        cell: Option<&Cell>,
        trail: &mut Trail,
        steps: &mut Steps<L>,
    ) -> Result<Option<Value>, Memory>
        requires { IsReady self.now.asking.now }
        ensures value { IfOk result (λ value. value ≡ (spec.cell_found (found_within depth (executed self.now.asking.now) (C.cells self.now.cells.now)) self.now.asking.now.inputs.schema.now (C.cells self.now.cells.now) (asked_field field.now) wanted.now (option_copied cell.entry)).value) }
        ensures trail { OnOk result (trail.new ≡ after trail.old (spec.cell_found (found_within depth (executed self.now.asking.now) (C.cells self.now.cells.now)) self.now.asking.now.inputs.schema.now (C.cells self.now.cells.now) (asked_field field.now) wanted.now (option_copied cell.entry))) }
        ensures counted { OnOk result (steps.new ≡ steps.old + length (spec.cell_found (found_within depth (executed self.now.asking.now) (C.cells self.now.cells.now)) self.now.asking.now.inputs.schema.now (C.cells self.now.cells.now) (asked_field field.now) wanted.now (option_copied cell.entry)).visited) }
        ensures bounded { OnErr result (steps.new ≤ steps.old + length (spec.cell_found (found_within depth (executed self.now.asking.now) (C.cells self.now.cells.now)) self.now.asking.now.inputs.schema.now (C.cells self.now.cells.now) (asked_field field.now) wanted.now (option_copied cell.entry)).visited) }
    {
        let asking = self.asking;
        let schema = asking.inputs.schema;
        match parent_below(schema, wanted) {
            Some(parent) => {
                let sets = field.sets.as_slice();
                self.composite(depth, sets, parent, wanted, cell, trail, steps)
            }
            None => leaf_value(self.alloc, schema, wanted, cell),
        }
    }

    /// What is at a field of composite type: null, or what is behind a link of the type's shape. Any other
    /// cell counts as none.
    #[cycle(read)]
    fn composite<L: Ledger>(
        &self,
        depth: u64,
        sets: &[u64],
        parent: TypeId,
        wanted: &TypeRef,
        cell: Option<&Cell>,
        trail: &mut Trail,
        steps: &mut Steps<L>,
    ) -> Result<Option<Value>, Memory>
        requires { IsReady self.now.asking.now }
        ensures value { IfOk result (λ value. value ≡ (spec.composite_found (spec.entity_found (found_within depth (executed self.now.asking.now) (C.cells self.now.cells.now)) self.now.asking.now.inputs.schema.now (C.cells self.now.cells.now) sets.now parent) wanted.now (option_copied cell.entry)).value) }
        ensures trail { OnOk result (trail.new ≡ after trail.old (spec.composite_found (spec.entity_found (found_within depth (executed self.now.asking.now) (C.cells self.now.cells.now)) self.now.asking.now.inputs.schema.now (C.cells self.now.cells.now) sets.now parent) wanted.now (option_copied cell.entry))) }
        ensures counted { OnOk result (steps.new ≡ steps.old + length (spec.composite_found (spec.entity_found (found_within depth (executed self.now.asking.now) (C.cells self.now.cells.now)) self.now.asking.now.inputs.schema.now (C.cells self.now.cells.now) sets.now parent) wanted.now (option_copied cell.entry)).visited) }
        ensures bounded { OnErr result (steps.new ≤ steps.old + length (spec.composite_found (spec.entity_found (found_within depth (executed self.now.asking.now) (C.cells self.now.cells.now)) self.now.asking.now.inputs.schema.now (C.cells self.now.cells.now) sets.now parent) wanted.now (option_copied cell.entry)).visited) }
    {
        match cell {
            Some(Cell::Leaf(value)) => Ok(null_leaf(wanted, value)),
            Some(Cell::Link(link)) => {
                if has_shape(wanted, link) {
                    self.link(depth, sets, parent, wanted, link, trail, steps)
                } else {
                    Ok(None)
                }
            }
            None => Ok(None),
        }
    }

    #[cycle(read)]
    fn link<L: Ledger>(
        &self,
        depth: u64,
        sets: &[u64],
        parent: TypeId,
        wanted: &TypeRef,
        link: &Link,
        trail: &mut Trail,
        steps: &mut Steps<L>,
    ) -> Result<Option<Value>, Memory>
        requires { IsReady self.now.asking.now }
        ensures value { IfOk result (λ value. value ≡ (spec.link_found (spec.entity_found (found_within depth (executed self.now.asking.now) (C.cells self.now.cells.now)) self.now.asking.now.inputs.schema.now (C.cells self.now.cells.now) sets.now parent) wanted.now link.now).value) }
        ensures trail { OnOk result (trail.new ≡ after trail.old (spec.link_found (spec.entity_found (found_within depth (executed self.now.asking.now) (C.cells self.now.cells.now)) self.now.asking.now.inputs.schema.now (C.cells self.now.cells.now) sets.now parent) wanted.now link.now)) }
        ensures counted { OnOk result (steps.new ≡ steps.old + length (spec.link_found (spec.entity_found (found_within depth (executed self.now.asking.now) (C.cells self.now.cells.now)) self.now.asking.now.inputs.schema.now (C.cells self.now.cells.now) sets.now parent) wanted.now link.now).visited) }
        ensures bounded { OnErr result (steps.new ≤ steps.old + length (spec.link_found (spec.entity_found (found_within depth (executed self.now.asking.now) (C.cells self.now.cells.now)) self.now.asking.now.inputs.schema.now (C.cells self.now.cells.now) sets.now parent) wanted.now link.now).visited) }
    {
        match (wanted, link) {
            (TypeRef::Named { .. }, Link::Null) => Ok(Some(Value::Null)),
            (TypeRef::Named { .. }, Link::Entity(entity)) => {
                self.entity(depth, sets, parent, entity, trail, steps)
            }
            (TypeRef::Named { .. }, Link::List(_)) => Ok(None),
            (TypeRef::List { .. }, Link::Null) => Ok(Some(Value::Null)),
            (TypeRef::List { .. }, Link::Entity(_)) => Ok(None),
            (TypeRef::List { of, .. }, Link::List(links)) => {
                self.items(
                    depth,
                    sets,
                    parent,
                    of.get(),
                    links.as_slice(),
                    trail,
                    steps,
                )
            }
        }
    }

    /// What is behind several links: nothing, where an item of Non-Null type is absent.
    #[cycle(read)]
    fn items<L: Ledger>(
        &self,
        depth: u64,
        sets: &[u64],
        parent: TypeId,
        wanted: &TypeRef,
        links: &[Link],
        trail: &mut Trail,
        steps: &mut Steps<L>,
    ) -> Result<Option<Value>, Memory>
        requires { IsReady self.now.asking.now }
        ensures value { IfOk result (λ value. value ≡ (spec.together list_value (map (spec.item_found (linked (spec.entity_found (found_within depth (executed self.now.asking.now) (C.cells self.now.cells.now)) self.now.asking.now.inputs.schema.now (C.cells self.now.cells.now) sets.now parent) wanted.now)) links.now)).value) }
        ensures trail { OnOk result (trail.new ≡ after trail.old (spec.together list_value (map (spec.item_found (linked (spec.entity_found (found_within depth (executed self.now.asking.now) (C.cells self.now.cells.now)) self.now.asking.now.inputs.schema.now (C.cells self.now.cells.now) sets.now parent) wanted.now)) links.now))) }
        ensures counted { OnOk result (steps.new ≡ steps.old + length (spec.together list_value (map (spec.item_found (linked (spec.entity_found (found_within depth (executed self.now.asking.now) (C.cells self.now.cells.now)) self.now.asking.now.inputs.schema.now (C.cells self.now.cells.now) sets.now parent) wanted.now)) links.now)).visited) }
        ensures bounded { OnErr result (steps.new ≤ steps.old + length (spec.together list_value (map (spec.item_found (linked (spec.entity_found (found_within depth (executed self.now.asking.now) (C.cells self.now.cells.now)) self.now.asking.now.inputs.schema.now (C.cells self.now.cells.now) sets.now parent) wanted.now)) links.now)).visited) }
    {
        let mut values = Some(Items::new(self.alloc));
        'links: for link in links {
            let found = self.link(depth, sets, parent, wanted, link, trail, steps)?;
            let value = trail.or_null(is_non_null(wanted), found);
            values = with_value(values, value)?;
        }
        Ok(listed(values))
    }

    /// What is found of an object below the root: nothing, without a `__typename` of a possible type.
    #[cycle(read)]
    fn entity<L: Ledger>(
        &self,
        depth: u64,
        sets: &[u64],
        parent: TypeId,
        entity: &EntityKey,
        trail: &mut Trail,
        steps: &mut Steps<L>,
    ) -> Result<Option<Value>, Memory>
        requires { IsReady self.now.asking.now }
        ensures value { IfOk result (λ value. value ≡ ((spec.entity_found (found_within depth (executed self.now.asking.now) (C.cells self.now.cells.now)) self.now.asking.now.inputs.schema.now (C.cells self.now.cells.now) sets.now parent) entity.now).value) }
        ensures trail { OnOk result (trail.new ≡ after trail.old ((spec.entity_found (found_within depth (executed self.now.asking.now) (C.cells self.now.cells.now)) self.now.asking.now.inputs.schema.now (C.cells self.now.cells.now) sets.now parent) entity.now)) }
        ensures counted { OnOk result (steps.new ≡ steps.old + length ((spec.entity_found (found_within depth (executed self.now.asking.now) (C.cells self.now.cells.now)) self.now.asking.now.inputs.schema.now (C.cells self.now.cells.now) sets.now parent) entity.now).visited) }
        ensures bounded { OnErr result (steps.new ≤ steps.old + length ((spec.entity_found (found_within depth (executed self.now.asking.now) (C.cells self.now.cells.now)) self.now.asking.now.inputs.schema.now (C.cells self.now.cells.now) sets.now parent) entity.now).visited) }
    {
        let cell = self.typename_cell(entity, trail, steps)?;
        let asking = self.asking;
        match type_in_cell(asking.inputs.schema, parent, cell) {
            Some(of) => self.object_value(depth, sets, of, entity, trail, steps),
            None => Ok(None),
        }
    }

    /// The cell of an object's `__typename`.
    fn typename_cell<L: Ledger>(
        &self,
        entity: &EntityKey,
        trail: &mut Trail,
        steps: &mut Steps<L>,
    ) -> Result<Option<&'a Cell>, Memory>
        ensures cell { IfOk result (λ cell. option_copied cell ≡ (C.cells self.now.cells.now) entity.now (codes "__typename")) }
        ensures trail { OnOk result (trail.new ≡ record { visited = trail.old.visited ++ (entity.now, codes "__typename") ∷ []; partial = trail.old.partial }) }
        ensures counted { OnOk result (steps.new ≡ steps.old + 1) }
        ensures bounded { OnErr result (steps.new ≤ steps.old + 1) }
    {
        let name = Text::from_str(self.alloc, "__typename")?;
        let field = plain_field_key(&name)?;
        look(self.cells, entity, field, trail, steps)
    }

    #[cycle(read)]
    #[tactic(auto, using(crate::proofs::FoundLaws::object_value_all, crate::proofs::FoundLaws::object_trail, crate::proofs::FoundLaws::object_looks))]
    fn object_value<L: Ledger>(
        &self,
        depth: u64,
        sets: &[u64],
        of: ObjectType<'_>,
        entity: &EntityKey,
        trail: &mut Trail,
        steps: &mut Steps<L>,
    ) -> Result<Option<Value>, Memory>
        requires { IsReady self.now.asking.now }
        ensures value { IfOk result (λ value. value ≡ (found_within depth (executed self.now.asking.now) (C.cells self.now.cells.now) sets.now (of.entry.0, of.entry.1.now) entity.now).value) }
        ensures trail { OnOk result (trail.new ≡ after trail.old (found_within depth (executed self.now.asking.now) (C.cells self.now.cells.now) sets.now (of.entry.0, of.entry.1.now) entity.now)) }
        ensures counted { OnOk result (steps.new ≡ steps.old + length (found_within depth (executed self.now.asking.now) (C.cells self.now.cells.now) sets.now (of.entry.0, of.entry.1.now) entity.now).visited) }
        ensures bounded { OnErr result (steps.new ≤ steps.old + length (found_within depth (executed self.now.asking.now) (C.cells self.now.cells.now) sets.now (of.entry.0, of.entry.1.now) entity.now).visited) }
    {
        let object = self.object(depth, sets, of, entity, trail, steps)?;
        Ok(object.into_value())
    }
}

/// Whether null doesn't fit a field's type. `__typename` is never absent.
fn is_required(field: &AskedField<'_>) -> bool
    ensures { result ≡ spec.is_required (asked_field field.now) }
{
    match field.field_type {
        Some(field_type) => is_non_null(field_type),
        None => true,
    }
}

/// Whether something other than a `__typename` was found.
fn is_something(field: &AskedField<'_>, found: &Option<Value>) -> bool
    ensures { result ≡ spec.has_something (asked_field field.now, spec.found_if found.now) }
{
    !is_typename(field.name) && found.is_some()
}
