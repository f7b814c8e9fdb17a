//! The codes U3 to U8, each by its rule.

ghost use Rattle.std.specs.Prelude.{◌≡◌, IfOk, true};
ghost use Rattle.std.specs.Option.{option_map_or};
ghost use Rattle.rules_model.specs.Faults as spec;
ghost use Rattle.rules_model.specs.Terms as terms;
ghost use Rattle.updater_rules.specs.Naming.{is_known};

use crate::entries::entry;
use crate::root_fields::{field_named, root_field, updated_field};
use crate::settings::{has_arguments, listed_key_field};
use entity_keys::KeyRules;
use gql_model::OperationKind;
use rules_model::{Action, Optimistic, Target, Term, Terms, Updater};
use schema_model::{InputValue, Schema, SchemaField, Table};
use schema_rules::named_type;
use std::alloc::Global;
use text_types::{Memory, Text};

/// What a term may name: an argument of the root field, or a field of its type.
#[derive(Clone, Copy)]
pub(crate) enum Naming {
    Arguments,
    Members,
}

/// Whether a type is an object type of the schema.
pub(crate) fn is_object_named(schema: &Schema, name: &Text) -> bool
    ensures { result ≡ spec.is_object_named schema.now name.now }
{
    match schema.types.get(name) {
        Some(found) => found.form.is_object(),
        None => false,
    }
}

fn action_has_types(schema: &Schema, action: &Action) -> bool
    ensures { result ≡ spec.action_has_types schema.now action.now }
{
    match action {
        Action::Link(_, linked) => is_object_named(schema, &linked.to_type),
        _ => true,
    }
}

fn updater_has_types(schema: &Schema, updater: &Updater) -> bool
    ensures { result ≡ spec.updater_has_types schema.now updater.now }
{
    is_object_named(schema, &updater.named) && action_has_types(schema, &updater.action)
}

fn is_possible_named(schema: &Schema, object: &Text, named: &Text) -> bool
    ensures { result ≡ spec.is_possible_named schema.now object.now named.now }
{
    match (schema.type_named(object), schema.type_named(named)) {
        (Some(object), Some(named)) => schema.is_possible(object, named),
        _ => false,
    }
}

fn optimistic_has_type(schema: &Schema, root: &SchemaField, rule: &Optimistic) -> bool
    ensures { result ≡ spec.optimistic_has_type schema.now root.now rule.now }
{
    is_object_named(schema, &rule.named)
        && is_possible_named(schema, &rule.named, named_type(&root.field_type.type_ref))
}

/// Whether a field is defined on a type.
pub(crate) fn has_field(schema: &Schema, named: &Text, field: &Text) -> bool
    ensures { result ≡ spec.has_field schema.now named.now field.now }
{
    field_named(schema, named, field).is_some()
}

fn action_has_field(schema: &Schema, named: &Text, action: &Action) -> bool
    ensures { result ≡ spec.action_has_field schema.now named.now action.now }
{
    match action {
        Action::Write(target, _) => has_field(schema, named, &target.field),
        Action::Clear(target) => has_field(schema, named, &target.field),
        Action::Link(target, _) => has_field(schema, named, &target.field),
        Action::Invalidate => true,
        Action::InvalidateField(field) => has_field(schema, named, field),
    }
}

fn updater_has_field(schema: &Schema, updater: &Updater) -> bool
    ensures { result ≡ spec.updater_has_field schema.now updater.now }
{
    action_has_field(schema, &updater.named, &updater.action)
}

fn has_plain_key(
    alloc: Global,
    schema: &Schema,
    keys: &KeyRules,
    rule: &Optimistic,
) -> Result<bool, Memory>
    ensures { IfOk result (λ plain. plain ≡ spec.has_plain_key schema.now keys.now rule.now) }
{
    match listed_key_field(keys, &rule.named, &rule.fields) {
        Some(field) => {
            let field = Text::from_str(alloc, field)?;
            Ok(!has_arguments(schema, &rule.named, &field))
        }
        None => Ok(true),
    }
}

fn are_fields(schema: &Schema, named: &Text, fields: &Terms) -> bool
    ensures { result ≡ spec.are_fields schema.now named.now fields.now }
{
    fields
        .as_slice()
        .iter()
        .all(|field| has_field(schema, named, &field.0))
}

fn optimistic_has_fields(
    alloc: Global,
    schema: &Schema,
    keys: &KeyRules,
    rule: &Optimistic,
) -> Result<bool, Memory>
    ensures { IfOk result (λ has. has ≡ spec.optimistic_has_fields schema.now keys.now rule.now) }
{
    if are_fields(schema, &rule.named, &rule.fields) {
        has_plain_key(alloc, schema, keys, rule)
    } else {
        Ok(false)
    }
}

fn is_known(naming: Naming, schema: &Schema, root: &SchemaField, term: &Term) -> bool
    ensures { result ≡ is_known naming schema.now root.now term.now }
{
    match naming {
        Naming::Arguments => is_known_argument(root, term),
        Naming::Members => is_known_member(schema, root, term),
    }
}

fn is_known_argument(root: &SchemaField, term: &Term) -> bool
    ensures { result ≡ spec.is_known_argument root.now term.now }
{
    match term {
        Term::Argument(name) => root.arguments.has(name),
        Term::Member(_) => true,
        Term::Literal(_) => true,
    }
}

fn is_known_member(schema: &Schema, root: &SchemaField, term: &Term) -> bool
    ensures { result ≡ spec.is_known_member schema.now root.now term.now }
{
    match term {
        Term::Argument(_) => true,
        Term::Member(name) => has_field(schema, named_type(&root.field_type.type_ref), name),
        Term::Literal(_) => true,
    }
}

fn every_named(naming: Naming, schema: &Schema, root: &SchemaField, named: &Terms) -> bool
    ensures { result ≡ terms.every_named (is_known naming schema.now root.now) named.now }
{
    named
        .as_slice()
        .iter()
        .all(|term| is_known(naming, schema, root, &term.1))
}

fn every_in_action(naming: Naming, schema: &Schema, root: &SchemaField, action: &Action) -> bool
    ensures { result ≡ spec.every_in_action (is_known naming schema.now root.now) action.now }
{
    match action {
        Action::Write(target, value) => {
            every_named(naming, schema, root, &target.args) && is_known(naming, schema, root, value)
        }
        Action::Clear(target) => every_named(naming, schema, root, &target.args),
        Action::Link(target, linked) => {
            every_named(naming, schema, root, &target.args)
                && is_known(naming, schema, root, &linked.to_id)
        }
        Action::Invalidate => true,
        Action::InvalidateField(_) => true,
    }
}

fn id_is_known(naming: Naming, schema: &Schema, root: &SchemaField, id: &Option<Term>) -> bool
    ensures { result ≡ option_map_or (is_known naming schema.now root.now) id.now true }
{
    match id {
        Some(term) => is_known(naming, schema, root, term),
        None => true,
    }
}

fn every_in_updater(naming: Naming, schema: &Schema, root: &SchemaField, updater: &Updater) -> bool
    ensures { result ≡ spec.every_in_updater (is_known naming schema.now root.now) updater.now }
{
    id_is_known(naming, schema, root, &updater.id)
        && every_in_action(naming, schema, root, &updater.action)
}

fn are_arguments(defined: &Table<InputValue>, args: &Terms) -> bool
    ensures { result ≡ spec.are_arguments defined.now args.now }
{
    args.as_slice()
        .iter()
        .all(|argument| defined.has(&argument.0))
}

fn target_has_arguments(schema: &Schema, named: &Text, target: &Target) -> bool
    ensures { result ≡ spec.target_has_arguments schema.now named.now target.now }
{
    match field_named(schema, named, &target.field) {
        Some(field) => are_arguments(&field.arguments, &target.args),
        None => true,
    }
}

fn action_has_arguments(schema: &Schema, named: &Text, action: &Action) -> bool
    ensures { result ≡ spec.action_has_arguments schema.now named.now action.now }
{
    match action {
        Action::Write(target, _) => target_has_arguments(schema, named, target),
        Action::Clear(target) => target_has_arguments(schema, named, target),
        Action::Link(target, _) => target_has_arguments(schema, named, target),
        Action::Invalidate => true,
        Action::InvalidateField(_) => true,
    }
}

fn updater_has_arguments(schema: &Schema, root: &SchemaField, updater: &Updater) -> bool
    ensures { result ≡ spec.updater_has_arguments schema.now root.now updater.now }
{
    every_in_updater(Naming::Arguments, schema, root, updater)
        && action_has_arguments(schema, &updater.named, &updater.action)
}

fn lists_key(keys: &KeyRules, rule: &Optimistic) -> bool
    ensures { result ≡ spec.lists_key keys.now rule.now }
{
    match listed_key_field(keys, &rule.named, &rule.fields) {
        Some(field) => entry(rule.fields.as_slice(), field).is_some(),
        None => false,
    }
}

fn is_first_on(earlier: &[Optimistic], on: &Text) -> bool
    ensures { result ≡ spec.is_first_on earlier.now on.now }
{
    earlier.iter().all(|rule| *on != rule.on)
}

fn updater_fault_at(schema: &Schema, updater: &Updater, root: &SchemaField) -> Option<u8>
    ensures { result ≡ spec.updater_fault_at schema.now updater.now root.now }
{
    if !updater_has_types(schema, updater) {
        Some(4)
    } else if !updater_has_field(schema, updater) {
        Some(5)
    } else if !updater_has_arguments(schema, root, updater) {
        Some(6)
    } else if !every_in_updater(Naming::Members, schema, root, updater) {
        Some(7)
    } else {
        None
    }
}

/// The least code that an updater breaks.
pub(crate) fn updater_fault(
    alloc: Global,
    schema: &Schema,
    updater: &Updater,
) -> Result<Option<u8>, Memory>
    ensures { IfOk result (λ fault. fault ≡ spec.updater_fault schema.now updater.now) }
{
    match updated_field(alloc, schema, &updater.on)? {
        Some(root) => Ok(updater_fault_at(schema, updater, root)),
        None => Ok(Some(3)),
    }
}

fn optimistic_term_fault(
    schema: &Schema,
    keys: &KeyRules,
    earlier: &[Optimistic],
    rule: &Optimistic,
    root: &SchemaField,
) -> Option<u8>
    ensures { result ≡ spec.optimistic_term_fault schema.now keys.now earlier.now rule.now root.now }
{
    if !every_named(Naming::Arguments, schema, root, &rule.fields) {
        Some(6)
    } else if !every_named(Naming::Members, schema, root, &rule.fields) {
        Some(7)
    } else if !lists_key(keys, rule) || !is_first_on(earlier, &rule.on) {
        Some(8)
    } else {
        None
    }
}

fn optimistic_fault_at(
    alloc: Global,
    schema: &Schema,
    keys: &KeyRules,
    earlier: &[Optimistic],
    rule: &Optimistic,
    root: &SchemaField,
) -> Result<Option<u8>, Memory>
    ensures { IfOk result (λ fault. fault ≡ spec.optimistic_fault_at schema.now keys.now earlier.now rule.now root.now) }
{
    if !optimistic_has_type(schema, root, rule) {
        Ok(Some(4))
    } else if !optimistic_has_fields(alloc, schema, keys, rule)? {
        Ok(Some(5))
    } else {
        Ok(optimistic_term_fault(schema, keys, earlier, rule, root))
    }
}

/// The least code that an optimistic rule behind these breaks.
pub(crate) fn optimistic_fault(
    alloc: Global,
    schema: &Schema,
    keys: &KeyRules,
    earlier: &[Optimistic],
    rule: &Optimistic,
) -> Result<Option<u8>, Memory>
    ensures { IfOk result (λ fault. fault ≡ spec.optimistic_fault schema.now keys.now earlier.now rule.now) }
{
    match root_field(alloc, schema, OperationKind::Mutation, &rule.on)? {
        Some(root) => optimistic_fault_at(alloc, schema, keys, earlier, rule, root),
        None => Ok(Some(3)),
    }
}
