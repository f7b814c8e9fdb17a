//! Key fields: what a file sets, and which field is the key of an optimistic object.

ghost use Rattle.std.specs.Prelude.{◌≡◌, [], Ok, IfOk, IfErr, codes};
ghost use Rattle.std.specs.Option.{option_copied};
ghost use Rattle.toml.specs.View.{view, table_view};
ghost use Rattle.rules_model.specs.Keys as spec;
ghost use Rattle.rules_model.specs.Judgement as judgement;
ghost use Rattle.rules_model.specs.Toml.{pairs_in, pairs_under};
ghost use Rattle.updater_rules.specs.Errors.{IsRuleError};

use crate::entries::entry;
use crate::error::RuleError;
use crate::faults::{has_field, is_object_named};
use crate::root_fields::field_named;
use crate::tables::table_under;
use entity_keys::KeyRules;
use rules_model::Terms;
use schema_model::Schema;
use std::alloc::Global;
use text_types::{Memory, Text};
use toml::Table;

/// Whether a field of a type has arguments.
pub(crate) fn has_arguments(schema: &Schema, named: &Text, field: &Text) -> bool
    ensures { result ≡ spec.has_arguments schema.now named.now field.now }
{
    match field_named(schema, named, field) {
        Some(found) => found.arguments.len() != 0,
        None => false,
    }
}

/// The key field of an object with these listed fields.
pub fn listed_key_field<'a>(keys: &'a KeyRules, named: &Text, fields: &Terms) -> Option<&'a str>
    ensures { option_copied result ≡ spec.listed_key_field keys.now named.now fields.now }
{
    match entry(keys.as_slice(), named.as_str()) {
        Some(Some(field)) => Some(field.as_str()),
        Some(None) => None,
        None => Some(default_listed(fields)),
    }
}

fn default_listed(fields: &Terms) -> &'static str
    ensures { result.now ≡ spec.default_listed fields.now }
{
    if entry(fields.as_slice(), "id").is_some() {
        "id"
    } else {
        "_id"
    }
}

fn key_name(alloc: Global, named: &Text) -> Result<Text, Memory>
    ensures { IfOk result (λ name. name ≡ judgement.key_name named.now) }
{
    let mut name = Text::from_str(alloc, "keys.")?;
    name.push(named)?;
    Ok(name)
}

fn is_key_field(schema: &Schema, named: &Text, field: &Text) -> bool
    ensures { result ≡ judgement.is_key_field schema.now named.now field.now }
{
    has_field(schema, named, field) && !has_arguments(schema, named, field)
}

/// What a text sets for an object type.
fn setting(
    alloc: Global,
    schema: &Schema,
    named: &Text,
    text: Text,
) -> Result<Option<Text>, RuleError>
    ensures found { IfOk result (λ found. judgement.setting schema.now named.now text ≡ Ok found) }
    ensures refused { IfErr result (IsRuleError (judgement.setting schema.now named.now text)) }
{
    if text.is("none") {
        Ok(None)
    } else if is_key_field(schema, named, &text) {
        Ok(Some(text))
    } else {
        Err(RuleError::Refused {
            code: 5,
            name: key_name(alloc, named)?,
        })
    }
}

fn key_setting(
    alloc: Global,
    schema: &Schema,
    named: &Text,
    text: &str,
) -> Result<Option<Text>, RuleError>
    ensures found { IfOk result (λ found. judgement.key_setting schema.now named.now text.now ≡ Ok found) }
    ensures refused { IfErr result (IsRuleError (judgement.key_setting schema.now named.now text.now)) }
{
    if is_object_named(schema, named) {
        setting(alloc, schema, named, Text::from_str(alloc, text)?)
    } else {
        Err(RuleError::Refused {
            code: 4,
            name: key_name(alloc, named)?,
        })
    }
}

fn judged_key(
    alloc: Global,
    schema: &Schema,
    named: &Text,
    node: &toml::Value,
) -> Result<Option<Text>, RuleError>
    ensures found { IfOk result (λ found. judgement.judged_key schema.now (named.now, view node.now) ≡ Ok found) }
    ensures refused { IfErr result (IsRuleError (judgement.judged_key schema.now (named.now, view node.now))) }
{
    match node.as_str() {
        Some(text) => key_setting(alloc, schema, named, text),
        None => Err(RuleError::Refused {
            code: 2,
            name: key_name(alloc, named)?,
        }),
    }
}

#[tactic(auto, using(crate::proofs::Refusals::refused_then))]
fn keys_in(alloc: Global, schema: &Schema, table: &Table) -> Result<KeyRules, RuleError>
    ensures keys { IfOk result (λ keys. judgement.keys_onto schema.now [] (pairs_in (table_view table.now)) ≡ Ok keys) }
    ensures refused { IfErr result (IsRuleError (judgement.keys_onto schema.now [] (pairs_in (table_view table.now)))) }
{
    let mut keys = KeyRules::new(alloc);
    for (name, node) in table.iter() {
        let name = Text::from_str(alloc, name.as_str())?;
        match judged_key(alloc, schema, &name, node) {
            Ok(found) => keys.push(name, found)?,
            Err(error) => return Err(error),
        }
    }
    Ok(keys)
}

/// The key fields that a file sets.
pub(crate) fn keys_of(alloc: Global, schema: &Schema, file: &Table) -> Result<KeyRules, RuleError>
    ensures keys { IfOk result (λ keys. judgement.keys_onto schema.now [] (pairs_under (codes "keys") (table_view file.now)) ≡ Ok keys) }
    ensures refused { IfErr result (IsRuleError (judgement.keys_onto schema.now [] (pairs_under (codes "keys") (table_view file.now)))) }
{
    match table_under("keys", file) {
        Some(table) => keys_in(alloc, schema, table),
        None => Ok(KeyRules::new(alloc)),
    }
}
