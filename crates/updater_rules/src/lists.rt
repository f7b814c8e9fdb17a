//! The updaters and the optimistic rules of a file, in its order.

ghost use Rattle.std.specs.Prelude.{◌≡◌, ◌++◌, [], Ok, IfOk, IfErr, codes, decimal};
ghost use Rattle.toml.specs.View.{view, array_view, table_view};
ghost use Rattle.rules_model.specs.Faults.{updater_fault, optimistic_fault};
ghost use Rattle.rules_model.specs.Judgement as spec;
ghost use Rattle.rules_model.specs.Toml.{items_in, items_under};
ghost use Rattle.updater_rules.specs.Errors.{IsRuleError};

use crate::error::RuleError;
use crate::faults::{optimistic_fault, updater_fault};
use crate::forms::{optimistic_of, updater_of};
use crate::tables::array_under;
use entity_keys::KeyRules;
use rules_model::{Optimistic, Updater};
use schema_model::Schema;
use std::alloc::Global;
use text_types::{Items, Memory, Text};
use toml::Table;
use toml::value::Array;

fn numbered(alloc: Global, word: &str, number: usize) -> Result<Text, Memory>
    ensures { IfOk result (λ name. name ≡ word.now ++ decimal number) }
{
    let mut name = Text::from_str(alloc, word)?;
    name.push_str(number.to_string(alloc)?.as_str())?;
    Ok(name)
}

fn updater_name(alloc: Global, earlier: &[Updater]) -> Result<Text, Memory>
    ensures { IfOk result (λ name. name ≡ spec.updater_name earlier.now) }
{
    numbered(alloc, "updater ", earlier.len() + 1)
}

fn sound_updater(
    alloc: Global,
    schema: &Schema,
    earlier: &[Updater],
    updater: Updater,
) -> Result<Updater, RuleError>
    ensures sound { IfOk result (λ sound. spec.unless_broken (spec.updater_name earlier.now) updater (updater_fault schema.now updater) ≡ Ok sound) }
    ensures refused { IfErr result (IsRuleError (spec.unless_broken (spec.updater_name earlier.now) updater (updater_fault schema.now updater))) }
{
    match updater_fault(alloc, schema, &updater)? {
        None => Ok(updater),
        Some(code) => Err(RuleError::Refused {
            code,
            name: updater_name(alloc, earlier)?,
        }),
    }
}

fn judged_updater(
    alloc: Global,
    schema: &Schema,
    earlier: &[Updater],
    node: &toml::Value,
) -> Result<Updater, RuleError>
    ensures updater { IfOk result (λ updater. spec.judged_updater schema.now earlier.now (view node.now) ≡ Ok updater) }
    ensures refused { IfErr result (IsRuleError (spec.judged_updater schema.now earlier.now (view node.now))) }
{
    match updater_of(alloc, schema, node)? {
        Some(updater) => sound_updater(alloc, schema, earlier, updater),
        None => Err(RuleError::Refused {
            code: 2,
            name: updater_name(alloc, earlier)?,
        }),
    }
}

#[tactic(auto, using(crate::proofs::Refusals::refused_then))]
fn updaters_in(alloc: Global, schema: &Schema, array: &Array) -> Result<Items<Updater>, RuleError>
    ensures updaters { IfOk result (λ updaters. spec.updaters_onto schema.now [] (items_in (array_view array.now)) ≡ Ok updaters) }
    ensures refused { IfErr result (IsRuleError (spec.updaters_onto schema.now [] (items_in (array_view array.now)))) }
{
    let mut updaters = Items::new(alloc);
    for node in array.iter() {
        match judged_updater(alloc, schema, updaters.as_slice(), node) {
            Ok(updater) => updaters.push(updater)?,
            Err(error) => return Err(error),
        }
    }
    Ok(updaters)
}

/// The updaters of a file.
pub(crate) fn updaters_of(
    alloc: Global,
    schema: &Schema,
    file: &Table,
) -> Result<Items<Updater>, RuleError>
    ensures updaters { IfOk result (λ updaters. spec.updaters_onto schema.now [] (items_under (codes "updater") (table_view file.now)) ≡ Ok updaters) }
    ensures refused { IfErr result (IsRuleError (spec.updaters_onto schema.now [] (items_under (codes "updater") (table_view file.now)))) }
{
    match array_under("updater", file) {
        Some(array) => updaters_in(alloc, schema, array),
        None => Ok(Items::new(alloc)),
    }
}

fn optimistic_name(alloc: Global, earlier: &[Optimistic]) -> Result<Text, Memory>
    ensures { IfOk result (λ name. name ≡ spec.optimistic_name earlier.now) }
{
    numbered(alloc, "optimistic ", earlier.len() + 1)
}

fn sound_optimistic(
    alloc: Global,
    schema: &Schema,
    keys: &KeyRules,
    earlier: &[Optimistic],
    rule: Optimistic,
) -> Result<Optimistic, RuleError>
    ensures sound { IfOk result (λ sound. spec.unless_broken (spec.optimistic_name earlier.now) rule (optimistic_fault schema.now keys.now earlier.now rule) ≡ Ok sound) }
    ensures refused { IfErr result (IsRuleError (spec.unless_broken (spec.optimistic_name earlier.now) rule (optimistic_fault schema.now keys.now earlier.now rule))) }
{
    match optimistic_fault(alloc, schema, keys, earlier, &rule)? {
        None => Ok(rule),
        Some(code) => Err(RuleError::Refused {
            code,
            name: optimistic_name(alloc, earlier)?,
        }),
    }
}

fn judged_optimistic(
    alloc: Global,
    schema: &Schema,
    keys: &KeyRules,
    earlier: &[Optimistic],
    node: &toml::Value,
) -> Result<Optimistic, RuleError>
    ensures rule { IfOk result (λ rule. spec.judged_optimistic schema.now keys.now earlier.now (view node.now) ≡ Ok rule) }
    ensures refused { IfErr result (IsRuleError (spec.judged_optimistic schema.now keys.now earlier.now (view node.now))) }
{
    match optimistic_of(alloc, node)? {
        Some(rule) => sound_optimistic(alloc, schema, keys, earlier, rule),
        None => Err(RuleError::Refused {
            code: 2,
            name: optimistic_name(alloc, earlier)?,
        }),
    }
}

#[tactic(auto, using(crate::proofs::Refusals::refused_then))]
fn optimistic_in(
    alloc: Global,
    schema: &Schema,
    keys: &KeyRules,
    array: &Array,
) -> Result<Items<Optimistic>, RuleError>
    ensures rules { IfOk result (λ rules. spec.optimistic_onto schema.now keys.now [] (items_in (array_view array.now)) ≡ Ok rules) }
    ensures refused { IfErr result (IsRuleError (spec.optimistic_onto schema.now keys.now [] (items_in (array_view array.now)))) }
{
    let mut rules = Items::new(alloc);
    for node in array.iter() {
        match judged_optimistic(alloc, schema, keys, rules.as_slice(), node) {
            Ok(rule) => rules.push(rule)?,
            Err(error) => return Err(error),
        }
    }
    Ok(rules)
}

/// The optimistic rules of a file.
pub(crate) fn optimistic_rules_of(
    alloc: Global,
    schema: &Schema,
    keys: &KeyRules,
    file: &Table,
) -> Result<Items<Optimistic>, RuleError>
    ensures rules { IfOk result (λ rules. spec.optimistic_onto schema.now keys.now [] (items_under (codes "optimistic") (table_view file.now)) ≡ Ok rules) }
    ensures refused { IfErr result (IsRuleError (spec.optimistic_onto schema.now keys.now [] (items_under (codes "optimistic") (table_view file.now)))) }
{
    match array_under("optimistic", file) {
        Some(array) => optimistic_in(alloc, schema, keys, array),
        None => Ok(Items::new(alloc)),
    }
}
