//! Reading rules from their text.

ghost use Rattle.std.specs.Prelude.{◌≡◌, Ok, IfOk, IfErr};
ghost use Rattle.toml.specs.View.{table_view};
ghost use Rattle.rules_model.specs.Judgement as spec;
ghost use Rattle.updater_rules.specs.Errors.{IsRuleError};

use crate::error::RuleError;
use crate::known_keys::{TableSort, has_only};
use crate::lists::{optimistic_rules_of, updaters_of};
use crate::settings::keys_of;
use crate::tables::{may_be_list, may_be_table};
use entity_keys::KeyRules;
use rules_model::{Rules, Updater};
use schema_model::Schema;
use std::alloc::Global;
use text_types::{Items, Text};
use toml::Table;

/// The rules that a text gives under a schema, or the first table that is refused with the least code that
/// it breaks: U1 first, then an unknown table, `keys` by name, updaters and optimistic rules in order.
pub fn read_rules(alloc: Global, schema: &Schema, text: &[u8]) -> Result<Rules, RuleError>
    ensures rules { IfOk result (λ rules. spec.rules_of schema.now text.now ≡ Ok rules) }
    ensures refused { IfErr result (IsRuleError (spec.rules_of schema.now text.now)) }
{
    match toml::table_from_slice(alloc, text) {
        Ok(file) => rules_in(alloc, schema, &file),
        Err(error) => {
            if error.is_memory() {
                Err(RuleError::Memory)
            } else {
                Err(RuleError::Refused {
                    code: 1,
                    name: Text::new(alloc),
                })
            }
        }
    }
}

fn has_tables(file: &Table) -> bool
    ensures { result ≡ spec.has_tables (table_view file.now) }
{
    has_only(TableSort::File, file)
        && may_be_table("keys", file)
        && may_be_list("updater", file)
        && may_be_list("optimistic", file)
}

fn rules_in(alloc: Global, schema: &Schema, file: &Table) -> Result<Rules, RuleError>
    ensures rules { IfOk result (λ rules. spec.rules_in schema.now (table_view file.now) ≡ Ok rules) }
    ensures refused { IfErr result (IsRuleError (spec.rules_in schema.now (table_view file.now))) }
{
    if has_tables(file) {
        rules_of_tables(alloc, schema, file)
    } else {
        Err(RuleError::Refused {
            code: 2,
            name: Text::new(alloc),
        })
    }
}

#[tactic(auto, using(crate::proofs::Refusals::refused_then))]
fn rules_of_tables(alloc: Global, schema: &Schema, file: &Table) -> Result<Rules, RuleError>
    ensures rules { IfOk result (λ rules. spec.rules_of_tables schema.now (table_view file.now) ≡ Ok rules) }
    ensures refused { IfErr result (IsRuleError (spec.rules_of_tables schema.now (table_view file.now))) }
{
    match keys_of(alloc, schema, file) {
        Ok(keys) => with_keys(alloc, schema, file, keys),
        Err(error) => Err(error),
    }
}

#[tactic(auto, using(crate::proofs::Refusals::refused_then))]
fn with_keys(
    alloc: Global,
    schema: &Schema,
    file: &Table,
    keys: KeyRules,
) -> Result<Rules, RuleError>
    ensures rules { IfOk result (λ rules. spec.with_keys schema.now (table_view file.now) keys ≡ Ok rules) }
    ensures refused { IfErr result (IsRuleError (spec.with_keys schema.now (table_view file.now) keys)) }
{
    match updaters_of(alloc, schema, file) {
        Ok(updaters) => with_updaters(alloc, schema, file, keys, updaters),
        Err(error) => Err(error),
    }
}

#[tactic(auto, using(crate::proofs::Refusals::refused_then))]
fn with_updaters(
    alloc: Global,
    schema: &Schema,
    file: &Table,
    keys: KeyRules,
    updaters: Items<Updater>,
) -> Result<Rules, RuleError>
    ensures rules { IfOk result (λ rules. spec.with_updaters schema.now (table_view file.now) keys updaters ≡ Ok rules) }
    ensures refused { IfErr result (IsRuleError (spec.with_updaters schema.now (table_view file.now) keys updaters)) }
{
    match optimistic_rules_of(alloc, schema, &keys, file) {
        Ok(optimistic) => Ok(Rules {
            keys,
            updaters,
            optimistic,
        }),
        Err(error) => Err(error),
    }
}
