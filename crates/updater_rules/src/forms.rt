//! Rules, read from tables that have their form.

ghost use Rattle.std.specs.Prelude.{◌≡◌, IfOk};
ghost use Rattle.toml.specs.View.{view, table_view};
ghost use Rattle.rules_model.specs.Forms as spec;

use crate::actions::action_of;
use crate::known_keys::{TableSort, has_only};
use crate::tables::{data_under, term_under, text_under};
use crate::terms::terms_of;
use rules_model::{Action, Optimistic, Term, Terms, Updater};
use schema_model::Schema;
use std::alloc::Global;
use text_types::{Memory, Text};
use toml::Table;

fn is_query_root(schema: &Schema, name: &Text) -> bool
    ensures { result ≡ spec.is_query_root schema.now name.now }
{
    match &schema.roots.query {
        Some(root) => root.text == *name,
        None => false,
    }
}

/// The id of an object of this type. The query root has none.
fn id_under(
    alloc: Global,
    schema: &Schema,
    named: &Text,
    table: &Table,
) -> Result<Option<Option<Term>>, Memory>
    ensures { IfOk result (λ id. id ≡ spec.id_under schema.now named.now (table_view table.now)) }
{
    if is_query_root(schema, named) {
        Ok(no_id_under(table))
    } else {
        own_id_under(alloc, table)
    }
}

fn no_id_under(table: &Table) -> Option<Option<Term>>
    ensures { result ≡ spec.no_id_under (table_view table.now) }
{
    match data_under("id", table) {
        Some(_) => None,
        None => Some(None),
    }
}

fn own_id_under(alloc: Global, table: &Table) -> Result<Option<Option<Term>>, Memory>
    ensures { IfOk result (λ id. id ≡ spec.own_id_under (table_view table.now)) }
{
    match term_under(alloc, "id", table)? {
        Some(id) => Ok(Some(Some(id))),
        None => Ok(None),
    }
}

fn with_object(
    alloc: Global,
    schema: &Schema,
    on: Text,
    action: Action,
    table: &Table,
    named: Text,
) -> Result<Option<Updater>, Memory>
    ensures { IfOk result (λ updater. updater ≡ spec.with_object schema.now on action (table_view table.now) named) }
{
    match id_under(alloc, schema, &named, table)? {
        Some(id) => Ok(Some(Updater {
            on,
            named,
            id,
            action,
        })),
        None => Ok(None),
    }
}

fn updater_in(alloc: Global, schema: &Schema, table: &Table) -> Result<Option<Updater>, Memory>
    ensures { IfOk result (λ updater. updater ≡ spec.updater_in schema.now (table_view table.now)) }
{
    let Some(on) = text_under(alloc, "on", table)? else {
        return Ok(None);
    };
    let Some(action) = action_of(alloc, table)? else {
        return Ok(None);
    };
    let Some(named) = text_under(alloc, "type", table)? else {
        return Ok(None);
    };
    with_object(alloc, schema, on, action, table, named)
}

/// The updater that TOML data is.
pub(crate) fn updater_of(
    alloc: Global,
    schema: &Schema,
    node: &toml::Value,
) -> Result<Option<Updater>, Memory>
    ensures { IfOk result (λ updater. updater ≡ spec.updater_of schema.now (view node.now)) }
{
    match node.as_table() {
        Some(table) => updater_in(alloc, schema, table),
        None => Ok(None),
    }
}

fn fields_of(alloc: Global, table: &Table) -> Result<Option<Terms>, Memory>
    ensures { IfOk result (λ fields. fields ≡ spec.fields_of (table_view table.now)) }
{
    match data_under("fields", table) {
        Some(node) => terms_of(alloc, node),
        None => Ok(None),
    }
}

fn optimistic_members(alloc: Global, table: &Table) -> Result<Option<Optimistic>, Memory>
    ensures { IfOk result (λ rule. rule ≡ spec.optimistic_members (table_view table.now)) }
{
    let Some(on) = text_under(alloc, "on", table)? else {
        return Ok(None);
    };
    let Some(named) = text_under(alloc, "type", table)? else {
        return Ok(None);
    };
    let Some(fields) = fields_of(alloc, table)? else {
        return Ok(None);
    };
    Ok(Some(Optimistic { on, named, fields }))
}

fn optimistic_in(alloc: Global, table: &Table) -> Result<Option<Optimistic>, Memory>
    ensures { IfOk result (λ rule. rule ≡ spec.optimistic_in (table_view table.now)) }
{
    if has_only(TableSort::Optimistic, table) {
        optimistic_members(alloc, table)
    } else {
        Ok(None)
    }
}

/// The optimistic rule that TOML data is.
pub(crate) fn optimistic_of(alloc: Global, node: &toml::Value) -> Result<Option<Optimistic>, Memory>
    ensures { IfOk result (λ rule. rule ≡ spec.optimistic_of (view node.now)) }
{
    match node.as_table() {
        Some(table) => optimistic_in(alloc, table),
        None => Ok(None),
    }
}
