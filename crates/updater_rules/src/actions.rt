//! The actions of updaters, read from their tables.

ghost use Rattle.std.specs.Prelude.{◌≡◌, IfOk};
ghost use Rattle.toml.specs.View.{table_view};
ghost use Rattle.rules_model.specs.Forms as spec;
ghost use Rattle.rules_model.specs.declared.updater.ActionKind.TheVariants as kinds;

use crate::known_keys::{TableSort, has_only};
use crate::tables::{data_under, term_under, text_under};
use crate::terms::terms_of;
use rules_model::{Action, ActionKind, LinkedEntity, Target, Terms};
use std::alloc::Global;
use text_types::{Items, Memory, Text};
use toml::Table;

fn args_of(alloc: Global, table: &Table) -> Result<Option<Terms>, Memory>
    ensures { IfOk result (λ args. args ≡ spec.args_of (table_view table.now)) }
{
    match data_under("args", table) {
        Some(found) => terms_of(alloc, found),
        None => Ok(Some(Items::new(alloc))),
    }
}

fn target_of(alloc: Global, table: &Table) -> Result<Option<Target>, Memory>
    ensures { IfOk result (λ target. target ≡ spec.target_of (table_view table.now)) }
{
    let Some(field) = text_under(alloc, "field", table)? else {
        return Ok(None);
    };
    let Some(args) = args_of(alloc, table)? else {
        return Ok(None);
    };
    Ok(Some(Target { field, args }))
}

fn write_of(alloc: Global, table: &Table) -> Result<Option<Action>, Memory>
    ensures { IfOk result (λ action. action ≡ spec.action_in kinds.Write (table_view table.now)) }
{
    let Some(target) = target_of(alloc, table)? else {
        return Ok(None);
    };
    let Some(value) = term_under(alloc, "value", table)? else {
        return Ok(None);
    };
    Ok(Some(Action::Write(target, value)))
}

fn clear_of(alloc: Global, table: &Table) -> Result<Option<Action>, Memory>
    ensures { IfOk result (λ action. action ≡ spec.action_in kinds.Clear (table_view table.now)) }
{
    match target_of(alloc, table)? {
        Some(target) => Ok(Some(Action::Clear(target))),
        None => Ok(None),
    }
}

fn linked_of(alloc: Global, table: &Table) -> Result<Option<LinkedEntity>, Memory>
    ensures { IfOk result (λ linked. linked ≡ spec.linked_of (table_view table.now)) }
{
    let Some(to_type) = text_under(alloc, "to_type", table)? else {
        return Ok(None);
    };
    let Some(to_id) = term_under(alloc, "to_id", table)? else {
        return Ok(None);
    };
    Ok(Some(LinkedEntity { to_type, to_id }))
}

fn link_of(alloc: Global, table: &Table) -> Result<Option<Action>, Memory>
    ensures { IfOk result (λ action. action ≡ spec.action_in kinds.Link (table_view table.now)) }
{
    let Some(target) = target_of(alloc, table)? else {
        return Ok(None);
    };
    let Some(linked) = linked_of(alloc, table)? else {
        return Ok(None);
    };
    Ok(Some(Action::Link(target, linked)))
}

fn invalidate_field_of(alloc: Global, table: &Table) -> Result<Option<Action>, Memory>
    ensures { IfOk result (λ action. action ≡ spec.action_in kinds.InvalidateField (table_view table.now)) }
{
    match text_under(alloc, "field", table)? {
        Some(field) => Ok(Some(Action::InvalidateField(field))),
        None => Ok(None),
    }
}

/// The action of a kind, with its members.
fn action_in(alloc: Global, kind: ActionKind, table: &Table) -> Result<Option<Action>, Memory>
    ensures { IfOk result (λ action. action ≡ spec.action_in kind (table_view table.now)) }
{
    match kind {
        ActionKind::Write => write_of(alloc, table),
        ActionKind::Clear => clear_of(alloc, table),
        ActionKind::Link => link_of(alloc, table),
        ActionKind::Invalidate => Ok(Some(Action::Invalidate)),
        ActionKind::InvalidateField => invalidate_field_of(alloc, table),
    }
}

/// The kind of action that a word names.
fn kind_named(word: &Text) -> Option<ActionKind>
    ensures { result ≡ spec.kind_named word.now }
{
    if word.is("write") {
        Some(ActionKind::Write)
    } else if word.is("clear") {
        Some(ActionKind::Clear)
    } else if word.is("link") {
        Some(ActionKind::Link)
    } else if word.is("invalidate") {
        Some(ActionKind::Invalidate)
    } else if word.is("invalidate-field") {
        Some(ActionKind::InvalidateField)
    } else {
        None
    }
}

fn action_alone(alloc: Global, table: &Table, kind: ActionKind) -> Result<Option<Action>, Memory>
    ensures { IfOk result (λ action. action ≡ spec.action_alone (table_view table.now) kind) }
{
    if has_only(TableSort::Updater(kind), table) {
        action_in(alloc, kind, table)
    } else {
        Ok(None)
    }
}

fn action_named(alloc: Global, table: &Table, word: &Text) -> Result<Option<Action>, Memory>
    ensures { IfOk result (λ action. action ≡ spec.action_named (table_view table.now) word.now) }
{
    match kind_named(word) {
        Some(kind) => action_alone(alloc, table, kind),
        None => Ok(None),
    }
}

/// The action of an updater.
pub(crate) fn action_of(alloc: Global, table: &Table) -> Result<Option<Action>, Memory>
    ensures { IfOk result (λ action. action ≡ spec.action_of (table_view table.now)) }
{
    match text_under(alloc, "action", table)? {
        Some(word) => action_named(alloc, table, &word),
        None => Ok(None),
    }
}
