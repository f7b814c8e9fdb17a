//! The root of an operation: its fields, and the rules that are on them.

ghost use Rattle.std.specs.Prelude.{◌≡◌, IfOk, [], map};
ghost use Rattle.std.specs.List.{find, list_any};
ghost use Rattle.std.specs.Option.{option_copied, option_map_or};
ghost use Rattle.schema_model.specs.Schemas.{type_at};
ghost use Rattle.field_asking.specs.Asking.{executed, asked_field};
ghost use Rattle.rule_effects.specs.Effects as spec;
ghost use Rattle.rule_writes.specs.Views.{IsAsSent};

use field_asking::{AskedField, Asking};
use schema_model::TypeId;
use std::alloc::Global;
use text_types::{Memory, Text};
use updater_rules::{Optimistic, Updater, field_behind};

/// The fields that an operation asks of its root, in order, as it is sent.
pub(crate) fn root_fields<'a>(
    alloc: Global,
    asking: &'a Asking<'a>,
) -> Result<Vec<AskedField<'a>>, Memory>
    requires { IsAsSent asking.now }
    ensures { IfOk result (λ fields. map asked_field fields.items ≡ spec.root_fields (executed asking.now)) }
{
    match asking.root_type() {
        Some(of) => asking.fields(alloc, of, asking.root_sets()),
        None => Ok(Vec::new(alloc)),
    }
}

/// The name of an operation's root type.
pub(crate) fn root_type_name<'a>(asking: &'a Asking<'a>) -> &'a str
    requires { IsAsSent asking.now }
    ensures { result.now ≡ spec.root_type_name (executed asking.now) }
{
    match asking.root_type() {
        Some(of) => type_name(asking, of),
        None => "",
    }
}

fn type_name<'a>(asking: &'a Asking<'a>, of: TypeId) -> &'a str
    ensures { result.now ≡ option_map_or (λ t. t.0) (type_at asking.now.inputs.schema.now of) [] }
{
    let schema = asking.inputs.schema;
    match schema.type_name(of) {
        Some(name) => name.as_str(),
        None => "",
    }
}

/// Whether a rule is on this field of the root type of this name.
pub(crate) fn is_on(root: &str, field: &Text, on: &Text) -> bool
    ensures { result ≡ spec.is_on root.now field.now on.now }
{
    match field_behind(root, on.as_str()) {
        Some(name) => field.as_str() == name,
        None => false,
    }
}

/// Whether some updater is on a root field.
pub(crate) fn is_updated(updaters: &[Updater], root: &str, field: &Text) -> bool
    ensures { result ≡ list_any (λ updater. spec.is_on root.now field.now updater.on) updaters.now }
{
    updaters
        .iter()
        .any(|updater| is_on(root, field, &updater.on))
}

/// The optimistic rule of a root field.
pub(crate) fn optimistic_on<'r>(
    rules: &'r [Optimistic],
    root: &str,
    field: &Text,
) -> Option<&'r Optimistic>
    ensures { option_copied result ≡ find (λ rule. spec.is_on root.now field.now rule.on) rules.now }
{
    rules.iter().find(|rule| is_on(root, field, &rule.on))
}
