//! Fields by the names of their types.

ghost use Rattle.std.specs.Prelude.{◌≡◌, IfOk};
ghost use Rattle.std.specs.Option.{option_copied};
ghost use Rattle.rules_model.specs.RootFields as spec;

use crate::marks::field_behind;
use gql_model::OperationKind;
use schema_model::{Schema, SchemaField};
use std::alloc::Global;
use text_types::{Memory, Text};

/// A field of the type of a name.
pub fn field_named<'a>(schema: &'a Schema, named: &Text, field: &Text) -> Option<&'a SchemaField>
    ensures { option_copied result ≡ spec.field_named schema.now named.now field.now }
{
    match schema.types.get(named) {
        Some(found) => found.form.field(field),
        None => None,
    }
}

fn field_at<'a>(
    alloc: Global,
    schema: &'a Schema,
    root: &Text,
    on: &Text,
) -> Result<Option<&'a SchemaField>, Memory>
    ensures { IfOk result (λ field. option_copied field ≡ spec.field_at schema.now root.now on.now) }
{
    match field_behind(root.as_str(), on.as_str()) {
        Some(field) => Ok(field_named(schema, root, &Text::from_str(alloc, field)?)),
        None => Ok(None),
    }
}

/// The field of the root of a kind of operations that `on` names.
pub(crate) fn root_field<'a>(
    alloc: Global,
    schema: &'a Schema,
    kind: OperationKind,
    on: &Text,
) -> Result<Option<&'a SchemaField>, Memory>
    ensures { IfOk result (λ field. option_copied field ≡ spec.root_field schema.now kind on.now) }
{
    match schema.roots.name_of(kind) {
        Some(root) => field_at(alloc, schema, &root.text, on),
        None => Ok(None),
    }
}

/// The root field of an updater.
pub(crate) fn updated_field<'a>(
    alloc: Global,
    schema: &'a Schema,
    on: &Text,
) -> Result<Option<&'a SchemaField>, Memory>
    ensures { IfOk result (λ field. option_copied field ≡ spec.updated_field schema.now on.now) }
{
    match root_field(alloc, schema, OperationKind::Mutation, on)? {
        Some(field) => Ok(Some(field)),
        None => root_field(alloc, schema, OperationKind::Subscription, on),
    }
}
