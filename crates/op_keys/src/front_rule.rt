//! Which selection sets get `__typename` at their front.

ghost use Rattle.std.specs.Prelude.{◌≡◌, false};
ghost use Rattle.std.specs.List.{list_any};
ghost use Rattle.std.specs.Option.{option_map_or};
ghost use Rattle.gql_model.specs.declared.selection.Field.{out-Field};
ghost use Rattle.gql_model.specs.declared.executable.OperationKind.TheVariants.{Subscription};
ghost use Rattle.schema_model.specs.Schemas.{root_of};
ghost use Rattle.schema_model.specs.Possible.{is_possible_of};
ghost use Rattle.check_model.specs.Executables.{operation_is};
ghost use Rattle.check_model.specs.RootFields as roots;
ghost use Rattle.execution_model.specs.Fronts as spec;
ghost use Rattle.op_keys.specs.Owners.{owner_of};
ghost use Rattle.op_keys.specs.Plain as plain;

use crate::owner::Owner;
use gql_model::{Definition, Document, Field, OperationKind, Selection};
use schema_model::{Schema, TypeId};
use site_walk::is_typename;

/// Whether a document has a subscription, chosen or not.
pub(crate) fn has_subscription(document: &Document) -> bool
    ensures { result ≡ spec.has_subscription document.now }
{
    document.definitions.as_slice().iter().any(is_subscription)
}

fn is_subscription(definition: &Definition) -> bool
    ensures { result ≡ operation_is (λ o. roots.is_subscription o.kind) definition.now }
{
    match definition {
        Definition::Operation(operation) => operation.kind == OperationKind::Subscription,
        _ => false,
    }
}

/// Whether a field is `__typename`, without alias and without directives.
fn is_plain_typename(field: &Field) -> bool
    ensures { result ≡ spec.is_plain_typename (out-Field field.now).alias (out-Field field.now).name.text (out-Field field.now).directives }
{
    field.alias.is_none() && is_typename(&field.name.text) && field.directives.is_empty()
}

/// Whether `__typename` is selected, without alias and without directives.
fn selects_plainly(selections: &[Selection]) -> bool
    ensures { result ≡ list_any plain.is_plain selections.now }
{
    selections.iter().any(is_plain)
}

fn is_plain(selection: &Selection) -> bool
    ensures { result ≡ plain.is_plain selection.now }
{
    match selection {
        Selection::Field(field) => is_plain_typename(field),
        _ => false,
    }
}

/// Whether `__typename` is put at the front of a set with these selections, of this owner and type.
pub(crate) fn is_fronted(
    schema: &Schema,
    subscribes: bool,
    owner: Owner,
    parent: Option<TypeId>,
    selections: &[Selection],
) -> bool
    ensures { result ≡ spec.is_fronted schema.now subscribes (owner_of owner) parent (list_any plain.is_plain selections.now) }
{
    !selects_plainly(selections) && takes_front(schema, subscribes, owner, parent)
}

/// Whether a set of this owner and type may have one field more.
fn takes_front(schema: &Schema, subscribes: bool, owner: Owner, parent: Option<TypeId>) -> bool
    ensures { result ≡ spec.takes_front schema.now subscribes (owner_of owner) parent }
{
    match owner {
        Owner::Operation => false,
        Owner::Field => true,
        Owner::Fragment => !(subscribes && takes_subscription_root(schema, parent)),
    }
}

fn takes_subscription_root(schema: &Schema, parent: Option<TypeId>) -> bool
    ensures { result ≡ spec.takes_subscription_root schema.now parent }
{
    match parent {
        Some(named) => stands_for_subscription_root(schema, named),
        None => false,
    }
}

fn stands_for_subscription_root(schema: &Schema, named: TypeId) -> bool
    ensures { result ≡ option_map_or (λ root. is_possible_of schema.now root named) (root_of schema.now Subscription) false }
{
    match schema.root(OperationKind::Subscription) {
        Some(root) => schema.is_possible(root, named),
        None => false,
    }
}
