ghost use Rattle.std.specs.Prelude.{◌≡◌, false, IfOk, is_some};
ghost use Rattle.std.specs.List.{list_any};
ghost use Rattle.std.specs.Option.{option_map_or};
ghost use Rattle.check_model.specs.Executables.{operation_is};
ghost use Rattle.check_model.specs.FieldTypes.{field_parent_on};
ghost use Rattle.check_model.specs.Sites.{some_site};
ghost use Rattle.check_model.specs.SelectionRules.{is_undefined_on, is_undefined_field, is_rootless, is_wrong_set_on, is_wrong_set, breaks_field_selections, breaks_leaf_selections};

use gql_model::{Definition, Operation};
use schema_model::{Schema, TypeId};
use site_walk::{Scope, Site, SiteTest, field_parent, is_typename};
use text_types::{Memory, Text};

/// Field Selections (GraphQL October 2021, 5.3.1): whether some field isn't defined on the type of its set, or
/// there is no root type for some operation's kind.
pub fn breaks_field_selections(scope: &Scope<'_>) -> Result<bool, Memory>
    ensures { IfOk result (λ b. b ≡ breaks_field_selections scope.now.schema.now scope.now.document.now) }
{
    if some_rootless(scope.schema, scope.document.definitions.as_slice()) {
        return Ok(true);
    }
    scope.some_site(&UndefinedField {
        schema: scope.schema,
    })
}

fn some_rootless(schema: &Schema, definitions: &[Definition]) -> bool
    ensures { result ≡ list_any (operation_is (is_rootless schema.now)) definitions.now }
{
    definitions
        .iter()
        .any(|definition| is_rootless_definition(schema, definition))
}

fn is_rootless_definition(schema: &Schema, definition: &Definition) -> bool
    ensures { result ≡ operation_is (is_rootless schema.now) definition.now }
{
    match definition {
        Definition::Operation(operation) => is_rootless(schema, operation),
        _ => false,
    }
}

fn is_rootless(schema: &Schema, operation: &Operation) -> bool
    ensures { result ≡ is_rootless schema.now operation.now }
{
    schema.root(operation.kind).is_none()
}

/// The test that a field isn't defined on the type of its set.
#[derive(Drop)]
struct UndefinedField<'a> {
    schema: &'a Schema,
}

impl<'a> SiteTest for UndefinedField<'a> {
    ghost test = { λ s site. is_undefined_field s.schema.now site };

    fn holds(&self, site: Site<'_>) -> Result<bool, Memory> {
        match site {
            Site::Selected { parent, name, .. } => Ok(is_undefined(self.schema, parent, name)),
            _ => Ok(false),
        }
    }
}

fn is_undefined(schema: &Schema, parent: Option<TypeId>, name: &Text) -> bool
    ensures { result ≡ option_map_or (is_undefined_on schema.now name.now) parent false }
{
    match parent {
        Some(parent) => is_undefined_on(schema, name, parent),
        None => false,
    }
}

fn is_undefined_on(schema: &Schema, name: &Text, parent: TypeId) -> bool
    ensures { result ≡ is_undefined_on schema.now name.now parent }
{
    !is_typename(name) && schema.field(parent, name).is_none()
}

/// Leaf Field Selections (GraphQL October 2021, 5.3.3): whether some field of a leaf type has a selection set,
/// or one of a composite type has none.
pub fn breaks_leaf_selections(scope: &Scope<'_>) -> Result<bool, Memory>
    ensures { IfOk result (λ b. b ≡ breaks_leaf_selections scope.now.schema.now scope.now.document.now) }
{
    scope.some_site(&WrongSet {
        schema: scope.schema,
    })
}

/// The test that a field has a set where it may not, or none where it must.
#[derive(Drop)]
struct WrongSet<'a> {
    schema: &'a Schema,
}

impl<'a> SiteTest for WrongSet<'a> {
    ghost test = { λ s site. is_wrong_set s.schema.now site };

    fn holds(&self, site: Site<'_>) -> Result<bool, Memory> {
        match site {
            Site::Selected {
                parent,
                name,
                has_set,
            } => Ok(has_wrong_set(self.schema, parent, name, has_set)),
            _ => Ok(false),
        }
    }
}

fn has_wrong_set(schema: &Schema, parent: Option<TypeId>, name: &Text, has_set: bool) -> bool
    ensures { result ≡ option_map_or (is_wrong_set_on schema.now name.now has_set) parent false }
{
    match parent {
        Some(parent) => has_set != has_composite_type(schema, parent, name),
        None => false,
    }
}

fn has_composite_type(schema: &Schema, parent: TypeId, name: &Text) -> bool
    ensures { result ≡ is_some (field_parent_on schema.now name.now parent) }
{
    field_parent(schema, Some(parent), name).is_some()
}
