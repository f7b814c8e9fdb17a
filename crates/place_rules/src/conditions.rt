ghost use Rattle.std.specs.Prelude.{◌≡◌, IfOk};
ghost use Rattle.check_model.specs.SelectionRules.{is_unknown_condition, is_condition_without_fields, breaks_spread_type_existence, breaks_fragments_on_composites};

use schema_model::Schema;
use site_walk::{Scope, Site, SiteTest, composite_named};
use text_types::Memory;

/// Fragment Spread Type Existence (GraphQL October 2021, 5.5.1.2): whether some type condition names no type.
pub fn breaks_spread_type_existence(scope: &Scope<'_>) -> Result<bool, Memory>
    ensures { IfOk result (λ b. b ≡ breaks_spread_type_existence scope.now.schema.now scope.now.document.now) }
{
    scope.some_site(&UnknownCondition {
        schema: scope.schema,
    })
}

/// The test that a type condition names no type.
#[derive(Drop)]
struct UnknownCondition<'a> {
    schema: &'a Schema,
}

impl<'a> SiteTest for UnknownCondition<'a> {
    ghost test = { λ s site. is_unknown_condition s.schema.now site };

    fn holds(&self, site: Site<'_>) -> Result<bool, Memory> {
        match site {
            Site::Condition(name) => Ok(self.schema.type_named(name).is_none()),
            _ => Ok(false),
        }
    }
}

/// Fragments on Composite Types (GraphQL October 2021, 5.5.1.3): whether some type condition isn't an object
/// type, an interface or a union.
pub fn breaks_fragments_on_composites(scope: &Scope<'_>) -> Result<bool, Memory>
    ensures { IfOk result (λ b. b ≡ breaks_fragments_on_composites scope.now.schema.now scope.now.document.now) }
{
    scope.some_site(&ConditionWithoutFields {
        schema: scope.schema,
    })
}

/// The test that a type condition isn't an object type, an interface or a union.
#[derive(Drop)]
struct ConditionWithoutFields<'a> {
    schema: &'a Schema,
}

impl<'a> SiteTest for ConditionWithoutFields<'a> {
    ghost test = { λ s site. is_condition_without_fields s.schema.now site };

    fn holds(&self, site: Site<'_>) -> Result<bool, Memory> {
        match site {
            Site::Condition(name) => Ok(composite_named(self.schema, name).is_none()),
            _ => Ok(false),
        }
    }
}
