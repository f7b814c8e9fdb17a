ghost use Rattle.std.specs.Prelude.{◌≡◌, false, IfOk};
ghost use Rattle.std.specs.Option.{option_map_or};
ghost use Rattle.check_model.specs.SelectionRules.{are_apart, is_impossible_spread, breaks_spread_possible};

use schema_model::{Schema, TypeId};
use site_walk::{Scope, Site, SiteTest};
use text_types::Memory;

/// Fragment Spread Is Possible (GraphQL October 2021, 5.5.2.3): whether some fragment is spread where no object
/// can be of its type.
pub fn breaks_spread_possible(scope: &Scope<'_>) -> Result<bool, Memory>
    ensures { IfOk result (λ b. b ≡ breaks_spread_possible scope.now.schema.now scope.now.document.now) }
{
    scope.some_site(&ImpossibleSpread {
        schema: scope.schema,
    })
}

/// The test that a fragment is spread where no object can be of its type.
#[derive(Drop)]
struct ImpossibleSpread<'a> {
    schema: &'a Schema,
}

impl<'a> SiteTest for ImpossibleSpread<'a> {
    ghost test = { λ s site. is_impossible_spread s.schema.now site };

    fn holds(&self, site: Site<'_>) -> Result<bool, Memory> {
        match site {
            Site::Spreading { parent, fragment } => {
                Ok(are_types_apart(self.schema, parent, fragment))
            }
            _ => Ok(false),
        }
    }
}

fn are_types_apart(schema: &Schema, parent: Option<TypeId>, fragment: Option<TypeId>) -> bool
    ensures { result ≡ option_map_or (λ a. option_map_or (are_apart schema.now a) fragment false) parent false }
{
    match parent {
        Some(parent) => is_apart(schema, parent, fragment),
        None => false,
    }
}

fn is_apart(schema: &Schema, parent: TypeId, fragment: Option<TypeId>) -> bool
    ensures { result ≡ option_map_or (are_apart schema.now parent) fragment false }
{
    match fragment {
        Some(fragment) => !schema.have_common_object(parent, fragment),
        None => false,
    }
}
