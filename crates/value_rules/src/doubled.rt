ghost use Rattle.std.specs.Prelude.{◌≡◌, IfOk};
ghost use Rattle.std.specs.List.{list_any};
ghost use Rattle.check_model.specs.ValueRules.{has_doubled_field, breaks_input_field_uniqueness};
ghost use Rattle.schema_defaults.specs.Doubled.{is_doubled};

use gql_model::Argument;
use schema_defaults::is_doubled;
use site_walk::{Scope, Site, SiteTest};
use std::alloc::Global;
use text_types::Memory;

/// Input Object Field Uniqueness (GraphQL October 2021, 5.6.3): whether a field stands twice in some object
/// literal.
pub fn breaks_input_field_uniqueness(alloc: Global, scope: &Scope<'_>) -> Result<bool, Memory>
    ensures { IfOk result (λ b. b ≡ breaks_input_field_uniqueness scope.now.schema.now scope.now.document.now) }
{
    scope.some_site(&DoubledField { alloc })
}

/// The test that a site has an object literal in which a field stands twice.
#[derive(Drop)]
struct DoubledField {
    alloc: Global,
}

impl SiteTest for DoubledField {
    ghost test = { λ s site. has_doubled_field site };

    fn holds(&self, site: Site<'_>) -> Result<bool, Memory> {
        match site {
            Site::Given { arguments, .. } => has_doubled_argument(self.alloc, arguments),
            Site::Default { literal, .. } => is_doubled(self.alloc, literal),
            _ => Ok(false),
        }
    }
}

fn has_doubled_argument(alloc: Global, arguments: &[Argument]) -> Result<bool, Memory>
    ensures { IfOk result (λ b. b ≡ list_any (λ a. is_doubled a.value) arguments.now) }
{
    'arguments: for argument in arguments {
        if is_doubled(alloc, &argument.value)? {
            return Ok(true);
        }
    }
    Ok(false)
}
