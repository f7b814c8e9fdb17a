ghost use Rattle.std.specs.Prelude.{◌≡◌, IfOk};
ghost use Rattle.std.specs.List.{list_any};
ghost use Rattle.check_model.specs.ArgumentRules.{is_null, gives, is_missing, has_missing_argument, breaks_required_arguments};

use gql_model::{Argument, Literal, LiteralValue};
use schema_model::{InputValue, Table};
use schema_rules::is_required;
use site_walk::{Scope, Site, SiteTest};
use text_types::{Memory, Text};

/// Required Arguments (GraphQL October 2021, 5.4.2.1): whether some argument that has to be given is missing or
/// the literal null.
pub fn breaks_required_arguments(scope: &Scope<'_>) -> Result<bool, Memory>
    ensures { IfOk result (λ b. b ≡ breaks_required_arguments scope.now.schema.now scope.now.document.now) }
{
    scope.some_site(&MissingArgument {})
}

/// The test that an argument which has to be given is missing or the literal null.
#[derive(Drop)]
struct MissingArgument {}

impl SiteTest for MissingArgument {
    ghost test = { λ s site. has_missing_argument site };

    fn holds(&self, site: Site<'_>) -> Result<bool, Memory> {
        match site {
            Site::Given { defined, arguments } => {
                Ok(some_missing(defined.as_slice(), arguments))
            }
            _ => Ok(false),
        }
    }
}

fn some_missing(defined: &[(Text, InputValue)], arguments: &[Argument]) -> bool
    ensures { result ≡ list_any (is_missing arguments.now) defined.now }
{
    defined.iter().any(|input| is_missing(arguments, input))
}

fn is_missing(arguments: &[Argument], defined: &(Text, InputValue)) -> bool
    ensures { result ≡ is_missing arguments.now defined.now }
{
    is_required(&defined.1) && !some_gives(&defined.0, arguments)
}

fn some_gives(name: &Text, arguments: &[Argument]) -> bool
    ensures { result ≡ list_any (gives name.now) arguments.now }
{
    arguments.iter().any(|argument| gives(name, argument))
}

fn gives(name: &Text, argument: &Argument) -> bool
    ensures { result ≡ gives name.now argument.now }
{
    *name == argument.name.text && !is_null(&argument.value)
}

fn is_null(literal: &Literal) -> bool
    ensures { result ≡ is_null literal.now }
{
    matches!(literal.value, LiteralValue::Null)
}
