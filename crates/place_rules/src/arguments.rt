ghost use Rattle.std.specs.Prelude.{◌≡◌, IfOk, map};
ghost use Rattle.std.specs.List.{list_any};
ghost use Rattle.schema_defaults.specs.Seen.{Saw};
ghost use Rattle.check_model.specs.Repeated.{at_no_line, stands_twice};
ghost use Rattle.check_model.specs.ArgumentRules.{is_undefined_argument, has_undefined_argument, argument_names, has_doubled_argument, breaks_argument_names, breaks_argument_uniqueness};

use gql_model::Argument;
use schema_defaults::Seen;
use schema_model::{InputValue, Table};
use site_walk::{Scope, Site, SiteTest};
use std::alloc::Global;
use text_types::Memory;

/// Argument Names (GraphQL October 2021, 5.4.1): whether some argument isn't defined.
pub fn breaks_argument_names(scope: &Scope<'_>) -> Result<bool, Memory>
    ensures { IfOk result (λ b. b ≡ breaks_argument_names scope.now.schema.now scope.now.document.now) }
{
    scope.some_site(&UndefinedArgument {})
}

/// The test that an argument isn't defined.
#[derive(Drop)]
struct UndefinedArgument {}

impl SiteTest for UndefinedArgument {
    ghost test = { λ s site. has_undefined_argument site };

    fn holds(&self, site: Site<'_>) -> Result<bool, Memory> {
        match site {
            Site::Given { defined, arguments } => Ok(some_undefined(defined, arguments)),
            _ => Ok(false),
        }
    }
}

fn some_undefined(defined: &Table<InputValue>, arguments: &[Argument]) -> bool
    ensures { result ≡ list_any (is_undefined_argument defined.now) arguments.now }
{
    arguments
        .iter()
        .any(|argument| is_undefined(defined, argument))
}

fn is_undefined(defined: &Table<InputValue>, argument: &Argument) -> bool
    ensures { result ≡ is_undefined_argument defined.now argument.now }
{
    defined.get(&argument.name.text).is_none()
}

/// Argument Uniqueness (GraphQL October 2021, 5.4.2): whether some argument stands twice.
pub fn breaks_argument_uniqueness(alloc: Global, scope: &Scope<'_>) -> Result<bool, Memory>
    ensures { IfOk result (λ b. b ≡ breaks_argument_uniqueness scope.now.schema.now scope.now.document.now) }
{
    scope.some_site(&DoubledArgument { alloc })
}

/// The test that an argument stands twice.
#[derive(Drop)]
struct DoubledArgument {
    alloc: Global,
}

impl SiteTest for DoubledArgument {
    ghost test = { λ s site. has_doubled_argument site };

    fn holds(&self, site: Site<'_>) -> Result<bool, Memory> {
        match site {
            Site::Given { arguments, .. } => has_doubled(self.alloc, arguments),
            _ => Ok(false),
        }
    }
}

fn has_doubled(alloc: Global, arguments: &[Argument]) -> Result<bool, Memory>
    ensures { IfOk result (λ b. b ≡ stands_twice (argument_names arguments.now)) }
{
    let names = names(alloc, arguments)?;
    Ok(names.repeated_line().is_some())
}

fn names(alloc: Global, arguments: &[Argument]) -> Result<Seen, Memory>
    ensures { IfOk result (λ seen. Saw seen (map at_no_line (argument_names arguments.now))) }
{
    let mut seen = Seen::new(alloc);
    'arguments: for argument in arguments {
        seen = seen.note(&argument.name.text, 0)?;
    }
    Ok(seen)
}
