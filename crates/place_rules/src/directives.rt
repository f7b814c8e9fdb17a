ghost use Rattle.std.specs.Prelude.{◌≡◌, IfOk, not, map, filter};
ghost use Rattle.std.specs.List.{list_any};
ghost use Rattle.schema_defaults.specs.Seen.{Saw};
ghost use Rattle.check_model.specs.Directives.{location_name, is_selection, is_conditional, is_built_in, has_location, may_stand, is_repeatable};
ghost use Rattle.check_model.specs.Repeated.{at_no_line, stands_twice};
ghost use Rattle.check_model.specs.DirectiveRules.{is_defined_directive, has_undefined_directive, has_misplaced_directive, single_directives, has_doubled_directive, breaks_directives_defined, breaks_directive_locations, breaks_directives_unique};

use check_model::Location;
use gql_model::Directive;
use schema_defaults::Seen;
use schema_model::{Schema, SchemaDirective};
use site_walk::{Scope, Site, SiteTest};
use std::alloc::Global;
use text_types::{Memory, Text};

/// Directives Are Defined (GraphQL October 2021, 5.7.1): whether some directive is neither built in nor one of
/// the schema.
pub fn breaks_directives_defined(scope: &Scope<'_>) -> Result<bool, Memory>
    ensures { IfOk result (λ b. b ≡ breaks_directives_defined scope.now.schema.now scope.now.document.now) }
{
    scope.some_site(&UndefinedDirective {
        schema: scope.schema,
    })
}

/// The test that a directive isn't defined.
#[derive(Drop)]
struct UndefinedDirective<'a> {
    schema: &'a Schema,
}

impl<'a> SiteTest for UndefinedDirective<'a> {
    ghost test = { λ s site. has_undefined_directive s.schema.now site };

    fn holds(&self, site: Site<'_>) -> Result<bool, Memory> {
        match site {
            Site::Directed { directives, .. } => Ok(some_undefined(self.schema, directives)),
            _ => Ok(false),
        }
    }
}

fn some_undefined(schema: &Schema, directives: &[Directive]) -> bool
    ensures { result ≡ list_any (λ d. not (is_defined_directive schema.now d)) directives.now }
{
    directives
        .iter()
        .any(|directive| !is_defined(schema, directive))
}

fn is_defined(schema: &Schema, directive: &Directive) -> bool
    ensures { result ≡ is_defined_directive schema.now directive.now }
{
    is_built_in(&directive.name.text) || schema.directive(&directive.name.text).is_some()
}

fn is_built_in(name: &Text) -> bool
    ensures { result ≡ is_built_in name.now }
{
    is_conditional(name) || name.as_str() == "deprecated" || name.as_str() == "specifiedBy"
}

fn is_conditional(name: &Text) -> bool
    ensures { result ≡ is_conditional name.now }
{
    name.as_str() == "skip" || name.as_str() == "include"
}

/// Directives Are in Valid Locations (GraphQL October 2021, 5.7.2): whether some directive's locations lack
/// its place.
pub fn breaks_directive_locations(scope: &Scope<'_>) -> Result<bool, Memory>
    ensures { IfOk result (λ b. b ≡ breaks_directive_locations scope.now.schema.now scope.now.document.now) }
{
    scope.some_site(&MisplacedDirective {
        schema: scope.schema,
    })
}

/// The test that a directive's locations lack its place.
#[derive(Drop)]
struct MisplacedDirective<'a> {
    schema: &'a Schema,
}

impl<'a> SiteTest for MisplacedDirective<'a> {
    ghost test = { λ s site. has_misplaced_directive s.schema.now site };

    fn holds(&self, site: Site<'_>) -> Result<bool, Memory> {
        match site {
            Site::Directed {
                location,
                directives,
            } => Ok(some_misplaced(self.schema, location, directives)),
            _ => Ok(false),
        }
    }
}

fn some_misplaced(schema: &Schema, location: Location, directives: &[Directive]) -> bool
    ensures { result ≡ list_any (λ d. not (may_stand schema.now location d.name.text)) directives.now }
{
    directives.iter().any(|directive| !may_stand(schema, location, &directive.name.text))
}

fn may_stand(schema: &Schema, location: Location, name: &Text) -> bool
    ensures { result ≡ may_stand schema.now location name.now }
{
    if is_conditional(name) {
        return is_selection(location);
    }
    match schema.directive(name) {
        Some(directive) => has_location(location, directive),
        None => false,
    }
}

fn has_location(location: Location, directive: &SchemaDirective) -> bool
    ensures { result ≡ has_location location directive.now }
{
    directive
        .locations
        .as_slice()
        .iter()
        .any(|name| name.text.as_str() == location_name(location))
}

fn is_selection(location: Location) -> bool
    ensures { result ≡ is_selection location }
{
    matches!(
        location,
        Location::Field | Location::FragmentSpread | Location::InlineFragment
    )
}

fn location_name(location: Location) -> &'static str
    ensures { result.now ≡ location_name location }
{
    match location {
        Location::Query => "QUERY",
        Location::Mutation => "MUTATION",
        Location::Subscription => "SUBSCRIPTION",
        Location::Field => "FIELD",
        Location::FragmentDefinition => "FRAGMENT_DEFINITION",
        Location::FragmentSpread => "FRAGMENT_SPREAD",
        Location::InlineFragment => "INLINE_FRAGMENT",
        Location::VariableDefinition => "VARIABLE_DEFINITION",
    }
}

/// Directives Are Unique per Location (GraphQL October 2021, 5.7.3): whether some directive that isn't
/// repeatable stands twice.
pub fn breaks_directives_unique(alloc: Global, scope: &Scope<'_>) -> Result<bool, Memory>
    ensures { IfOk result (λ b. b ≡ breaks_directives_unique scope.now.schema.now scope.now.document.now) }
{
    scope.some_site(&DoubledDirective {
        alloc,
        schema: scope.schema,
    })
}

/// The test that a directive which isn't repeatable stands twice.
#[derive(Drop)]
struct DoubledDirective<'a> {
    alloc: Global,
    schema: &'a Schema,
}

impl<'a> SiteTest for DoubledDirective<'a> {
    ghost test = { λ s site. has_doubled_directive s.schema.now site };

    fn holds(&self, site: Site<'_>) -> Result<bool, Memory> {
        match site {
            Site::Directed { directives, .. } => {
                has_doubled(self.alloc, self.schema, directives)
            }
            _ => Ok(false),
        }
    }
}

fn has_doubled(alloc: Global, schema: &Schema, directives: &[Directive]) -> Result<bool, Memory>
    ensures { IfOk result (λ b. b ≡ stands_twice (single_directives schema.now directives.now)) }
{
    let names = single_names(alloc, schema, directives)?;
    Ok(names.repeated_line().is_some())
}

fn single_names(alloc: Global, schema: &Schema, directives: &[Directive]) -> Result<Seen, Memory>
    ensures { IfOk result (λ seen. Saw seen (map at_no_line (single_directives schema.now directives.now))) }
{
    let mut seen = Seen::new(alloc);
    'directives: for directive in directives {
        if !is_repeatable(schema, &directive.name.text) {
            seen = seen.note(&directive.name.text, 0)?;
        }
    }
    Ok(seen)
}

fn is_repeatable(schema: &Schema, name: &Text) -> bool
    ensures { result ≡ is_repeatable schema.now name.now }
{
    if is_conditional(name) {
        return false;
    }
    match schema.directive(name) {
        Some(directive) => directive.repeatable,
        None => false,
    }
}
