ghost use Rattle.std.specs.Prelude.{◌≡◌, IfOk, not};
ghost use Rattle.std.specs.List.{list_any};
ghost use Rattle.check_model.specs.ValueRules.{is_unfit, has_unfit_value, breaks_values_of_correct_type};
ghost use Rattle.schema_defaults.specs.Fits.{literal_fits};

use gql_model::{Argument, Literal, TypeRef};
use schema_defaults::literal_fits;
use schema_model::{InputValue, Schema, Table};
use site_walk::{Scope, Site, SiteTest};
use std::alloc::Global;
use text_types::Memory;

/// Values of Correct Type, Input Object Field Names and Input Object Required Fields (GraphQL October
/// 2021, 5.6.1, 5.6.2 and 5.6.4): whether some literal doesn't fit its type.
pub fn breaks_values_of_correct_type(alloc: Global, scope: &Scope<'_>) -> Result<bool, Memory>
    ensures { IfOk result (λ b. b ≡ breaks_values_of_correct_type scope.now.schema.now scope.now.document.now) }
{
    scope.some_site(&UnfitValue {
        alloc,
        schema: scope.schema,
    })
}

/// The test that a site has a literal which doesn't fit its type.
#[derive(Drop)]
struct UnfitValue<'a> {
    alloc: Global,
    schema: &'a Schema,
}

impl<'a> SiteTest for UnfitValue<'a> {
    ghost test = { λ s site. has_unfit_value s.schema.now site };

    fn holds(&self, site: Site<'_>) -> Result<bool, Memory> {
        match site {
            Site::Given { defined, arguments } => {
                has_unfit_argument(self.alloc, self.schema, defined, arguments)
            }
            Site::Default { wanted, literal } => {
                is_unfit_at(self.alloc, self.schema, literal, wanted)
            }
            _ => Ok(false),
        }
    }
}

fn has_unfit_argument(
    alloc: Global,
    schema: &Schema,
    defined: &Table<InputValue>,
    arguments: &[Argument],
) -> Result<bool, Memory>
    ensures { IfOk result (λ b. b ≡ list_any (is_unfit schema.now defined.now) arguments.now) }
{
    'arguments: for argument in arguments {
        if is_unfit(alloc, schema, defined, argument)? {
            return Ok(true);
        }
    }
    Ok(false)
}

fn is_unfit(
    alloc: Global,
    schema: &Schema,
    defined: &Table<InputValue>,
    argument: &Argument,
) -> Result<bool, Memory>
    ensures { IfOk result (λ b. b ≡ is_unfit schema.now defined.now argument.now) }
{
    match defined.get(&argument.name.text) {
        Some(input) => is_unfit_at(alloc, schema, &argument.value, &input.input_type.type_ref),
        None => Ok(false),
    }
}

fn is_unfit_at(
    alloc: Global,
    schema: &Schema,
    literal: &Literal,
    wanted: &TypeRef,
) -> Result<bool, Memory>
    ensures { IfOk result (λ b. b ≡ not (literal_fits schema.now literal.now wanted.now)) }
{
    let fits = literal_fits(alloc, schema, literal, wanted)?;
    Ok(!fits)
}
