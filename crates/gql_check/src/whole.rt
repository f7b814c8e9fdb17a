ghost use Rattle.std.specs.Prelude.{◌≡◌, ◌++◌, IfOk};
ghost use Rattle.std.specs.Option.{option_copied};
ghost use Rattle.check_model.specs.Judgement.{first_ground, merge_grounds, place_grounds, late_grounds, refusal_of};

use crate::early::early_refusal;
use crate::late::value_refusal;
use crate::places::place_refusal;
use check_model::Refusal;
use gql_model::Document;
use merge_rules::{breaks_field_merging, breaks_single_root_field};
use schema_model::Schema;
use site_walk::Scope;
use std::alloc::Global;
use text_types::{Memory, Text};

/// Why a document and the choice of its operation are refused under a schema, or nothing.
pub fn first_refusal(
    alloc: Global,
    schema: &Schema,
    document: &Document,
    name: Option<&Text>,
) -> Result<Option<Refusal>, Memory>
    ensures { IfOk result (λ r. r ≡ refusal_of schema.now document.now (option_copied name.entry)) }
{
    match early_refusal(alloc, document, name)? {
        Some(refusal) => Ok(Some(refusal)),
        None => Ok(schema_refusal(alloc, schema, document)?),
    }
}

/// Why a document is refused under a schema, where nothing refuses it by itself.
fn schema_refusal(
    alloc: Global,
    schema: &Schema,
    document: &Document,
) -> Result<Option<Refusal>, Memory>
    ensures { IfOk result (λ r. r ≡ first_ground (place_grounds schema.now document.now ++ late_grounds schema.now document.now)) }
{
    let scope = Scope::new(alloc, schema, document)?;
    let refusal = scope_refusal(alloc, &scope)?;
    Ok(refusal)
}

fn scope_refusal(alloc: Global, scope: &Scope<'_>) -> Result<Option<Refusal>, Memory>
    ensures { IfOk result (λ r. r ≡ first_ground (place_grounds scope.now.schema.now scope.now.document.now ++ late_grounds scope.now.schema.now scope.now.document.now)) }
{
    match place_refusal(alloc, scope)? {
        Some(refusal) => Ok(Some(refusal)),
        None => Ok(late_refusal(alloc, scope)?),
    }
}

fn late_refusal(alloc: Global, scope: &Scope<'_>) -> Result<Option<Refusal>, Memory>
    ensures { IfOk result (λ r. r ≡ first_ground (late_grounds scope.now.schema.now scope.now.document.now)) }
{
    if let Some(refusal) = value_refusal(alloc, scope)? {
        return Ok(Some(refusal));
    }
    merge_refusal(alloc, scope)
}

fn merge_refusal(alloc: Global, scope: &Scope<'_>) -> Result<Option<Refusal>, Memory>
    ensures { IfOk result (λ r. r ≡ first_ground (merge_grounds scope.now.schema.now scope.now.document.now)) }
{
    if breaks_field_merging(alloc, scope)? {
        return Ok(Some(Refusal::Invalid { rule: 26 }));
    }
    if breaks_single_root_field(scope) {
        return Ok(Some(Refusal::Invalid { rule: 27 }));
    }
    Ok(None)
}
