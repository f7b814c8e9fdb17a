ghost use Rattle.std.specs.Prelude.{◌≡◌, None, IfOk, OnOk, IfErr};
ghost use Rattle.gql_schema.specs.Ignored.{considered};
ghost use Rattle.gql_schema.specs.Meaning.{schema_of};
ghost use Rattle.gql_schema.specs.Judged.{coded, definitions_refusal, schema_refusal, invalid_line, refusal_of, IsRefusal};

use crate::assembled::assembled;
use crate::error::{Refusal, SchemaError};
use crate::ignored::leave_out_ignored;
use crate::repeated::repeated_line;
use crate::reserved::reserved_line;
use gql_model::TypeSystemForm;
use schema_circles::{fills_itself_line, needs_itself_line};
use schema_defaults::{empty_line, unfit_line};
use schema_model::Schema;
use schema_rules::{earlier, misplaced_line, root_line, unknown_line, unsatisfied_line};
use std::alloc::Global;
use text_types::Memory;

/// The schema that type system definitions make, or the least code that is broken and its least line.
pub fn judged(alloc: Global, forms: Vec<TypeSystemForm>) -> Result<Schema, SchemaError>
    ensures schema { IfOk result (λ schema. schema ≡ schema_of (considered forms.items)) }
    ensures valid { OnOk result (refusal_of (considered forms.items) ≡ None) }
    ensures refused { IfErr result (IsRefusal (refusal_of (considered forms.items))) }
{
    let mut kept = forms;
    leave_out_ignored(&mut kept);
    match definitions_refusal(alloc, kept.as_slice())? {
        Some(refusal) => Err(refusal.into_error()),
        None => judged_schema(alloc, kept),
    }
}

/// The same of definitions that break neither S3 nor S4.
fn judged_schema(alloc: Global, forms: Vec<TypeSystemForm>) -> Result<Schema, SchemaError>
    ensures schema { IfOk result (λ schema. schema ≡ schema_of forms.items) }
    ensures valid { OnOk result (schema_refusal (schema_of forms.items) ≡ None) }
    ensures refused { IfErr result (IsRefusal (schema_refusal (schema_of forms.items))) }
{
    let schema = assembled(alloc, forms)?;
    match schema_refusal(alloc, &schema)? {
        Some(refusal) => Err(refusal.into_error()),
        None => Ok(schema),
    }
}

/// The first of S3 and S4 that is broken.
fn definitions_refusal(alloc: Global, forms: &[TypeSystemForm]) -> Result<Option<Refusal>, Memory>
    ensures { IfOk result (λ refusal. refusal ≡ definitions_refusal forms.now) }
{
    let repeated = coded(3, repeated_line(alloc, forms)?);
    Ok(repeated.or(coded(4, reserved_line(forms))))
}

/// The first of S5 to S9 that is broken.
fn schema_refusal(alloc: Global, schema: &Schema) -> Result<Option<Refusal>, Memory>
    ensures { IfOk result (λ refusal. refusal ≡ schema_refusal schema.now) }
{
    let unknown = coded(5, unknown_line(schema));
    let misplaced = coded(6, misplaced_line(schema));
    let unsatisfied = coded(7, unsatisfied_line(schema));
    let roots = coded(8, root_line(schema));
    let invalid = coded(9, invalid_line(alloc, schema)?);
    Ok(unknown.or(misplaced.or(unsatisfied.or(roots.or(invalid)))))
}

/// The least line of S9.
fn invalid_line(alloc: Global, schema: &Schema) -> Result<Option<u64>, Memory>
    ensures { IfOk result (λ line. line ≡ invalid_line schema.now) }
{
    let unfit = unfit_line(alloc, schema)?;
    let needs = needs_itself_line(alloc, schema)?;
    let fills = fills_itself_line(alloc, schema)?;
    Ok(earlier(empty_line(schema), earlier(unfit, earlier(needs, fills))))
}

fn coded(code: u8, line: Option<u64>) -> Option<Refusal>
    ensures { result ≡ coded code line }
{
    match line {
        Some(line) => Some(Refusal { code, line }),
        None => None,
    }
}
