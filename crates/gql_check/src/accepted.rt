ghost use Rattle.std.specs.Prelude.{◌≡◌, Some, true, is_some, IfOk, IfErr};
ghost use Rattle.std.specs.Option.{option_copied, option_and_then};
ghost use Rattle.check_model.specs.Judgement.{refusal_of};
ghost use Rattle.checked_operation.specs.Choice.{chosen_place, operation_at};
ghost use Rattle.checked_operation.specs.Acceptance.{IsWhole, IsAcceptedAs};
ghost use Rattle.gql_check.specs.Errors.{IsCheckError};

use crate::error::{CheckError, error_of};
use crate::whole::first_refusal;
use checked_operation::{Checked, chosen_place};
use gql_model::Document;
use schema_model::Schema;
use std::alloc::Global;
use text_types::{Memory, Text};

/// The operation of a document that a name chooses, or the only one where no name is given, if no ground
/// refuses it under a schema.
#[tactic(auto, using(checked_operation::proofs::ChoiceLaws::unrefused_place, crate::proofs::ErrorLaws::tells))]
pub fn check(
    alloc: Global,
    schema: &Schema,
    document: Document,
    name: Option<&Text>,
) -> Result<Checked, CheckError>
    ensures document { IfOk result (λ checked. checked.document ≡ document) }
    ensures accepted { IfOk result (λ checked. IsAcceptedAs schema.now (option_copied name.entry) checked) }
    ensures refused { IfErr result (IsCheckError (refusal_of schema.now document (option_copied name.entry))) }
{
    match first_refusal(alloc, schema, &document, name)? {
        Some(refusal) => Err(error_of(refusal)),
        None => Ok(chosen(alloc, document, name)?),
    }
}

/// Keeps the operation that is chosen.
fn chosen(alloc: Global, document: Document, name: Option<&Text>) -> Result<Checked, Memory>
    requires { is_some (option_and_then (operation_at document) (chosen_place document (option_copied name))) ≡ true }
    ensures document { IfOk result (λ checked. checked.document ≡ document) }
    ensures place { IfOk result (λ checked. chosen_place document (option_copied name.entry) ≡ Some checked.place) }
    ensures whole { IfOk result (λ checked. IsWhole checked) }
{
    match chosen_place(&document, name) {
        Some(place) => Checked::new(alloc, document, place),
        None => unreachable!(),
    }
}
