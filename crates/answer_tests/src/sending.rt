ghost use Rattle.std.specs.Prelude.{◌≡◌, IfOk};
ghost use Rattle.execution_model.specs.Fronts.{fronts_of};
ghost use Rattle.checked_operation.specs.Acceptance.{IsWhole};
ghost use Rattle.result_writer.specs.Views.{IsAsSent};

use crate::operations::Types;
use checked_operation::Checked;
use field_asking::Asking;
use gql_coercion::Inputs;
use gql_value::Value;
use schema_model::Table;
use std::alloc::Global;
use text_types::Memory;

/// What an operation asks as it is sent, with `__typename` at the front of these sets.
#[tactic(auto, using(crate::proofs::SentLaws::sent))]
pub(crate) fn as_sent<'a>(
    alloc: Global,
    types: &'a Types,
    operation: &'a Checked,
    variables: &'a Table<Value>,
    fronts: &'a [bool],
) -> Result<Asking<'a>, Memory>
    requires whole { IsWhole operation.now }
    requires fronts { fronts.now ≡ fronts_of types.now.schema operation.now.document }
    ensures { IfOk result (λ asking. IsAsSent asking) }
{
    let inputs = Inputs {
        schema: &types.schema,
        defaults: &types.defaults,
    };
    let asking = Asking::new(alloc, inputs, operation, variables, fronts)?;
    Ok(asking)
}
