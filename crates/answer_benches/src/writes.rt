//! What an answer writes.

ghost use Rattle.std.specs.Prelude.{◌≡◌, IfOk};
ghost use Rattle.execution_model.specs.Fronts.{fronts_of};
ghost use Rattle.checked_operation.specs.Acceptance.{IsWhole};
ghost use Rattle.result_writer.specs.Views.{IsAsSent};

use crate::parses::{answer_of, per_turn};
use crate::query::{operation, variables};
use crate::stop::Stop;
use crate::types::Types;
use cache_model::Writes;
use checked_operation::Checked;
use entity_keys::KeyRules;
use field_asking::Asking;
use gql_value::Value;
use op_keys::fronts;
use result_writer::{WriteError, writes_of};
use schema_model::Table;
use std::alloc::Global;
use std::time::Instant;
use text_types::Memory;

/// Finding the writes of an answer, in nanoseconds.
pub(crate) fn timed(rt: &HostRuntime, body: &[u8], turns: u64) -> Result<u128, Stop> {
    let types = Types::new(rt.alloc())?;
    let operation = operation(rt.alloc(), &types)?;
    let (answer, errors) = answer_of(rt.alloc(), body)?;
    let mut right = true;
    let start = Instant::now(rt)?;
    for _ in 0..turns {
        let writes = written(rt.alloc(), &types, &operation, &answer, &errors)?;
        right = right && !writes.is_empty();
    }
    per_turn(rt, start, turns, right)
}

/// The writes of an answer to the query, which is asked as it is sent.
pub(crate) fn written(
    alloc: Global,
    types: &Types,
    operation: &Checked,
    answer: &Value,
    errors: &Value,
) -> Result<Writes, Stop>
    requires { IsWhole operation.now }
{
    let variables = variables(alloc)?;
    let fronts = fronts(alloc, &types.schema, &operation.document)?;
    let asking = as_sent(alloc, types, operation, &variables, fronts.as_slice())?;
    match writes_of(alloc, &asking, &KeyRules::new(alloc), answer, errors) {
        Ok(writes) => Ok(writes),
        Err(WriteError::Shape { path: _ }) => Err(Stop::Answer),
        Err(WriteError::Memory) => Err(Stop::Memory),
    }
}

/// What an operation asks as it is sent, with `__typename` at the front of these sets.
fn as_sent<'a>(
    alloc: Global,
    types: &'a Types,
    operation: &'a Checked,
    variables: &'a Table<Value>,
    fronts: &'a [bool],
) -> Result<Asking<'a>, Memory>
    requires whole { IsWhole operation.now }
    requires fronts { fronts.now ≡ fronts_of types.now.schema operation.now.document }
    ensures { IfOk result (λ asking. IsAsSent asking) }
{
    let asking = Asking::new(alloc, types.inputs(), operation, variables, fronts)?;
    Ok(asking)
}
