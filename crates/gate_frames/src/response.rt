//! What came of a fetch.

ghost use Rattle.std.specs.Prelude.{◌≡◌, Some, IfOk, option_map};
ghost use Rattle.serde_json.specs.View.{view};
ghost use Rattle.gql_value.specs.Outcome.{outcome_from, status_fault};
ghost use Rattle.gate_frames.specs.Frames as spec;

use gql_value::{Outcome, fault_of_status, outcome_of, outcome_of_json};
use serde_json::Value as Json;
use std::alloc::Global;
use text_types::Memory;

/// The outcome where exactly one of `body` and `text` is there, and `text` is a text.
pub(crate) fn read_outcome(
    alloc: Global,
    status: u16,
    body: Option<&Json>,
    text: Option<&Json>,
) -> Result<Option<Outcome>, Memory>
    ensures { IfOk result (λ outcome. outcome ≡ spec.outcome_given status
        (option_map (λ value. view value.now) body.entry) (option_map (λ value. view value.now) text.entry)) }
{
    match (body, text) {
        (Some(body), None) => Ok(Some(outcome_of_body(alloc, status, body)?)),
        (None, Some(text)) => outcome_of_member(alloc, status, text),
        _ => Ok(None),
    }
}

fn outcome_of_body(alloc: Global, status: u16, body: &Json) -> Result<Outcome, Memory>
    ensures { IfOk result (λ outcome. outcome ≡ outcome_from (spec.body_beside (status_fault status) (view body.now))) }
{
    match fault_of_status(status) {
        Some(fault) => Ok(Outcome::Bad(fault)),
        None => outcome_of_json(alloc, body),
    }
}

fn outcome_of_member(alloc: Global, status: u16, text: &Json) -> Result<Option<Outcome>, Memory>
    ensures { IfOk result (λ outcome. outcome ≡ spec.outcome_given status None (Some (view text.now))) }
{
    match text.as_str() {
        None => Ok(None),
        Some(bytes) => Ok(Some(outcome_of(alloc, status, bytes.as_bytes())?)),
    }
}
