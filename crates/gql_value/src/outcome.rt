//! What the answer of a GraphQL origin comes to.

ghost use Rattle.std.specs.Prelude.{◌≡◌, IfOk};
ghost use Rattle.serde_json.specs.View.{view};
ghost use Rattle.gql_value.specs.Outcome as spec;
ghost use Rattle.gql_value.specs.Outcome.{json_of, meaning_of, outcome_of_data, outcome_meaning, status_fault};

use crate::json_error::JsonError;
use crate::response::{is_no_response, read_response};
use crate::value::Value;
use serde_json::Value as Json;
use std::alloc::Global;
use text_types::{Memory, Text};

/// Why a fetch has no answer.
#[derive(Debug, Drop)]
pub enum Fault {
    /// The body isn't JSON.
    F1,
    /// The body has neither `data` nor errors.
    F2,
    /// A number isn't whole. The path leads to the first one from the body.
    F3 { path: Text },
    /// The body doesn't fit. The path leads to the first part that doesn't.
    F4 { path: Text },
    /// The status is another than success.
    F5 { status: u16 },
    /// The origin can't be reached.
    F6,
    /// What came is no response of HTTP.
    F7,
    /// The body is too long.
    F8,
}

/// What a response comes to.
#[derive(Debug, Drop)]
pub enum Outcome {
    /// Its `data`, null where it has none, and its list of errors.
    Body { answer: Value, errors: Value },
    Bad(Fault),
}

/// The fault that a status is, if any. Takes no memory.
pub fn fault_of_status(status: u16) -> Option<Fault>
    ensures { result ≡ status_fault status }
{
    match status {
        502 | 503 | 504 => Some(Fault::F6),
        200..=299 => None,
        _ => Some(Fault::F5 { status }),
    }
}

/// What a response with this status and this body comes to.
pub fn outcome_of(alloc: Global, status: u16, body: &[u8]) -> Result<Outcome, Memory>
    ensures { IfOk result (λ outcome. meaning_of outcome ≡ outcome_meaning status body.now) }
{
    match fault_of_status(status) {
        Some(fault) => Ok(Outcome::Bad(fault)),
        None => outcome_of_text(alloc, body),
    }
}

fn outcome_of_text(alloc: Global, body: &[u8]) -> Result<Outcome, Memory>
    ensures { IfOk result (λ outcome. meaning_of outcome ≡ spec.outcome_of_text (json_of body.now)) }
{
    match Json::from_slice(alloc, body) {
        Ok(json) => outcome_of_json(alloc, &json),
        Err(error) => if error.is_memory() {
            Err(Memory)
        } else {
            Ok(Outcome::Bad(Fault::F1))
        },
    }
}

/// What a body that is this JSON comes to, under a status of success.
pub fn outcome_of_json(alloc: Global, json: &Json) -> Result<Outcome, Memory>
    ensures { IfOk result (λ outcome. meaning_of outcome ≡ outcome_of_data (view json.now)) }
{
    if is_no_response(json) {
        return Ok(Outcome::Bad(Fault::F2));
    }
    match read_response(alloc, json) {
        Ok(outcome) => Ok(outcome),
        Err(refusal) => match refusal.into_error(alloc) {
            JsonError::NotWhole { path } => Ok(Outcome::Bad(Fault::F3 { path })),
            JsonError::Memory => Err(Memory),
        },
    }
}
