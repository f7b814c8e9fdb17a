//! What the JSON of a line asks for.

ghost use Rattle.std.specs.Prelude.{◌≡◌, IfOk, IfErr, Ok, Err, codes};
ghost use Rattle.serde_json.specs.View.{view};
ghost use Rattle.frame_reading.specs.Members as members;
ghost use Rattle.frame_reading.specs.Frames as spec;
ghost use Rattle.frame_reading.specs.Errors.{IsFrameError, frame_meant};

use crate::error::{FrameError, bad_member};
use crate::member::{member_number, member_text};
use crate::variables::{given_object, given_text, variables_of};
use gql_value::Members;
use serde_json::Value as Json;
use std::alloc::Global;
use text_types::Text;

/// An operation that a client asks for under its id.
#[derive(Drop)]
pub struct Dispatch<'a> {
    pub id: u64,
    pub query: &'a str,
    /// The name of an operation of the query's document.
    pub operation: Option<Text>,
    pub variables: Members,
}

/// A frame that borrows from its JSON.
#[derive(Drop)]
pub enum Frame<'a> {
    Dispatch(Dispatch<'a>),
    Response { fetch: u64, body: &'a Json },
}

/// What the JSON of a line asks for, or why it isn't taken.
pub fn frame_of(alloc: Global, json: &Json) -> Result<Frame<'_>, FrameError>
    ensures frame { IfOk result (λ frame. spec.frame_of (view json.now) ≡ Ok (frame_meant frame)) }
    ensures refused { IfErr result (IsFrameError (spec.frame_of (view json.now))) }
{
    match member_text(json, "do") {
        Some("dispatch") => dispatch_in(alloc, json),
        Some("response") => response_in(alloc, json),
        _ => Err(bad_member(alloc, "do")),
    }
}

fn dispatch_in(alloc: Global, json: &Json) -> Result<Frame<'_>, FrameError>
    ensures frame { IfOk result (λ frame. spec.dispatch_in (view json.now) ≡ Ok (frame_meant frame)) }
    ensures refused { IfErr result (IsFrameError (spec.dispatch_in (view json.now))) }
{
    match member_number(json, "id") {
        Some(id) => with_query(alloc, json, id),
        None => Err(bad_member(alloc, "id")),
    }
}

fn with_query(alloc: Global, json: &Json, id: u64) -> Result<Frame<'_>, FrameError>
    ensures frame { IfOk result (λ frame. spec.with_id (view json.now) (Ok id) ≡ Ok (frame_meant frame)) }
    ensures refused { IfErr result (IsFrameError (spec.with_id (view json.now) (Ok id))) }
{
    match member_text(json, "query") {
        Some(query) => with_operation(alloc, json, id, query),
        None => Err(bad_member(alloc, "query")),
    }
}

fn with_operation<'a>(
    alloc: Global,
    json: &'a Json,
    id: u64,
    query: &'a str,
) -> Result<Frame<'a>, FrameError>
    ensures frame { IfOk result (λ frame. spec.with_query (view json.now) id (Ok query.now) ≡ Ok (frame_meant frame)) }
    ensures refused { IfErr result (IsFrameError (spec.with_query (view json.now) id (Ok query.now))) }
{
    match given_text(alloc, json.get("operationName"))? {
        Some(operation) => with_variables(alloc, json, id, query, operation),
        None => Err(bad_member(alloc, "operationName")),
    }
}

fn with_variables<'a>(
    alloc: Global,
    json: &'a Json,
    id: u64,
    query: &'a str,
    operation: Option<Text>,
) -> Result<Frame<'a>, FrameError>
    ensures frame { IfOk result (λ frame. spec.with_operation (view json.now) id query.now (Ok operation) ≡ Ok (frame_meant frame)) }
    ensures refused { IfErr result (IsFrameError (spec.with_operation (view json.now) id query.now (Ok operation))) }
{
    let Some(given) = given_object(json.get("variables")) else {
        return Err(bad_member(alloc, "variables"));
    };
    if json.get("policy").is_some() {
        return Err(bad_member(alloc, "policy"));
    }
    if json.get("then").is_some() {
        return Err(bad_member(alloc, "then"));
    }
    let variables = variables_of(alloc, given)?;
    Ok(Frame::Dispatch(Dispatch {
        id,
        query,
        operation,
        variables,
    }))
}

fn response_in(alloc: Global, json: &Json) -> Result<Frame<'_>, FrameError>
    ensures frame { IfOk result (λ frame. spec.response_in (view json.now) ≡ Ok (frame_meant frame)) }
    ensures refused { IfErr result (IsFrameError (spec.response_in (view json.now))) }
{
    if has_dispatch_member(json) {
        return Err(bad_member(alloc, "do"));
    }
    match (member_number(json, "fetch"), json.get("body")) {
        (Some(fetch), Some(body)) => Ok(Frame::Response { fetch, body }),
        _ => Err(bad_member(alloc, "do")),
    }
}

fn has_dispatch_member(json: &Json) -> bool
    ensures { result ≡ spec.has_dispatch_member (view json.now) }
{
    json.get("operationName").is_some()
        || json.get("variables").is_some()
        || json.get("policy").is_some()
        || json.get("then").is_some()
}
