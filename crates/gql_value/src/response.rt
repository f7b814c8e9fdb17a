//! The response of GraphQL that the JSON of a body is.

ghost use Rattle.std.specs.Prelude.{◌≡◌, codes, not, None, IfOk, OnOk, IfErr, option_map, option_and_then, is_some, position, decimal, ◌++◌};
ghost use Rattle.std.specs.List.{list_all};
ghost use Rattle.serde_json.specs.Data.{array};
ghost use Rattle.serde_json.specs.View.{items_view, view};
ghost use Rattle.serde_json.specs.Find.{as_str, get};
ghost use Rattle.gql_value.specs.Json.{data_of, behind, not_whole};
ghost use Rattle.gql_value.specs.Outcome as spec;
ghost use Rattle.gql_value.specs.Outcome.{or_null, errors_misfit, errors_kept, first_not_whole, meaning_of, counted_response, list_of, whole_response};
ghost use Rattle.gql_value.specs.Refusal.{IsStepsOf};

use crate::json::{convert, index_text};
use crate::outcome::{Fault, Outcome};
use crate::refusal::Refusal;
use crate::value::{Value, Values};
use serde_json::Value as Json;
use std::alloc::Global;
use text_types::{Memory, Text};

/// Whether a body has neither `data` nor errors.
pub(crate) fn is_no_response(json: &Json) -> bool
    ensures { result ≡ spec.is_no_response (view json.now) }
{
    json.get("data").is_none() && tells_no_error(json.get("errors"))
}

fn tells_no_error(errors: Option<&Json>) -> bool
    ensures { result ≡ spec.tells_no_error (or_null (option_map (λ e. view e.now) errors.entry)) }
{
    match errors {
        None => true,
        Some(errors) => is_nothing(errors),
    }
}

fn is_nothing(errors: &Json) -> bool
    ensures { result ≡ spec.tells_no_error (view errors.now) }
{
    match errors {
        Json::Null => true,
        Json::Array(entries) => has_no_entry(entries),
        _ => false,
    }
}

fn has_no_entry(entries: &Vec<Json>) -> bool
    ensures { result ≡ spec.tells_no_error (array (items_view entries.now.items)) }
{
    entries.as_slice().is_empty()
}

/// What a body comes to that is a response.
pub(crate) fn read_response(alloc: Global, json: &Json) -> Result<Outcome, Refusal>
    ensures read { IfOk result (λ outcome. meaning_of outcome ≡ counted_response (view json.now) (first_not_whole (view json.now))) }
    ensures refused { IfErr result (IsStepsOf (first_not_whole (view json.now))) }
{
    let answer = convert_member(alloc, json, "data")?;
    let errors = convert_member(alloc, json, "errors")?;
    Ok(fitting(alloc, json, answer, errors)?)
}

/// The value of a member, which is null where there is none.
fn convert_member(alloc: Global, json: &Json, name: &str) -> Result<Value, Refusal>
    ensures value { IfOk result (λ v. data_of v ≡ or_null (get name.now (view json.now))) }
    ensures whole { OnOk result (not_whole (or_null (get name.now (view json.now))) ≡ None) }
    ensures refused { IfErr result (IsStepsOf (behind name.now (not_whole (or_null (get name.now (view json.now)))))) }
{
    match json.get(name) {
        None => Ok(Value::Null),
        Some(member) => match convert(alloc, member) {
            Ok(value) => Ok(value),
            Err(refusal) => Err(refusal.behind(Text::from_str(alloc, name)?)),
        },
    }
}

/// The answer with its errors, where these are a list of errors.
fn fitting(alloc: Global, json: &Json, answer: Value, errors: Value) -> Result<Outcome, Memory>
    requires answer { data_of answer ≡ or_null (get (codes "data") (view json.now)) }
    requires errors { data_of errors ≡ or_null (get (codes "errors") (view json.now)) }
    ensures { IfOk result (λ outcome. meaning_of outcome ≡ whole_response (view json.now) (errors_misfit (or_null (get (codes "errors") (view json.now))))) }
{
    match misfit_of(alloc, json.get("errors"))? {
        Some(path) => Ok(Outcome::Bad(Fault::F4 { path })),
        None => Ok(Outcome::Body {
            answer,
            errors: kept_errors(alloc, errors),
        }),
    }
}

/// No errors in place of null.
fn kept_errors(alloc: Global, errors: Value) -> Value
    ensures { data_of result ≡ errors_kept (data_of errors) }
{
    match errors {
        Value::Null => Value::List(Values::new(alloc)),
        other => other,
    }
}

/// The path to what isn't a list of errors, or to the first entry that is no error.
fn misfit_of(alloc: Global, errors: Option<&Json>) -> Result<Option<Text>, Memory>
    ensures { IfOk result (λ path. path ≡ errors_misfit (or_null (option_map (λ e. view e.now) errors.entry))) }
{
    match errors {
        None => Ok(None),
        Some(errors) => value_misfit(alloc, errors),
    }
}

fn value_misfit(alloc: Global, errors: &Json) -> Result<Option<Text>, Memory>
    ensures { IfOk result (λ path. path ≡ errors_misfit (view errors.now)) }
{
    match errors {
        Json::Null => Ok(None),
        Json::Array(entries) => entry_misfit(alloc, entries),
        _ => Ok(Some(Text::from_str(alloc, "errors")?)),
    }
}

fn entry_misfit(alloc: Global, entries: &Vec<Json>) -> Result<Option<Text>, Memory>
    ensures { IfOk result (λ path. path ≡ errors_misfit (array (items_view entries.now.items))) }
{
    match first_misfit(entries) {
        None => Ok(None),
        Some(at) => Ok(Some(entry_path(alloc, at)?)),
    }
}

fn entry_path(alloc: Global, at: usize) -> Result<Text, Memory>
    ensures { IfOk result (λ path. path ≡ codes "errors." ++ decimal at) }
{
    let mut path = Text::from_str(alloc, "errors.")?;
    path.push(&index_text(alloc, at)?)?;
    Ok(path)
}

fn first_misfit(entries: &Vec<Json>) -> Option<usize>
    ensures { result ≡ position (λ entry. not (spec.is_error entry)) (list_of (items_view entries.now.items)) }
{
    find_misfit(entries.as_slice())
}

fn find_misfit(entries: &[Json]) -> Option<usize>
    ensures { result ≡ position (λ entry. not (spec.is_error (view entry))) entries.now }
{
    entries.iter().position(|entry| !is_error(entry))
}

fn is_error(entry: &Json) -> bool
    ensures { result ≡ spec.is_error (view entry.now) }
{
    has_message(entry) && has_path_or_none(entry.get("path"))
}

fn has_message(entry: &Json) -> bool
    ensures { result ≡ is_some (option_and_then as_str (get (codes "message") (view entry.now))) }
{
    entry.get("message").and_then(Json::as_str).is_some()
}

fn has_path_or_none(path: Option<&Json>) -> bool
    ensures { result ≡ spec.is_path (or_null (option_map (λ p. view p.now) path.entry)) }
{
    match path {
        None => true,
        Some(path) => is_path(path),
    }
}

fn is_path(path: &Json) -> bool
    ensures { result ≡ spec.is_path (view path.now) }
{
    match path {
        Json::Null => true,
        Json::Array(steps) => are_path_steps(steps),
        _ => false,
    }
}

fn are_path_steps(steps: &Vec<Json>) -> bool
    ensures { result ≡ list_all spec.is_path_step (list_of (items_view steps.now.items)) }
{
    all_are_steps(steps.as_slice())
}

fn all_are_steps(steps: &[Json]) -> bool
    ensures { result ≡ list_all (λ step. spec.is_path_step (view step)) steps.now }
{
    steps.iter().all(|step| is_path_step(step))
}

fn is_path_step(step: &Json) -> bool
    ensures { result ≡ spec.is_path_step (view step.now) }
{
    match step {
        Json::String(_) => true,
        Json::Number(number) => number.as_i64().is_some(),
        _ => false,
    }
}
