//! Members of a dispatch that may be left out: the name of an operation, and the values of variables.

ghost use Rattle.std.specs.Prelude.{◌≡◌, ◌++◌, IfOk, IfErr, Ok, Err, Some, codes, option_map};
ghost use Rattle.serde_json.specs.View.{view};
ghost use Rattle.machine_model.specs.declared.output.Refusal.TheVariants.{E11};
ghost use Rattle.gql_value.specs.Json.{data_of};
ghost use Rattle.gql_value.specs.Values.{Pairs, pairs_in};
ghost use Rattle.frame_reading.specs.Members as spec;
ghost use Rattle.frame_reading.specs.Errors.{IsFrameError};

use crate::error::FrameError;
use gql_value::{JsonError, Members, Value, from_json};
use machine_model::Refusal;
use serde_json::Value as Json;
use std::alloc::Global;
use text_types::{Memory, Named, Text};

/// The text of a member that may be left out, or null in its place; nothing where it is something else.
pub(crate) fn given_text(
    alloc: Global,
    member: Option<&Json>,
) -> Result<Option<Option<Text>>, Memory>
    ensures { IfOk result (λ text. text ≡ spec.text_if_given (option_map (λ json. view json.now) member.entry)) }
{
    match member {
        None | Some(Json::Null) => Ok(Some(None)),
        Some(Json::String(text)) => Ok(Some(Some(Text::from_str(alloc, text.as_str())?))),
        Some(_) => Ok(None),
    }
}

/// A member that is an object, and that may be left out, or null in its place; nothing where it is
/// something else.
pub(crate) fn given_object(member: Option<&Json>) -> Option<Option<&Json>>
    ensures { option_map (λ given. option_map (λ json. view json.now) given) result
        ≡ spec.object_if_given (option_map (λ json. view json.now) member.entry) }
{
    match member {
        None | Some(Json::Null) => Some(None),
        Some(Json::Object(_)) => Some(member),
        Some(_) => None,
    }
}

/// The values of variables, or the path of the first number among them that isn't whole.
pub(crate) fn variables_of(alloc: Global, given: Option<&Json>) -> Result<Members, FrameError>
    ensures pairs { IfOk result (λ pairs. spec.variables_of (option_map (λ json. view json.now) given.entry) ≡ Ok pairs) }
    ensures refused { IfErr result (IsFrameError (spec.variables_of (option_map (λ json. view json.now) given.entry))) }
{
    match given {
        Some(object) => members_of(alloc, object),
        None => Ok(Named::new(alloc)),
    }
}

fn members_of(alloc: Global, object: &Json) -> Result<Members, FrameError>
    ensures pairs { IfOk result (λ pairs. spec.variables_of (Some (view object.now)) ≡ Ok pairs) }
    ensures refused { IfErr result (IsFrameError (spec.variables_of (Some (view object.now)))) }
{
    match from_json(alloc, object) {
        Ok(value) => Ok(members_in(alloc, value)),
        Err(JsonError::NotWhole { path }) => Err(not_whole_at(alloc, &path)),
        Err(JsonError::Memory) => Err(FrameError::Memory),
    }
}

/// The members of an object; another value has none.
fn members_in(alloc: Global, value: Value) -> Members
    ensures { result ≡ pairs_in (data_of value) }
{
    match value {
        Value::Obj(members) => members,
        _ => Named::new(alloc),
    }
}

/// The refusal of a number that isn't whole, whose path begins at the frame.
fn not_whole_at(alloc: Global, path: &Text) -> FrameError
    ensures { IsFrameError {X = Pairs} (Err (E11 (codes "variables." ++ path.now))) result }
{
    match path_from_frame(alloc, path) {
        Ok(path) => FrameError::Refused(Refusal::E11 { path }),
        Err(_) => FrameError::Memory,
    }
}

fn path_from_frame(alloc: Global, path: &Text) -> Result<Text, Memory>
    ensures { IfOk result (λ whole. whole ≡ codes "variables." ++ path.now) }
{
    let mut whole = Text::from_str(alloc, "variables.")?;
    whole.push(path)?;
    Ok(whole)
}
