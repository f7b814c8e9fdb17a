//! The variables of a dispatch.

ghost use Rattle.std.specs.Prelude.{◌≡◌, ◌++◌, Ok, IfOk, IfErr, option_map, codes};
ghost use Rattle.serde_json.specs.View.{view};
ghost use Rattle.gql_value.specs.Json.{data_of, not_whole};
ghost use Rattle.gql_value.specs.Values.{pairs_in};
ghost use Rattle.gate_frames.specs.Dispatches as spec;
ghost use Rattle.gate_frames.specs.Unread.{TellsPath};

use crate::unread::Unread;
use gql_value::{JsonError, Members, Value, from_json};
use serde_json::Value as Json;
use std::alloc::Global;
use text_types::{Memory, Text};

/// The variables, none where the member is absent or null.
pub(crate) fn read_variables(alloc: Global, member: Option<&Json>) -> Result<Members, Unread>
    ensures ok { IfOk result (λ variables. spec.variables_read (option_map (λ value. view value.now) member.entry) ≡ Ok variables) }
    ensures unread { IfErr result (TellsPath (spec.variables_read (option_map (λ value. view value.now) member.entry))) }
{
    match member {
        None => Ok(Members::new(alloc)),
        Some(variables) => read_whole(alloc, variables),
    }
}

fn read_whole(alloc: Global, variables: &Json) -> Result<Members, Unread>
    ensures ok { IfOk result (λ pairs. spec.variables_beside (view variables.now) (not_whole (view variables.now)) ≡ Ok pairs) }
    ensures unread { IfErr result (TellsPath (spec.variables_beside (view variables.now) (not_whole (view variables.now)))) }
{
    match from_json(alloc, variables) {
        Ok(value) => Ok(members_in(alloc, value)),
        Err(JsonError::NotWhole { path }) => Err(Unread::NotWhole {
            path: behind_variables(alloc, &path)?,
        }),
        Err(JsonError::Memory) => Err(Unread::Memory),
    }
}

/// The members of an object, and none of anything else.
fn members_in(alloc: Global, value: Value) -> Members
    ensures { result ≡ pairs_in (data_of value) }
{
    match value {
        Value::Obj(members) => members,
        _ => Members::new(alloc),
    }
}

fn behind_variables(alloc: Global, path: &Text) -> Result<Text, Memory>
    ensures { IfOk result (λ whole. whole ≡ codes "variables." ++ path.now) }
{
    let mut whole = Text::from_str(alloc, "variables.")?;
    whole.push(path)?;
    Ok(whole)
}
