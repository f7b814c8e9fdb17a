ghost use Rattle.std.specs.Prelude.{◌≡◌, None, IfOk, OnOk, IfErr, map, decimal, string_bytes};
ghost use Rattle.serde_json.specs.Data as Data;
ghost use Rattle.serde_json.specs.View.{view, items_of, items_view, members_view, number_view};
ghost use Rattle.gql_value.specs.Json.{data_of, members_of, not_whole, not_whole_from, not_whole_in};
ghost use Rattle.gql_value.specs.Refusal.{IsStepsOf, IsPathTo};

use crate::json_error::JsonError;
use crate::refusal::Refusal;
use crate::value::{Members, Value, Values};
use serde_json::{Map, Number};
use std::alloc::Global;
use text_types::{Items, Memory, Named, Text};

/// The value that JSON is, where its numbers are whole. The members of an object come in the order
/// of the bytes of their names.
pub fn from_json(alloc: Global, json: &serde_json::Value) -> Result<Value, JsonError>
    ensures value { IfOk result (λ v. data_of v ≡ view json.now) }
    ensures whole { OnOk result (not_whole (view json.now) ≡ None) }
    ensures refused { IfErr result (IsPathTo (not_whole (view json.now))) }
{
    match convert(alloc, json) {
        Ok(value) => Ok(value),
        Err(refusal) => Err(refusal.into_error(alloc)),
    }
}

#[cycle(convert)]
pub(crate) fn convert(alloc: Global, json: &serde_json::Value) -> Result<Value, Refusal>
    ensures value { IfOk result (λ v. data_of v ≡ view json.now) }
    ensures whole { OnOk result (not_whole (view json.now) ≡ None) }
    ensures refused { IfErr result (IsStepsOf (not_whole (view json.now))) }
{
    match json {
        serde_json::Value::Null => Ok(Value::Null),
        serde_json::Value::Bool(truth) => Ok(Value::Bool(*truth)),
        serde_json::Value::Number(number) => convert_number(alloc, *number),
        serde_json::Value::String(text) => Ok(Value::Text(copy_text(alloc, text)?)),
        serde_json::Value::Array(items) => Ok(Value::List(convert_items(alloc, items)?)),
        serde_json::Value::Object(members) => Ok(Value::Obj(convert_members(alloc, members)?)),
    }
}

fn convert_number(alloc: Global, number: Number) -> Result<Value, Refusal>
    ensures value { IfOk result (λ v. data_of v ≡ Data.number (number_view number)) }
    ensures whole { OnOk result (not_whole (Data.number (number_view number)) ≡ None) }
    ensures refused { IfErr result (IsStepsOf (not_whole (Data.number (number_view number)))) }
{
    match number.as_i64() {
        Some(whole) => Ok(Value::Int(whole)),
        None => Err(Refusal::NotWhole(Items::new(alloc))),
    }
}

#[cycle(convert)]
fn convert_items(alloc: Global, items: &Vec<serde_json::Value>) -> Result<Values, Refusal>
    ensures value { IfOk result (λ vs. items_of (map data_of vs) ≡ items_view items.now.items) }
    ensures whole { OnOk result (not_whole_from 0 (items_view items.now.items) ≡ None) }
    ensures refused { IfErr result (IsStepsOf (not_whole_from 0 (items_view items.now.items))) }
{
    let mut values = Items::new(alloc);
    for (at, item) in items.iter().enumerate() {
        match convert(alloc, item) {
            Ok(value) => values.push(value)?,
            Err(refusal) => return Err(refusal.behind(index_text(alloc, at)?)),
        }
    }
    Ok(values)
}

#[cycle(convert)]
fn convert_members(
    alloc: Global,
    members: &Map<String, serde_json::Value>,
) -> Result<Members, Refusal>
    ensures value { IfOk result (λ vs. members_of (map (λ m. (m.0, data_of m.1)) vs) ≡ members_view members.now.entries) }
    ensures whole { OnOk result (not_whole_in (members_view members.now.entries) ≡ None) }
    ensures refused { IfErr result (IsStepsOf (not_whole_in (members_view members.now.entries))) }
{
    let mut named = Named::new(alloc);
    for (name, member) in members.iter() {
        match convert(alloc, member) {
            Ok(value) => named.push(copy_text(alloc, name)?, value)?,
            Err(refusal) => return Err(refusal.behind(copy_text(alloc, name)?)),
        }
    }
    Ok(named)
}

fn copy_text(alloc: Global, text: &String) -> Result<Text, Memory>
    ensures { IfOk result (λ copy. copy ≡ string_bytes text.now) }
{
    Text::from_str(alloc, text.as_str())
}

pub(crate) fn index_text(alloc: Global, at: usize) -> Result<Text, Memory>
    ensures { IfOk result (λ digits. digits ≡ decimal at) }
{
    Ok(Text::from_string(at.to_string(alloc)?))
}
