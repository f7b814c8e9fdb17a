ghost use Rattle.std.specs.Prelude.{◌≡◌, [], ◌∷◌, ◌++◌, ◌==◌, IfOk, OnOk, OnErr, map, codes, if◌then◌else◌};
ghost use Rattle.gql_value.specs.Text.{quoted, list_text, object_text};
ghost use Rattle.gql_value.specs.Sorted.{by_name, sorted_text_of};

use crate::quoting::append_quoted;
use crate::value::{Members, Value, Values};
use itoa::Buffer;
use std::alloc::Global;
use std::collections::BTreeMap;
use text_types::{Bytes, Memory, Text};

/// The compact text of a value, with the members of each object in the order of the bytes of their
/// names, at every depth.
pub fn sorted_text(alloc: Global, value: &Value) -> Result<Text, Memory>
    ensures { IfOk result (λ text. text ≡ sorted_text_of value.now) }
{
    let mut out = Text::new(alloc);
    push_sorted(alloc, value, &mut out)?;
    Ok(out)
}

/// Appends the compact text of an object of these members, `{"name":value,..}`, in the order of the
/// bytes of their names, at every depth. The one error is want of memory, and it leaves the text as it
/// was.
pub fn push_sorted_members(alloc: Global, members: &Members, out: &mut Text) -> Result<(), Memory>
    ensures ok { OnOk result (out.new ≡ out.old ++ object_text (by_name (map (λ m. (m.0, sorted_text_of m.1)) members.now))) }
    ensures err { OnErr result (out.new ≡ out.old) }
{
    let mut object = Text::new(alloc);
    push_sorted_object(alloc, members, &mut object)?;
    out.push(&object)
}

#[cycle(sorted)]
fn push_sorted(alloc: Global, value: &Value, out: &mut Text) -> Result<(), Memory>
    ensures { OnOk result (out.new ≡ out.old ++ sorted_text_of value.now) }
{
    match value {
        Value::Null => out.push_str("null"),
        Value::Bool(true) => out.push_str("true"),
        Value::Bool(false) => out.push_str("false"),
        Value::Int(number) => out.push_str(Buffer::new().format(*number)),
        Value::Text(text) => push_quoted(alloc, text, out),
        Value::List(items) => push_sorted_list(alloc, items, out),
        Value::Obj(members) => push_sorted_object(alloc, members, out),
    }
}

#[cycle(sorted)]
fn push_sorted_list(alloc: Global, items: &Values, out: &mut Text) -> Result<(), Memory>
    ensures { OnOk result (out.new ≡ out.old ++ list_text (map sorted_text_of items.now)) }
{
    out.push_str("[")?;
    for (at, item) in items.as_slice().iter().enumerate() {
        push_comma(at, out)?;
        push_sorted(alloc, item, out)?;
    }
    out.push_str("]")
}

#[cycle(sorted)]
fn push_sorted_object(alloc: Global, members: &Members, out: &mut Text) -> Result<(), Memory>
    ensures { OnOk result (out.new ≡ out.old ++ object_text (by_name (map (λ m. (m.0, sorted_text_of m.1)) members.now))) }
{
    let sorted = sorted_members(alloc, members)?;
    push_object(alloc, sorted.as_slice(), out)
}

/// The names with the sorted texts of their values, in the order of the names.
#[cycle(sorted)]
fn sorted_members<'a>(alloc: Global, members: &'a Members) -> Result<Vec<(&'a Text, Text)>, Memory>
    ensures { IfOk result (λ sorted. map (λ m. (m.0.now, m.1)) sorted.items ≡ by_name (map (λ m. (m.0, sorted_text_of m.1)) members.now)) }
{
    let mut sorted = BTreeMap::new(alloc);
    for (name, value) in members.as_slice() {
        let mut text = Text::new(alloc);
        push_sorted(alloc, value, &mut text)?;
        sorted.insert(name, text)?;
    }
    Ok(collected(alloc, sorted)?)
}

fn collected<'a>(
    alloc: Global,
    sorted: BTreeMap<&'a Text, Text>,
) -> Result<Vec<(&'a Text, Text)>, Memory>
    ensures { IfOk result (λ pairs. pairs.items ≡ sorted.entry.entries) }
{
    Ok(sorted.into_iter().collect(alloc)?)
}

/// An object of these names and the texts of their values.
fn push_object(alloc: Global, members: &[(&Text, Text)], out: &mut Text) -> Result<(), Memory>
    ensures { OnOk result (out.new ≡ out.old ++ object_text (map (λ m. (m.0.now, m.1)) members.now)) }
{
    out.push_str("{")?;
    for (at, member) in members.iter().enumerate() {
        let (name, text) = member;
        push_comma(at, out)?;
        push_quoted(alloc, name, out)?;
        out.push_str(":")?;
        out.push(text)?;
    }
    out.push_str("}")
}

/// A comma, unless nothing stands before it.
fn push_comma(before: usize, out: &mut Text) -> Result<(), Memory>
    ensures { OnOk result (out.new ≡ out.old ++ (if before == 0 then [] else codes ",")) }
{
    if before == 0 {
        Ok(())
    } else {
        out.push_str(",")
    }
}

fn push_quoted(alloc: Global, text: &Text, out: &mut Text) -> Result<(), Memory>
    ensures { OnOk result (out.new ≡ out.old ++ quoted text.now) }
{
    let mut bytes = Bytes::new(alloc);
    append_quoted(text, &mut bytes)?;
    match String::from_utf8(bytes.into_vec()) {
        Ok(string) => out.push_str(string.as_str()),
        Err(_) => unreachable!(),
    }
}
