ghost use Rattle.std.specs.Prelude.{◌≡◌, [], ◌∷◌, ◌++◌, ◌==◌, OnOk, OnErr, map, codes, if◌then◌else◌};
ghost use Rattle.std.specs.Fmt.{signed_decimal};
ghost use Rattle.gql_value.specs.Text.{text_of, list_text, object_text};
ghost use Rattle.gql_value.specs.Fronts.{IsFront};

use crate::fronts::cut_back;
use crate::quoting::append_quoted;
use crate::value::{Members, Value, Values};
use itoa::Buffer;
use text_types::{Bytes, Memory};

/// Appends the compact text of a value.
pub fn write_text(value: &Value, out: &mut Bytes) -> Result<(), Memory>
    ensures ok { OnOk result (out.new ≡ out.old ++ text_of value.now) }
    ensures err { OnErr result (out.new ≡ out.old) }
{
    let kept = out.len();
    let written = append_value(value, out);
    if written.is_err() {
        cut_back(out, kept);
    }
    written
}

#[cycle(write)]
fn append_value(value: &Value, out: &mut Bytes) -> Result<(), Memory>
    ensures ok { OnOk result (out.new ≡ out.old ++ text_of value.now) }
    ensures err { OnErr result (IsFront out.old out.new) }
{
    match value {
        Value::Null => out.append(b"null"),
        Value::Bool(true) => out.append(b"true"),
        Value::Bool(false) => out.append(b"false"),
        Value::Int(number) => append_whole(*number, out),
        Value::Text(text) => append_quoted(text, out),
        Value::List(items) => append_list(items, out),
        Value::Obj(members) => append_object(members, out),
    }
}

fn append_whole(number: i64, out: &mut Bytes) -> Result<(), Memory>
    ensures ok { OnOk result (out.new ≡ out.old ++ signed_decimal number) }
    ensures err { OnErr result (out.new ≡ out.old) }
{
    out.append(Buffer::new().format(number).as_bytes())
}

/// A comma, unless nothing stands before it.
fn append_comma(before: usize, out: &mut Bytes) -> Result<(), Memory>
    ensures ok { OnOk result (out.new ≡ out.old ++ (if before == 0 then [] else codes ",")) }
    ensures err { OnErr result (out.new ≡ out.old) }
{
    if before == 0 { Ok(()) } else { out.push(b',') }
}

#[cycle(write)]
fn append_list(items: &Values, out: &mut Bytes) -> Result<(), Memory>
    ensures ok { OnOk result (out.new ≡ out.old ++ list_text (map text_of items.now)) }
    ensures err { OnErr result (IsFront out.old out.new) }
{
    out.push(b'[')?;
    for (at, item) in items.as_slice().iter().enumerate() {
        append_comma(at, out)?;
        append_value(item, out)?;
    }
    out.push(b']')?;
    Ok(())
}

#[cycle(write)]
fn append_object(members: &Members, out: &mut Bytes) -> Result<(), Memory>
    ensures ok { OnOk result (out.new ≡ out.old ++ object_text (map (λ m. (m.0, text_of m.1)) members.now)) }
    ensures err { OnErr result (IsFront out.old out.new) }
{
    out.push(b'{')?;
    for (at, member) in members.as_slice().iter().enumerate() {
        let (name, value) = member;
        append_comma(at, out)?;
        append_quoted(name, out)?;
        out.push(b':')?;
        append_value(value, out)?;
    }
    out.push(b'}')?;
    Ok(())
}
