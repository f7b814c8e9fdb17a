//! The lines that the gate writes.

ghost use Rattle.std.specs.Prelude.{◌≡◌, ◌++◌, OnOk, List, ℕ, codes, decimal};
ghost use Rattle.gate_machine.specs.Outputs.{reply_line, fetch_line, refused_line, refusal_text, place_text};
ghost use Rattle.gql_value.specs.Text.{quoted};

use gql_value::{Value, write_quoted, write_text};
use machine_model::Refusal;
use text_types::{Bytes, Memory, Text};

fn push_number(number: u64, out: &mut Bytes) -> Result<(), Memory>
    ensures { OnOk result (out.new ≡ out.old ++ decimal number) }
{
    let digits = number.to_string(out.allocator())?;
    out.append(digits.as_str().as_bytes())
}

/// The answer to an operation.
pub(crate) fn push_reply(id: u64, answer: &Value, out: &mut Bytes) -> Result<(), Memory>
    ensures { OnOk result (out.new ≡ out.old ++ reply_line id answer.now) }
{
    out.append(b"{\"out\":\"reply\",\"id\":")?;
    push_number(id, out)?;
    out.append(b",\"data\":")?;
    write_text(answer, out)?;
    out.append(b",\"partial\":false,\"stale\":false}\n")
}

/// What is to be sent to the origin.
pub(crate) fn push_fetch(fetch: u64, query: &Text, out: &mut Bytes) -> Result<(), Memory>
    ensures { OnOk result (out.new ≡ out.old ++ fetch_line fetch query.now) }
{
    out.append(b"{\"out\":\"fetch\",\"fetch\":")?;
    push_number(fetch, out)?;
    out.append(b",\"query\":")?;
    write_quoted(query, out)?;
    out.append(b",\"operationName\":null,\"variables\":{}}\n")
}

/// A line that changes nothing.
pub(crate) fn push_refused(line: u64, refusal: &Refusal, out: &mut Bytes) -> Result<(), Memory>
    ensures { OnOk result (out.new ≡ out.old ++ refused_line line refusal.now) }
{
    out.append(b"{\"out\":\"refused\",\"line\":")?;
    push_number(line, out)?;
    out.append(b",\"code\":")?;
    push_refusal(refusal, out)?;
    out.append(b"}\n")
}

/// The code of a refusal, and the members behind it.
fn push_refusal(refusal: &Refusal, out: &mut Bytes) -> Result<(), Memory>
    ensures { OnOk result (out.new ≡ out.old ++ refusal_text refusal.now) }
{
    match refusal {
        Refusal::E3 { member } => push_named(b"\"E3\",\"member\":", member, out),
        Refusal::E6 { row, column } => push_place(*row, *column, out),
        Refusal::E8 { rule } => push_rule(*rule, out),
        Refusal::E9 { variable } => push_named(b"\"E9\",\"variable\":", variable, out),
        Refusal::E11 { path } => push_named(b"\"E11\",\"path\":", path, out),
        Refusal::E1 => out.append(b"\"E1\""),
        Refusal::E2 => out.append(b"\"E2\""),
        Refusal::E4 => out.append(b"\"E4\""),
        Refusal::E5 => out.append(b"\"E5\""),
        Refusal::E7 => out.append(b"\"E7\""),
        Refusal::E10 => out.append(b"\"E10\""),
        Refusal::E12 => out.append(b"\"E12\""),
        Refusal::E14 => out.append(b"\"E14\""),
        Refusal::E15 => out.append(b"\"E15\""),
        Refusal::E16 => out.append(b"\"E16\""),
        Refusal::E17 => out.append(b"\"E17\""),
    }
}

fn push_named(code: &[u8], name: &Text, out: &mut Bytes) -> Result<(), Memory>
    ensures { OnOk result (out.new ≡ out.old ++ (code.now ++ quoted name.now)) }
{
    out.append(code)?;
    write_quoted(name, out)
}

fn push_rule(rule: u8, out: &mut Bytes) -> Result<(), Memory>
    ensures { OnOk result (out.new ≡ out.old ++ (codes "\"E8\",\"rule\":" ++ decimal rule)) }
{
    out.append(b"\"E8\",\"rule\":")?;
    push_number(u64::from(rule), out)
}

fn push_place(row: u64, column: u64, out: &mut Bytes) -> Result<(), Memory>
    ensures { OnOk result (out.new ≡ out.old ++ place_text row column) }
{
    out.append(b"\"E6\",\"row\":")?;
    push_number(row, out)?;
    out.append(b",\"column\":")?;
    push_number(column, out)
}
