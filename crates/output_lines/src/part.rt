//! Values of members.

ghost use Rattle.std.specs.Prelude.{◌≡◌, ◌++◌, OnOk, OnErr, decimal};
ghost use Rattle.gql_value.specs.Fronts.{IsFront};
ghost use Rattle.http_model.specs.Texts.{name_text};
ghost use Rattle.output_lines.specs.Parts.{truth_text, word_text, numbers_text};
ghost use Rattle.output_lines.specs.Written.{part_text};

use crate::cells::{write_cells, write_comma};
use cache_model::Cells;
use gql_value::{Value, write_quoted, write_text};
use itoa::Buffer;
use machine_model::Tickets;
use text_types::{Bytes, Memory, Text};

/// What a member of a line holds.
#[derive(Clone, Copy)]
pub(crate) enum Part<'a> {
    Number(u64),
    Truth(bool),
    /// A word that needs no escape.
    Word(&'a str),
    Text(&'a Text),
    /// A name, or null.
    Name(&'a Option<Text>),
    /// A text that is JSON already.
    Json(&'a Text),
    Value(&'a Value),
    Numbers(&'a Tickets),
    Cells(&'a Cells),
}

pub(crate) fn write_part(part: &Part<'_>, into: &mut Bytes) -> Result<(), Memory>
    ensures ok { OnOk result (into.new ≡ into.old ++ part_text part.now) }
    ensures err { OnErr result (IsFront into.old into.new) }
{
    match part {
        Part::Number(number) => write_number(*number, into),
        Part::Truth(truth) => write_truth(*truth, into),
        Part::Word(word) => write_word(word, into),
        Part::Text(text) => write_quoted(text, into),
        Part::Name(name) => write_name(name, into),
        Part::Json(text) => into.append(text.as_bytes()),
        Part::Value(value) => write_text(value, into),
        Part::Numbers(numbers) => write_numbers(numbers, into),
        Part::Cells(cells) => write_cells(cells, into),
    }
}

fn write_number(number: u64, into: &mut Bytes) -> Result<(), Memory>
    ensures ok { OnOk result (into.new ≡ into.old ++ decimal number) }
    ensures err { OnErr result (into.new ≡ into.old) }
{
    into.append(Buffer::new().format(number).as_bytes())
}

fn write_truth(truth: bool, into: &mut Bytes) -> Result<(), Memory>
    ensures ok { OnOk result (into.new ≡ into.old ++ truth_text truth) }
    ensures err { OnErr result (into.new ≡ into.old) }
{
    if truth {
        into.append(b"true")
    } else {
        into.append(b"false")
    }
}

fn write_word(word: &str, into: &mut Bytes) -> Result<(), Memory>
    ensures ok { OnOk result (into.new ≡ into.old ++ word_text word.now) }
    ensures err { OnErr result (IsFront into.old into.new) }
{
    into.push(b'"')?;
    into.append(word.as_bytes())?;
    into.push(b'"')?;
    Ok(())
}

fn write_name(name: &Option<Text>, into: &mut Bytes) -> Result<(), Memory>
    ensures ok { OnOk result (into.new ≡ into.old ++ name_text name.now) }
    ensures err { OnErr result (into.new ≡ into.old) }
{
    match name {
        None => into.append(b"null"),
        Some(name) => write_quoted(name, into),
    }
}

fn write_numbers(numbers: &Tickets, into: &mut Bytes) -> Result<(), Memory>
    ensures ok { OnOk result (into.new ≡ into.old ++ numbers_text numbers.now) }
    ensures err { OnErr result (IsFront into.old into.new) }
{
    into.push(b'[')?;
    for (at, number) in numbers.as_slice().iter().enumerate() {
        write_comma(at, into)?;
        write_number(*number, into)?;
    }
    into.push(b']')?;
    Ok(())
}
