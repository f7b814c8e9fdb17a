//! One line for each output.

ghost use Rattle.std.specs.Prelude.{◌≡◌, ◌++◌, ◌∷◌, [], OnOk, OnErr, codes};
ghost use Rattle.gql_value.specs.Fronts.{IsFront};
ghost use Rattle.output_lines.specs.Parts.{line, cells_text};
ghost use Rattle.output_lines.specs.Lines as lines;
ghost use Rattle.output_lines.specs.Lines.{line_text, number, queued_parts, reply_parts, fetch_parts, layers_parts};

use crate::fault::write_ending;
use crate::line::write_line;
use crate::part::Part;
use crate::refusal::write_refusal;
use cache_model::Cells;
use gql_value::Value;
use machine_model::{Out, Tickets};
use text_types::{Bytes, Memory, Text};

/// Appends the line of an output.
pub fn line_of(out: &Out, into: &mut Bytes) -> Result<(), Memory>
    ensures ok { OnOk result (into.new ≡ into.old ++ line_text out.now) }
    ensures err { OnErr result (IsFront into.old into.new) }
{
    match out {
        Out::Reply {
            id,
            answer,
            errors,
            partial,
            stale,
            ..
        } => { write_reply(*id, answer, errors, *partial, *stale, into) }
        Out::Fault { id, ending, .. } => write_ending(*id, ending, into),
        Out::Queued { id, row, .. } => write_queued(*id, *row, into),
        Out::Refused { line, refusal, .. } => write_refusal(*line, refusal, into),
        Out::Layers { base, kept, .. } => write_layers(*base, kept, into),
        Out::Flat { cells, .. } => write_flat(cells, into),
        Out::Fetch {
            fetch,
            query,
            operation,
            variables,
            ..
        } => { write_fetch(*fetch, query, operation, variables, into) }
        Out::Cancel { fetch } => write_cancel(*fetch, into),
    }
}

fn write_reply<'a>(
    id: u64,
    answer: &'a Value,
    errors: &'a Value,
    partial: bool,
    stale: bool,
    into: &mut Bytes,
) -> Result<(), Memory>
    ensures ok { OnOk result (into.new ≡ into.old ++ line (codes "reply") (reply_parts id answer.now errors.now (lines.has_entries errors.now) partial stale)) }
    ensures err { OnErr result (IsFront into.old into.new) }
{
    if has_entries(errors) {
        write_line(
            "reply",
            &[
                ("id", Part::Number(id)),
                ("data", Part::Value(answer)),
                ("errors", Part::Value(errors)),
                ("partial", Part::Truth(partial)),
                ("stale", Part::Truth(stale)),
            ],
            into,
        )
    } else {
        write_line(
            "reply",
            &[
                ("id", Part::Number(id)),
                ("data", Part::Value(answer)),
                ("partial", Part::Truth(partial)),
                ("stale", Part::Truth(stale)),
            ],
            into,
        )
    }
}

fn has_entries(errors: &Value) -> bool
    ensures { result ≡ lines.has_entries errors.now }
{
    match errors {
        Value::List(entries) => !entries.is_empty(),
        _ => false,
    }
}

fn write_queued(id: u64, row: u64, into: &mut Bytes) -> Result<(), Memory>
    ensures ok { OnOk result (into.new ≡ into.old ++ line (codes "queued") (queued_parts id row)) }
    ensures err { OnErr result (IsFront into.old into.new) }
{
    write_line(
        "queued",
        &[("id", Part::Number(id)), ("row", Part::Number(row))],
        into,
    )
}

fn write_layers(base: u64, kept: &Tickets, into: &mut Bytes) -> Result<(), Memory>
    ensures ok { OnOk result (into.new ≡ into.old ++ line (codes "layers") (layers_parts base kept.now)) }
    ensures err { OnErr result (IsFront into.old into.new) }
{
    write_line(
        "layers",
        &[("base", Part::Number(base)), ("kept", Part::Numbers(kept))],
        into,
    )
}

fn write_flat(cells: &Cells, into: &mut Bytes) -> Result<(), Memory>
    ensures ok { OnOk result (into.new ≡ into.old ++ line (codes "flat") ((codes "cells", cells_text cells.now) ∷ [])) }
    ensures err { OnErr result (IsFront into.old into.new) }
{
    write_line("flat", &[("cells", Part::Cells(cells))], into)
}

fn write_cancel(fetch: u64, into: &mut Bytes) -> Result<(), Memory>
    ensures ok { OnOk result (into.new ≡ into.old ++ line (codes "cancel") (number (codes "fetch") fetch ∷ [])) }
    ensures err { OnErr result (IsFront into.old into.new) }
{
    write_line("cancel", &[("fetch", Part::Number(fetch))], into)
}

fn write_fetch<'a>(
    fetch: u64,
    query: &'a Text,
    operation: &'a Option<Text>,
    variables: &'a Text,
    into: &mut Bytes,
) -> Result<(), Memory>
    ensures ok { OnOk result (into.new ≡ into.old ++ line (codes "fetch") (fetch_parts fetch query.now operation.now variables.now)) }
    ensures err { OnErr result (IsFront into.old into.new) }
{
    write_line(
        "fetch",
        &[
            ("fetch", Part::Number(fetch)),
            ("query", Part::Text(query)),
            ("operationName", Part::Name(operation)),
            ("variables", Part::Json(variables)),
        ],
        into,
    )
}
