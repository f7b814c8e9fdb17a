//! Why a line changed nothing.

ghost use Rattle.std.specs.Prelude.{◌≡◌, ◌++◌, ◌∷◌, [], OnOk, OnErr, codes};
ghost use Rattle.gql_value.specs.Fronts.{IsFront};
ghost use Rattle.output_lines.specs.Parts as spec;
ghost use Rattle.output_lines.specs.Lines.{number, text, code, refused_parts, refusal_code};

use crate::line::{write_coded, write_line};
use crate::part::Part;
use machine_model::Refusal;
use text_types::{Bytes, Memory, Text};

pub(crate) fn write_refusal(line: u64, refusal: &Refusal, into: &mut Bytes) -> Result<(), Memory>
    ensures ok { OnOk result (into.new ≡ into.old ++ spec.line (codes "refused") (refused_parts line refusal.now)) }
    ensures err { OnErr result (IsFront into.old into.new) }
{
    match refusal {
        Refusal::E3 { member } => write_told(line, "E3", "member", member, into),
        Refusal::E6 { row, column } => write_place(line, *row, *column, into),
        Refusal::E8 { rule } => write_rule(line, *rule, into),
        Refusal::E9 { variable } => write_told(line, "E9", "variable", variable, into),
        Refusal::E11 { path } => write_told(line, "E11", "path", path, into),
        _ => write_coded("refused", "line", line, code_of(refusal), into),
    }
}

fn code_of(refusal: &Refusal) -> &'static str
    ensures { result.now ≡ refusal_code refusal.now }
{
    match refusal {
        Refusal::E1 => "E1",
        Refusal::E2 => "E2",
        Refusal::E3 { .. } => "E3",
        Refusal::E4 => "E4",
        Refusal::E5 => "E5",
        Refusal::E6 { .. } => "E6",
        Refusal::E7 => "E7",
        Refusal::E8 { .. } => "E8",
        Refusal::E9 { .. } => "E9",
        Refusal::E10 => "E10",
        Refusal::E11 { .. } => "E11",
        Refusal::E12 => "E12",
        Refusal::E14 => "E14",
        Refusal::E15 => "E15",
        Refusal::E16 => "E16",
        Refusal::E17 => "E17",
    }
}

/// A code with a text that says where.
fn write_told<'a>(
    line: u64,
    coded: &'a str,
    name: &'a str,
    told: &'a Text,
    into: &mut Bytes,
) -> Result<(), Memory>
    ensures ok { OnOk result (into.new ≡ into.old ++ spec.line (codes "refused")
        (number (codes "line") line ∷ code coded.now ∷ text name.now told.now ∷ [])) }
    ensures err { OnErr result (IsFront into.old into.new) }
{
    write_line(
        "refused",
        &[
            ("line", Part::Number(line)),
            ("code", Part::Word(coded)),
            (name, Part::Text(told)),
        ],
        into,
    )
}

fn write_place(line: u64, row: u64, column: u64, into: &mut Bytes) -> Result<(), Memory>
    ensures ok { OnOk result (into.new ≡ into.old ++ spec.line (codes "refused") (refused_parts line (Refusal.E6 row column))) }
    ensures err { OnErr result (IsFront into.old into.new) }
{
    write_line(
        "refused",
        &[
            ("line", Part::Number(line)),
            ("code", Part::Word("E6")),
            ("row", Part::Number(row)),
            ("column", Part::Number(column)),
        ],
        into,
    )
}

fn write_rule(line: u64, rule: u8, into: &mut Bytes) -> Result<(), Memory>
    ensures ok { OnOk result (into.new ≡ into.old ++ spec.line (codes "refused") (refused_parts line (Refusal.E8 rule))) }
    ensures err { OnErr result (IsFront into.old into.new) }
{
    write_line(
        "refused",
        &[
            ("line", Part::Number(line)),
            ("code", Part::Word("E8")),
            ("rule", Part::Number(rule as u64)),
        ],
        into,
    )
}
