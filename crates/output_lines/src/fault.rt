//! Why an operation has no data.

ghost use Rattle.std.specs.Prelude.{◌≡◌, ◌++◌, ◌∷◌, [], OnOk, OnErr, codes};
ghost use Rattle.gql_value.specs.Fronts.{IsFront};
ghost use Rattle.output_lines.specs.Parts.{line};
ghost use Rattle.output_lines.specs.Lines.{number, text, code, ending_parts, fault_code, fault_details};

use crate::line::{write_coded, write_line};
use crate::part::Part;
use gql_value::Fault;
use machine_model::Ending;
use text_types::{Bytes, Memory, Text};

pub(crate) fn write_ending(id: u64, ending: &Ending, into: &mut Bytes) -> Result<(), Memory>
    ensures ok { OnOk result (into.new ≡ into.old ++ line (codes "fault") (ending_parts id ending.now)) }
    ensures err { OnErr result (IsFront into.old into.new) }
{
    match ending {
        Ending::Outside(fault) => write_fault(id, fault, into),
        Ending::QueueFull => write_coded("fault", "id", id, "E13", into),
    }
}

fn write_fault(id: u64, fault: &Fault, into: &mut Bytes) -> Result<(), Memory>
    ensures ok { OnOk result (into.new ≡ into.old ++ line (codes "fault")
        (number (codes "id") id ∷ code (fault_code fault.now) ∷ fault_details fault.now)) }
    ensures err { OnErr result (IsFront into.old into.new) }
{
    match fault {
        Fault::F3 { path } => write_path(id, "F3", path, into),
        Fault::F4 { path } => write_path(id, "F4", path, into),
        Fault::F5 { status } => write_status(id, *status, into),
        _ => write_coded("fault", "id", id, code_of(fault), into),
    }
}

fn code_of(fault: &Fault) -> &'static str
    ensures { result.now ≡ fault_code fault.now }
{
    match fault {
        Fault::F1 => "F1",
        Fault::F2 => "F2",
        Fault::F3 { .. } => "F3",
        Fault::F4 { .. } => "F4",
        Fault::F5 { .. } => "F5",
        Fault::F6 => "F6",
        Fault::F7 => "F7",
        Fault::F8 => "F8",
    }
}

fn write_path<'a>(id: u64, coded: &'a str, path: &'a Text, into: &mut Bytes) -> Result<(), Memory>
    ensures ok { OnOk result (into.new ≡ into.old ++ line (codes "fault")
        (number (codes "id") id ∷ code coded.now ∷ text (codes "path") path.now ∷ [])) }
    ensures err { OnErr result (IsFront into.old into.new) }
{
    write_line(
        "fault",
        &[
            ("id", Part::Number(id)),
            ("code", Part::Word(coded)),
            ("path", Part::Text(path)),
        ],
        into,
    )
}

fn write_status(id: u64, status: u16, into: &mut Bytes) -> Result<(), Memory>
    ensures ok { OnOk result (into.new ≡ into.old ++ line (codes "fault")
        (number (codes "id") id ∷ code (codes "F5") ∷ number (codes "status") status ∷ [])) }
    ensures err { OnErr result (IsFront into.old into.new) }
{
    write_line(
        "fault",
        &[
            ("id", Part::Number(id)),
            ("code", Part::Word("F5")),
            ("status", Part::Number(status as u64)),
        ],
        into,
    )
}
