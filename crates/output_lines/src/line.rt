//! A line of named parts.

ghost use Rattle.std.specs.Prelude.{◌≡◌, ◌++◌, ◌∷◌, [], OnOk, OnErr, flat_map, map};
ghost use Rattle.gql_value.specs.Fronts.{IsFront};
ghost use Rattle.output_lines.specs.Parts as spec;
ghost use Rattle.output_lines.specs.Parts.{member_text};
ghost use Rattle.output_lines.specs.Lines.{number, code};
ghost use Rattle.output_lines.specs.Written.{part_text, member_of};

use crate::part::{Part, write_part};
use text_types::{Bytes, Memory};

/// A line that says what it is by this word, with its members in order.
pub(crate) fn write_line(
    word: &str,
    members: &[(&str, Part<'_>)],
    into: &mut Bytes,
) -> Result<(), Memory>
    ensures ok { OnOk result (into.new ≡ into.old ++ spec.line word.now (map member_of members.now)) }
    ensures err { OnErr result (IsFront into.old into.new) }
{
    into.append(b"{\"out\":\"")?;
    into.append(word.as_bytes())?;
    into.append(b"\"")?;
    write_members(members, into)?;
    into.append(b"}\n")
}

fn write_members(members: &[(&str, Part<'_>)], into: &mut Bytes) -> Result<(), Memory>
    ensures ok { OnOk result (into.new ≡ into.old ++ flat_map member_text (map member_of members.now)) }
    ensures err { OnErr result (IsFront into.old into.new) }
{
    for member in members {
        let (name, part) = member;
        write_member(name, part, into)?;
    }
    Ok(())
}

fn write_member(name: &str, part: &Part<'_>, into: &mut Bytes) -> Result<(), Memory>
    ensures ok { OnOk result (into.new ≡ into.old ++ member_text (name.now, part_text part.now)) }
    ensures err { OnErr result (IsFront into.old into.new) }
{
    into.append(b",\"")?;
    into.append(name.as_bytes())?;
    into.append(b"\":")?;
    write_part(part, into)
}

/// A line with a number and a code.
pub(crate) fn write_coded(
    word: &str,
    name: &str,
    numbered: u64,
    coded: &str,
    into: &mut Bytes,
) -> Result<(), Memory>
    ensures ok { OnOk result (into.new ≡ into.old ++ spec.line word.now (number name.now numbered ∷ code coded.now ∷ [])) }
    ensures err { OnErr result (IsFront into.old into.new) }
{
    write_line(
        word,
        &[(name, Part::Number(numbered)), ("code", Part::Word(coded))],
        into,
    )
}
