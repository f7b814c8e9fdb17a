//! Cells with their places.

ghost use Rattle.std.specs.Prelude.{◌≡◌, ◌++◌, [], ◌==◌, OnOk, OnErr, map, codes, if◌then◌else◌};
ghost use Rattle.gql_value.specs.Fronts.{IsFront};
ghost use Rattle.gql_value.specs.Text.{list_text, text_of};
ghost use Rattle.output_lines.specs.Parts.{link_text, cell_text, placed_text, cells_text};

use cache_model::{Cell, Cells, EntityKey, FieldKey, Link, Links};
use gql_value::{Value, write_quoted, write_text};
use text_types::{Bytes, Memory};

/// A comma, unless nothing stands before it.
pub(crate) fn write_comma(before: usize, into: &mut Bytes) -> Result<(), Memory>
    ensures ok { OnOk result (into.new ≡ into.old ++ (if before == 0 then [] else codes ",")) }
    ensures err { OnErr result (into.new ≡ into.old) }
{
    if before == 0 { Ok(()) } else { into.push(b',') }
}

pub(crate) fn write_cells(cells: &Cells, into: &mut Bytes) -> Result<(), Memory>
    ensures ok { OnOk result (into.new ≡ into.old ++ cells_text cells.now) }
    ensures err { OnErr result (IsFront into.old into.new) }
{
    into.push(b'[')?;
    for (at, placed) in cells.as_slice().iter().enumerate() {
        write_comma(at, into)?;
        write_placed(placed, into)?;
    }
    into.push(b']')?;
    Ok(())
}

/// A cell behind the key of its object and the key of its field.
fn write_placed(placed: &(EntityKey, FieldKey, Cell), into: &mut Bytes) -> Result<(), Memory>
    ensures ok { OnOk result (into.new ≡ into.old ++ placed_text placed.now) }
    ensures err { OnErr result (IsFront into.old into.new) }
{
    let (entity, field, cell) = placed;
    into.push(b'[')?;
    write_quoted(entity.as_text(), into)?;
    into.push(b',')?;
    write_quoted(field.as_text(), into)?;
    into.push(b',')?;
    write_cell(cell, into)?;
    into.push(b']')?;
    Ok(())
}

fn write_cell(cell: &Cell, into: &mut Bytes) -> Result<(), Memory>
    ensures ok { OnOk result (into.new ≡ into.old ++ cell_text cell.now) }
    ensures err { OnErr result (IsFront into.old into.new) }
{
    match cell {
        Cell::Leaf(value) => write_leaf(value, into),
        Cell::Link(link) => write_linked(link, into),
    }
}

fn write_leaf(value: &Value, into: &mut Bytes) -> Result<(), Memory>
    ensures ok { OnOk result (into.new ≡ into.old ++ (codes "{\"leaf\":" ++ (text_of value.now ++ codes "}"))) }
    ensures err { OnErr result (IsFront into.old into.new) }
{
    into.append(b"{\"leaf\":")?;
    write_text(value, into)?;
    into.push(b'}')?;
    Ok(())
}

fn write_linked(link: &Link, into: &mut Bytes) -> Result<(), Memory>
    ensures ok { OnOk result (into.new ≡ into.old ++ (codes "{\"link\":" ++ (link_text link.now ++ codes "}"))) }
    ensures err { OnErr result (IsFront into.old into.new) }
{
    into.append(b"{\"link\":")?;
    write_link(link, into)?;
    into.push(b'}')?;
    Ok(())
}

#[cycle(links)]
fn write_link(link: &Link, into: &mut Bytes) -> Result<(), Memory>
    ensures ok { OnOk result (into.new ≡ into.old ++ link_text link.now) }
    ensures err { OnErr result (IsFront into.old into.new) }
{
    match link {
        Link::Null => into.append(b"null"),
        Link::Entity(entity) => write_quoted(entity.as_text(), into),
        Link::List(links) => write_links(links, into),
    }
}

#[cycle(links)]
fn write_links(links: &Links, into: &mut Bytes) -> Result<(), Memory>
    ensures ok { OnOk result (into.new ≡ into.old ++ list_text (map link_text links.now)) }
    ensures err { OnErr result (IsFront into.old into.new) }
{
    into.push(b'[')?;
    for (at, link) in links.as_slice().iter().enumerate() {
        write_comma(at, into)?;
        write_link(link, into)?;
    }
    into.push(b']')?;
    Ok(())
}
