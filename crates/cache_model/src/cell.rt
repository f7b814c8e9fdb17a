ghost use Rattle.std.specs.Prelude.{◌≡◌, IfOk, IsTrue, ◌↔◌};

use crate::keys::{EntityKey, FieldKey};
use crate::same::same_link;
use gql_value::Value;
use std::alloc::Global;
use text_types::{Items, Memory};

/// Where a field leads: to nothing, to an object, or to several places in order.
#[derive(Debug, Drop)]
pub enum Link {
    Null,
    Entity(EntityKey),
    List(Links),
}

/// Links in order.
pub type Links = Items<Link>;

/// What a field of an object holds.
#[derive(Debug, Drop)]
pub enum Cell {
    Leaf(Value),
    Link(Link),
}

/// Cells with their places, in an order that the maker states.
pub type Cells = Items<(EntityKey, FieldKey, Cell)>;

impl Cell {
    /// An equal cell.
    pub fn copy(&self, alloc: Global) -> Result<Cell, Memory>
        ensures { IfOk result (λ cell. cell ≡ self.now) }
    {
        match self {
            Cell::Leaf(value) => Ok(Cell::Leaf(value.copy(alloc)?)),
            Cell::Link(link) => Ok(Cell::Link(copy_link(alloc, link)?)),
        }
    }

    /// Whether the two are equal. Takes no memory.
    pub fn same(&self, other: &Cell) -> bool
        ensures { IsTrue result ↔ self.now ≡ other.now }
    {
        match (self, other) {
            (Cell::Leaf(value), Cell::Leaf(other)) => value.same(other),
            (Cell::Link(link), Cell::Link(other)) => same_link(link, other),
            _ => false,
        }
    }
}

#[cycle(copy)]
fn copy_link(alloc: Global, link: &Link) -> Result<Link, Memory>
    ensures { IfOk result (λ copy. copy ≡ link.now) }
{
    match link {
        Link::Null => Ok(Link::Null),
        Link::Entity(entity) => Ok(Link::Entity(entity.copy()?)),
        Link::List(links) => Ok(Link::List(copy_links(alloc, links)?)),
    }
}

#[cycle(copy)]
fn copy_links(alloc: Global, links: &Links) -> Result<Links, Memory>
    ensures { IfOk result (λ copies. copies ≡ links.now) }
{
    let mut copies = Items::new(alloc);
    for link in links.as_slice() {
        copies.push(copy_link(alloc, link)?)?;
    }
    Ok(copies)
}
