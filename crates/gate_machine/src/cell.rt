use crate::key::EntityKey;
use gql_value::Value;
use text_types::Text;

/// What a field of an object holds: a value, or a link to another object. A null is a value.
#[derive(Debug, Drop)]
pub enum Cell {
    Leaf(Value),
    Link(EntityKey),
}

/// Sets the cell at a field of an object.
#[derive(Debug, Drop)]
pub struct Write {
    pub entity: EntityKey,
    pub field: Text,
    pub cell: Cell,
}
