use text_types::Text;

/// That a query looked at a cell: the texts of the cell's two keys, the number of the query, and
/// the turn of its reading. A query's readings take turns, so that the places of the next can
/// stand beside those of the last until all are there.
#[derive(PartialEq, Eq, PartialOrd, Ord, Drop)]
pub struct Place {
    pub entity: Text,
    pub field: Text,
    pub sub: u64,
    pub turn: bool,
}
