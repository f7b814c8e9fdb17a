/// A point of a document: how many selection sets and how many fields begin before it. These are the
/// numbers that the next set and the next field behind it have.
#[derive(Clone, Copy, Debug, PartialEq, Eq)]
pub struct Mark {
    pub sets: u64,
    pub fields: u64,
}

/// A selection: the number of its set, and its place there from 0.
#[derive(Clone, Copy, Debug)]
pub struct Spot {
    pub set: u64,
    pub at: u64,
}

/// Where a selection set hangs: at the definition with this place, or at a selection.
#[derive(Clone, Copy, Debug)]
pub enum Home {
    Definition(u64),
    Selection(Spot),
}
