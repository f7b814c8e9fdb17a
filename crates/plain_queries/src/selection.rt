use text_types::Named;

/// What is selected of a field: its value as it is, or these fields of its object.
#[derive(Debug, Drop)]
pub enum Selection {
    Leaf,
    Set(Named<Selection>),
}

/// Fields by name, in the order in which they were asked for.
pub type SelectionSet = Named<Selection>;
