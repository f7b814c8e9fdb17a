/// What goes down a line.
#[derive(Debug, Drop, PartialEq)]
pub enum Signal<T> {
    Start,
    Push(T),
    End,
}

/// What goes up a line.
#[derive(Clone, Copy, Debug, Drop, PartialEq, Eq)]
pub enum Talk {
    Pull,
    Close,
}
