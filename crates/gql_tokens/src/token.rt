use text_types::Items;

/// A place in a text. Rows and columns count from 1, columns in characters.
#[derive(Clone, Copy, Debug, PartialEq, Eq)]
pub struct Place {
    pub row: u64,
    pub column: u64,
}

/// What a token is. `Fault` is the first lexical fault of a text, `End` stands behind all its
/// characters.
#[derive(Clone, Copy, Debug, PartialEq, Eq)]
pub enum Kind {
    Bang,
    Dollar,
    Ampersand,
    ParenOpen,
    ParenClose,
    Spread,
    Colon,
    Equals,
    At,
    BracketOpen,
    BracketClose,
    BraceOpen,
    Pipe,
    BraceClose,
    Name,
    Integer,
    String,
    Fault,
    End,
}

/// A token of a text: its kind, its bytes from `start` to before `end`, and the place of its first
/// character.
#[derive(Clone, Copy, Debug, PartialEq, Eq)]
pub struct Token {
    pub kind: Kind,
    pub start: usize,
    pub end: usize,
    pub place: Place,
}

/// The tokens of a text, in order.
pub type Tokens = Items<Token>;
