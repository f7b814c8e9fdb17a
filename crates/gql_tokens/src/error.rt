use text_types::Memory;

/// Why a text could not be read.
#[derive(Clone, Copy, Debug, PartialEq, Eq)]
pub enum SyntaxError {
    /// Out of memory.
    Memory,
    /// The text is at fault at this place: rows and columns count from 1, columns in characters.
    Syntax { row: u64, column: u64 },
}

impl From<Memory> for SyntaxError {
    ghost use Rattle.std.specs.Prelude.{◌≡◌};
    ghost use Rattle.gql_tokens.specs.declared.error.SyntaxError.TheVariants.{Memory};

    ghost from_gives = { λ _ e. e ≡ Memory };

    fn from(_: Memory) -> SyntaxError {
        SyntaxError::Memory
    }
}
