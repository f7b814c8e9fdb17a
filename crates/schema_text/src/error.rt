use text_types::Memory;

/// What is wrong with a text that is to be a schema, by its line.
#[derive(Clone, Copy, Debug, Drop, PartialEq, Eq)]
pub enum Flaw {
    /// Its brackets nest too deep, it is no document, or it has an executable definition.
    NotASchema { line: u64 },
    /// It extends the schema or a type.
    Extends { line: u64 },
}

/// Why a text gives no type system definitions.
#[derive(Debug, Drop)]
pub enum TextError {
    /// Memory ran out, and then nothing is known of the text.
    Memory,
    Flawed(Flaw),
}

impl From<Memory> for TextError {
    ghost use Rattle.std.specs.Prelude.{◌≡◌};
    ghost use Rattle.schema_text.specs.declared.error.TextError.TheVariants as text_error;

    ghost from_gives = { λ _ error. error ≡ text_error.Memory };

    fn from(_: Memory) -> TextError {
        TextError::Memory
    }
}
