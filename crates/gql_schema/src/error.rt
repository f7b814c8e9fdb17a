ghost use Rattle.std.specs.Prelude.{◌≡◌};
ghost use Rattle.gql_schema.specs.declared.error.SchemaError.TheVariants as refusal;

use text_types::Memory;

/// Why a text gives no schema.
#[derive(Debug, Drop)]
pub enum SchemaError {
    /// Memory ran out, and then nothing is known of the text.
    Memory,
    /// The least code that is broken, which is the number in S1 to S9, and its least line.
    Refused { code: u8, line: u64 },
}

impl From<Memory> for SchemaError {
    ghost from_gives = { λ _ error. error ≡ refusal.Memory };

    fn from(_: Memory) -> SchemaError {
        SchemaError::Memory
    }
}

/// A code that is broken, and its least line.
#[derive(Clone, Copy)]
pub struct Refusal {
    pub code: u8,
    pub line: u64,
}

impl Refusal {
    pub(crate) fn into_error(self) -> SchemaError
        ensures { result ≡ refusal.Refused self.code self.line }
    {
        SchemaError::Refused {
            code: self.code,
            line: self.line,
        }
    }
}
