use text_types::{Memory, Text};

/// Why the variables of an operation have no values.
#[derive(Debug, Drop)]
pub enum CoerceError {
    /// Memory ran out, and then nothing is known of the variables.
    Memory,
    /// The first declared variable that is refused.
    BadVariable { name: Text },
}

impl From<Memory> for CoerceError {
    ghost use Rattle.std.specs.Prelude.{◌≡◌};
    ghost use Rattle.gql_coercion.specs.declared.error.CoerceError.TheVariants as refusal;

    ghost from_gives = { λ _ error. error ≡ refusal.Memory };

    fn from(_: Memory) -> CoerceError {
        CoerceError::Memory
    }
}
