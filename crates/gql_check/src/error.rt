ghost use Rattle.std.specs.Prelude.{◌≡◌};
ghost use Rattle.gql_check.specs.declared.error.CheckError.TheVariants as error;
ghost use Rattle.gql_check.specs.Errors.{error_of};

use check_model::Refusal;
use text_types::Memory;

/// Why `check` gives no operation.
#[derive(Clone, Copy, Debug, Drop, PartialEq, Eq)]
pub enum CheckError {
    /// Memory ran out, and then nothing is known of the document.
    Memory,
    /// No operation has the given name, or none is given and there isn't exactly one operation.
    UnknownOperation,
    /// A field or an alias has a name that is kept for introspection.
    Introspection,
    /// The first rule of validation that is broken.
    Invalid { rule: u8 },
    /// Selection sets nest too deep, or a definition has too many fields.
    TooLarge,
}

impl From<Memory> for CheckError {
    ghost from_gives = { λ _ e. e ≡ error.Memory };

    fn from(_: Memory) -> CheckError {
        CheckError::Memory
    }
}

pub(crate) fn error_of(refusal: Refusal) -> CheckError
    ensures { result ≡ error_of refusal }
{
    match refusal {
        Refusal::UnknownOperation => CheckError::UnknownOperation,
        Refusal::Introspection => CheckError::Introspection,
        Refusal::Invalid { rule } => CheckError::Invalid { rule },
        Refusal::TooLarge => CheckError::TooLarge,
    }
}
