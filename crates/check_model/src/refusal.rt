/// Why a document isn't accepted.
#[derive(Clone, Copy, Debug, PartialEq, Eq)]
pub enum Refusal {
    /// No operation has the given name, or none is given and there isn't exactly one operation.
    UnknownOperation,
    /// A field or an alias has a name that is kept for introspection.
    Introspection,
    /// A rule of validation is broken.
    Invalid { rule: u8 },
    /// Selection sets nest too deep, or a definition has too many fields.
    TooLarge,
}
