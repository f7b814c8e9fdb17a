//! What is proved of the definitions by themselves.

ghost use Rattle.op_keys.specs.Laws.{EqualNumbersForEqualIdentities};

/// Equal identities have equal numbers and others have others, however many were interned between.
pub fn equal_numbers_for_equal_identities()
    ensures { EqualNumbersForEqualIdentities }
{}
