//! Laws of the marks, which the layers above cite. The functions do nothing.

ghost use Rattle.gql_numbering.specs.Telling.{MarksTell, DefinitionMarksTell};

/// Each set has one mark for each of its selections. Where the selection is a field, its mark tells
/// the field's number, and where it carries a set, that set's number.
pub fn marks_tell()
    ensures { MarksTell }
{}

/// There is one mark for each definition. Where it has a selection set, the mark tells that set's
/// number.
pub fn definition_marks_tell()
    ensures { DefinitionMarksTell }
{}
