//! What is proved of the canonical text by itself.

ghost use Rattle.gql_printing.specs.Laws.{CanonicalTextIsItsDocument, CanonicalTextIsReadAgain};

/// The tokens of a document's canonical text derive the document again, places aside, where the tokens
/// of some text derive it.
pub fn canonical_text_is_its_document()
    ensures { CanonicalTextIsItsDocument }
{}

/// A document's canonical text is read as the document again, places aside, where the tokens of some
/// text derive it.
pub fn canonical_text_is_read_again()
    ensures { CanonicalTextIsReadAgain }
{}
