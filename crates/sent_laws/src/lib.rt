//! Laws of the documents that are sent, `__typename` at the front of selection sets. They stand on
//! `op_keys`, which says what is sent, on the grammar of `gql_model`, on the canonical text of
//! `gql_printing` and on the numbers of `gql_numbering`. The functions do nothing: each has a law as its
//! clause, and `specs/` states the laws.
//!
//! The one contract: what is sent for a document that some text has is a document again
//! ([`sent_documents_are_documents`]). Tokens derive it, its canonical text is its text, and that text is
//! read as it again. Places are set aside there, since no text has the new field at its set's own place.
//! Beside it stands which sets get the field ([`fronts_tell_what_is_sent`]).
#![tactic(auto)]

ghost use Rattle.sent_laws.specs.Fronted.{FrontsTellWhatIsSent};
ghost use Rattle.sent_laws.specs.Laws.{SentDocumentsAreDerived, SentTextsAreDocuments, SentTextsAreReadAgain};

/// The document that is sent is a document again, whatever the schema: tokens derive it, and its canonical
/// text is its text and is read as it, places aside.
pub fn sent_documents_are_documents()
    ensures derived { SentDocumentsAreDerived }
    ensures written { SentTextsAreDocuments }
    ensures read { SentTextsAreReadAgain }
{}

/// What is said of each selection set, by its number, is whether the set of this number is sent with
/// `__typename` at its front; every set is sent with as many selections behind that as it has.
pub fn fronts_tell_what_is_sent()
    ensures { FrontsTellWhatIsSent }
{}
