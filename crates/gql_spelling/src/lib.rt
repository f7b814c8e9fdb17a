//! That what is printed lexes again: the law which the printer of documents cites. It stands on the
//! tokens of `gql_tokens` and the quoted texts of `gql_value`.
//!
//! Tokens that are spelled one after another, with one space between two words, lex to these tokens
//! again, places aside; a quoted text means the text; and the tokens of each text can be spelled so.
#![tactic(auto)]

ghost use Rattle.gql_spelling.specs.Spelling.{SpacedLexesAgain, QuotedMeansItsText, TokensArePrintable};

/// The printed text of tokens lexes to these tokens again, places aside.
pub fn spaced_lexes_again()
    ensures { SpacedLexesAgain }
{}

/// A text in quotation marks means the text.
pub fn quoted_means_its_text()
    ensures { QuotedMeansItsText }
{}

/// The tokens of each text have texts that can be printed, strings in one line.
pub fn tokens_are_printable()
    ensures { TokensArePrintable }
{}
