//! The tokens of a document or a schema: the lexical grammar of the GraphQL language (October 2021,
//! 2.1 and 2.9), over the bytes of a text. It stands on the texts and lists of `text_types`.
//!
//! Contracts see the tokens of a text as the list `tokens_of` of `specs/Tokens.antt`, whose last one
//! is the first lexical fault or the end. [`Lexer`] is a cursor over that list and takes no memory;
//! [`lex`] gives the spans of all its tokens, or the fault's place; [`nesting`] says how deep its
//! brackets nest. [`name_text`], [`integer_text`], [`string_value`] and [`integer_value`] say what a token's text
//! means, and [`place_behind`] counts rows and columns. That tokens and ignored stretches make up the text
//! is a law of [`laws`].
#![tactic(auto)]

mod block_values;
mod blocks;
mod brackets;
mod characters;
mod error;
mod heads;
pub mod laws;
mod lexemes;
mod lexer;
mod lexing;
mod names;
mod numbers;
mod places;
mod runs;
mod strings;
mod token;
mod values;

pub use brackets::nesting;
pub use error::SyntaxError;
pub use lexer::Lexer;
pub use lexing::lex;
pub use names::name_text;
pub use numbers::{integer_text, integer_value};
pub use places::place_behind;
pub use token::{Kind, Place, Token, Tokens};
pub use values::string_value;
