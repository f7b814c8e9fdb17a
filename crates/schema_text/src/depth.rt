ghost use Rattle.std.specs.Prelude.{◌≡◌, ◌≤◌, ◌<◌, ◌^◌};
ghost use Rattle.gql_tokens.specs.Heads.{is_last};
ghost use Rattle.gql_tokens.specs.Nesting.{open_behind};
ghost use Rattle.gql_tokens.specs.Tokens.{tokens_of};
ghost use Rattle.schema_text.specs.Depth.{nests_too_deep, deep_line};

use gql_tokens::{Kind, Lexer, nesting};

/// The most brackets that may be open at once.
const MOST_OPEN: u64 = 64;

/// Whether more brackets are open at once than may be.
pub(crate) fn nests_too_deep(text: &[u8]) -> bool
    ensures { result ≡ nests_too_deep text.now }
{
    nesting(text) > MOST_OPEN
}

/// The line of the first bracket too many, or 0 where there is none.
pub(crate) fn deep_line(text: &[u8]) -> u64
    ensures { result ≡ deep_line 0 (tokens_of text.now) }
{
    let mut lexer = Lexer::new(text);
    let mut unclosed = 0;
    'tokens: while !is_last(lexer.kind()) {
        let behind = open_behind(lexer.kind(), unclosed);
        if behind > MOST_OPEN {
            return lexer.place().row;
        }
        unclosed = behind;
        lexer.advance();
    }
    0
}

fn is_last(kind: Kind) -> bool
    ensures { result ≡ is_last kind }
{
    matches!(kind, Kind::Fault | Kind::End)
}

/// How many brackets are open behind a token.
fn open_behind(kind: Kind, unclosed: u64) -> u64
    requires { unclosed ≤ 64 }
    ensures { result ≡ open_behind kind unclosed }
{
    match kind {
        Kind::ParenOpen | Kind::BracketOpen | Kind::BraceOpen => unclosed + 1,
        Kind::ParenClose | Kind::BracketClose | Kind::BraceClose => unclosed.saturating_sub(1),
        _ => unclosed,
    }
}
