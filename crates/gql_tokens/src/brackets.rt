//! How deep brackets nest in a text.

ghost use Rattle.std.specs.Prelude.{◌≡◌, ◌<◌, ◌^◌};
ghost use Rattle.gql_tokens.specs.Nesting as spec;

use crate::heads::{first_head, is_last, next_head};
use crate::token::Kind;

/// The greatest number of unclosed brackets, round, square or curly, before the first lexical fault
/// or the end of a text. A bracket that closes nothing counts nothing. Takes no memory.
pub fn nesting(text: &[u8]) -> u64
    ensures { result ≡ spec.nesting_of text.now }
{
    let mut unclosed: u64 = 0;
    let mut most: u64 = 0;
    let mut head = first_head(text);
    'tokens: while !is_last(head.kind) {
        unclosed = open_behind(head.kind, unclosed);
        most = most.max(unclosed);
        head = next_head(&head);
    }
    most
}

/// How many brackets are open behind a token.
fn open_behind(kind: Kind, unclosed: u64) -> u64
    requires { unclosed < 2 ^ 63 }
    ensures { result ≡ spec.open_behind kind unclosed }
{
    match kind {
        Kind::ParenOpen | Kind::BracketOpen | Kind::BraceOpen => unclosed + 1,
        Kind::ParenClose | Kind::BracketClose | Kind::BraceClose => unclosed.saturating_sub(1),
        _ => unclosed,
    }
}
