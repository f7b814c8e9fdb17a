ghost use Rattle.std.specs.Prelude.{◌≡◌};
ghost use Rattle.gql_spelling.specs.Spelling.{mark_of};

use gql_tokens::Kind;

/// The characters of a punctuator (GraphQL October 2021, 2.1.8); of any other token none.
pub fn punctuator_text(kind: Kind) -> &'static str
    ensures { result.now ≡ mark_of kind }
{
    match kind {
        Kind::Bang => "!",
        Kind::Dollar => "$",
        Kind::Ampersand => "&",
        Kind::ParenOpen => "(",
        Kind::ParenClose => ")",
        Kind::Spread => "...",
        Kind::Colon => ":",
        Kind::Equals => "=",
        Kind::At => "@",
        Kind::BracketOpen => "[",
        Kind::BracketClose => "]",
        Kind::BraceOpen => "{",
        Kind::Pipe => "|",
        Kind::BraceClose => "}",
        _ => "",
    }
}
