//! Laws of the tokens, which the layers above cite. The functions do nothing.

ghost use Rattle.gql_tokens.specs.Laws.{TokensMakeUpTexts};

/// The tokens of each text stand in it one after another, and only what is ignored stands between
/// them.
pub fn tokens_make_up_texts()
    ensures { TokensMakeUpTexts }
{}
