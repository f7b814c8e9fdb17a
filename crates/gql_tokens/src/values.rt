//! What strings and block strings mean (GraphQL October 2021, 2.9.4).

ghost use Rattle.std.specs.Prelude.{◌≡◌, IfOk, string_bytes};
ghost use Rattle.gql_tokens.specs.Tokens.{string_value_of};

use crate::block_values::block_value;
use crate::characters::begins_with;
use crate::runs::{Context, run_value};
use std::alloc::Global;
use text_types::{Memory, Text};

/// What a string or block string means.
pub fn string_value(alloc: Global, text: &[u8]) -> Result<Text, Memory>
    ensures { IfOk result (λ t. t ≡ string_value_of text.now) }
{
    if begins_with(b"\"\"\"", text) {
        let raw = run_value(alloc, Context::Block, text.split_at(3).1)?;
        return block_value(alloc, raw.as_str());
    }
    let inner = match text.split_first() {
        Some((_, inner)) => inner,
        None => text,
    };
    Ok(Text::from_string(run_value(alloc, Context::String, inner)?))
}
