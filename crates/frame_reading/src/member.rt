//! What is read of a member of a JSON object.

ghost use Rattle.std.specs.Prelude.{◌≡◌, option_map};
ghost use Rattle.serde_json.specs.Find.{get};
ghost use Rattle.serde_json.specs.View.{view};
ghost use Rattle.gql_value.specs.Members.{number_in, text_in};

use serde_json::Value as Json;

/// The text that a member is, where it is one.
pub fn member_text<'a>(object: &'a Json, name: &str) -> Option<&'a str>
    ensures { option_map (λ text. text.now) result ≡ text_in name.now (view object.now) }
{
    object.get(name)?.as_str()
}

/// The whole number from 0 that a member is, where it is one.
pub fn member_number(object: &Json, name: &str) -> Option<u64>
    ensures { result ≡ number_in name.now (view object.now) }
{
    u64::try_from(object.get(name)?.as_i64()?).ok()
}
