//! What is read of one member of a frame.

ghost use Rattle.std.specs.Prelude.{◌≡◌, option_map};
ghost use Rattle.serde_json.specs.View.{view};
ghost use Rattle.gql_value.specs.Members as members;
ghost use Rattle.gate_frames.specs.Members as spec;

use send_rules::Policy;
use serde_json::Value as Json;

/// The text that a member is, where it is one.
pub(crate) fn member_text<'a>(frame: &'a Json, name: &str) -> Option<&'a str>
    ensures { option_map (λ text. text.now) result ≡ members.text_in name.now (view frame.now) }
{
    frame.get(name)?.as_str()
}

/// The whole number from 0 that a member is, where it is one.
pub(crate) fn member_number(frame: &Json, name: &str) -> Option<u64>
    ensures { result ≡ members.number_in name.now (view frame.now) }
{
    number_of(frame.get(name)?)
}

fn number_of(value: &Json) -> Option<u64>
    ensures { result ≡ members.number_of (view value.now) }
{
    u64::try_from(value.as_i64()?).ok()
}

pub(crate) fn is_text_or_null(value: &Json) -> bool
    ensures { result ≡ spec.is_text_or_null (view value.now) }
{
    matches!(value, Json::Null | Json::String(_))
}

pub(crate) fn is_object_or_null(value: &Json) -> bool
    ensures { result ≡ spec.is_object_or_null (view value.now) }
{
    matches!(value, Json::Null | Json::Object(_))
}

/// The policy that a frame asks for, where the member is absent or names one.
pub(crate) fn policy_of(member: Option<&Json>) -> Option<Policy>
    ensures { result ≡ spec.policy_of (option_map (λ value. view value.now) member.entry) }
{
    match member {
        None => Some(Policy::CacheFirst),
        Some(value) => policy_named(value.as_str()?),
    }
}

fn policy_named(word: &str) -> Option<Policy>
    ensures { result ≡ spec.policy_named word.now }
{
    match word {
        "cache-first" => Some(Policy::CacheFirst),
        "cache-only" => Some(Policy::CacheOnly),
        "network-only" => Some(Policy::NetworkOnly),
        "cache-and-network" => Some(Policy::CacheAndNetwork),
        _ => None,
    }
}

/// The status of a response, where the member is absent or is one.
pub(crate) fn status_of(member: Option<&Json>) -> Option<u16>
    ensures { result ≡ spec.status_of (option_map (λ value. view value.now) member.entry) }
{
    match member {
        None => Some(200),
        Some(value) => status_from(number_of(value)?),
    }
}

fn status_from(number: u64) -> Option<u16>
    ensures { result ≡ spec.status_from number }
{
    if number >= 100 && number <= 999 {
        Some(number as u16)
    } else {
        None
    }
}
