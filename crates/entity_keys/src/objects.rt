ghost use Rattle.std.specs.Prelude.{◌≡◌, IfOk, is_some, bytes_eq, codes};
ghost use Rattle.std.specs.Option.{option_copied, option_map};
ghost use Rattle.std.specs.Map.{lookup};
ghost use Rattle.cache_model.specs.Keys.{keyed_text};
ghost use Rattle.entity_keys.specs.Objects as spec;

use crate::entity::keyed_by;
use cache_model::EntityKey;
use gql_value::{Members, Value};
use itoa::Buffer;
use text_types::{Memory, Named, Text};

/// What is set for the keys of some types: a type's name with the field whose value is an object's
/// id, or with None where its objects have no key of their own.
pub type KeyRules = Named<Option<Text>>;

/// The key of an object of this type, or None where it has no id. `fields` has a member for each
/// name of a field that was asked for without arguments. The id is the text or the whole number
/// under the type's key field: the one that is set for the type, else `id` where `fields` has that
/// member, else `_id`.
pub fn key_of_object(
    rules: &KeyRules,
    name: &Text,
    fields: &Members,
) -> Result<Option<EntityKey>, Memory>
    ensures { IfOk result (λ key. key ≡ spec.object_key rules.now name.now fields.now) }
{
    match value_of_key_field(rules, name, fields) {
        Some(value) => key_by_value(name, value),
        None => Ok(None),
    }
}

fn key_by_value(name: &Text, value: &Value) -> Result<Option<EntityKey>, Memory>
    ensures { IfOk result (λ key. key ≡ option_map (keyed_text name.now) (spec.id_of value.now)) }
{
    match value {
        Value::Text(id) => Ok(Some(keyed_by(name, id.as_str())?)),
        Value::Int(number) => Ok(Some(keyed_by(name, Buffer::new().format(*number))?)),
        Value::Null | Value::Bool(_) | Value::List(_) | Value::Obj(_) => Ok(None),
    }
}

fn value_of_key_field<'a>(rules: &KeyRules, name: &Text, fields: &'a Members) -> Option<&'a Value>
    ensures { option_copied result ≡ spec.value_of_key_field rules.now name.now fields.now }
{
    match member(rules.as_slice(), name.as_str()) {
        Some(Some(field)) => member(fields.as_slice(), field.as_str()),
        Some(None) => None,
        None => member(fields.as_slice(), default_key_field(fields)),
    }
}

fn default_key_field(fields: &Members) -> &'static str
    ensures { result.now ≡ spec.default_key_field fields.now }
{
    if member(fields.as_slice(), "id").is_some() {
        "id"
    } else {
        "_id"
    }
}

/// What stands under a name.
fn member<'a, T>(pairs: &'a [(Text, T)], name: &str) -> Option<&'a T>
    ensures { option_copied result ≡ spec.member pairs.now name.now }
{
    for pair in pairs {
        if name.as_bytes() == pair.0.as_bytes() {
            return Some(&pair.1);
        }
    }
    None
}
