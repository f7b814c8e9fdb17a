ghost use Rattle.std.specs.Prelude.{◌≡◌, IfOk, map, bytes_eq, is_some};
ghost use Rattle.std.specs.Option.{option_copied, option_map, option_and_then};
ghost use Rattle.std.specs.List.{filter_map};
ghost use Rattle.cache_model.specs.Keys.{keyed_text, embedded_text};
ghost use Rattle.entity_keys.specs.Objects as keys_spec;
ghost use Rattle.answer_model.specs.Keys.{field_key};
ghost use Rattle.answer_model.specs.Writing.{plain_member};
ghost use Rattle.field_asking.specs.Asking.{asked_field};
ghost use Rattle.result_writer.specs.Views.{answered_of, field_of};
ghost use Rattle.result_writer.specs.Entities as spec;

use crate::object::Field;
use crate::writer::Writer;
use answer_parts::MemberIndex;
use cache_model::EntityKey;
use entity_keys::{KeyRules, embedded, keyed};
use field_asking::AskedField;
use gql_value::Value;
use itoa::Buffer;
use std::alloc::Global;
use text_types::{Memory, Text};

impl<'a> Writer<'a> {
    /// The key of an object: by its id, or else by the way that leads to it.
    pub(crate) fn entity_of(
        &self,
        field: &Field<'_, '_>,
        name: &Text,
        places: &[u64],
        fields: &[AskedField<'_>],
        members: &MemberIndex<'_>,
    ) -> Result<EntityKey, Memory>
        ensures { IfOk result (λ key. key ≡ spec.entity_by (answered_of self.now).keys (field_of field.now) name.now places.now (filter_map (plain_member members.now.members.now) (map asked_field fields.now))) }
    {
        match id_value(self.keys, name, fields, members) {
            Some(value) => self.key_by_value(field, name, places, value),
            None => embedded_at(field, name, places),
        }
    }

    fn key_by_value(
        &self,
        field: &Field<'_, '_>,
        name: &Text,
        places: &[u64],
        value: &Value,
    ) -> Result<EntityKey, Memory>
        ensures { IfOk result (λ key. key ≡ spec.key_by_value (field_of field.now) name.now places.now value.now) }
    {
        match value {
            Value::Text(id) => keyed(name, id),
            Value::Int(number) => {
                let id = Text::from_str(self.alloc, Buffer::new().format(*number))?;
                keyed(name, &id)
            }
            _ => embedded_at(field, name, places),
        }
    }
}

fn embedded_at(field: &Field<'_, '_>, name: &Text, places: &[u64]) -> Result<EntityKey, Memory>
    ensures { IfOk result (λ key. key ≡ spec.embedded_at (field_of field.now) name.now places.now) }
{
    let key = field.asked.cell_key()?;
    embedded(&field.object.entity, &key, places, name)
}

/// What an object has under the key field of its type.
fn id_value<'v>(
    rules: &KeyRules,
    name: &Text,
    fields: &[AskedField<'_>],
    members: &MemberIndex<'v>,
) -> Option<&'v Value>
    ensures { option_copied result ≡ keys_spec.value_of_key_field rules.now name.now (filter_map (plain_member members.now.members.now) (map asked_field fields.now)) }
{
    match key_rule(rules, name) {
        Some(Some(field)) => plain_value(fields, members, field.as_str()),
        Some(None) => None,
        None => default_id(fields, members),
    }
}

fn default_id<'v>(fields: &[AskedField<'_>], members: &MemberIndex<'v>) -> Option<&'v Value>
    ensures { option_copied result ≡ spec.default_id (filter_map (plain_member members.now.members.now) (map asked_field fields.now)) }
{
    match plain_value(fields, members, "id") {
        Some(value) => Some(value),
        None => plain_value(fields, members, "_id"),
    }
}

fn key_rule<'r>(rules: &'r KeyRules, name: &Text) -> Option<&'r Option<Text>>
    ensures { option_copied result ≡ keys_spec.member rules.now name.now }
{
    'rules: for rule in rules.as_slice() {
        if name.as_bytes() == rule.0.as_bytes() {
            return Some(&rule.1);
        }
    }
    None
}

/// The value of the first field of a name that was asked without arguments.
fn plain_value<'v>(
    fields: &[AskedField<'_>],
    members: &MemberIndex<'v>,
    name: &str,
) -> Option<&'v Value>
    ensures { option_copied result ≡ keys_spec.member (filter_map (plain_member members.now.members.now) (map asked_field fields.now)) name.now }
{
    'fields: for field in fields {
        if field.arguments.is_empty() && name.as_bytes() == field.name.as_bytes() {
            if let Some(value) = members.get(&field.key) {
                return Some(value);
            }
        }
    }
    None
}
