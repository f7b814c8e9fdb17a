//! The key of an object that an answer holds.

ghost use Rattle.std.specs.Prelude.{◌≡◌, [], ◌∷◌, ◌++◌, bytes_eq, codes, IfOk, option_map};
ghost use Rattle.std.specs.List.{list_any};
ghost use Rattle.serde_json.specs.View.{view};
ghost use Rattle.gate_machine.specs.Answers as spec;
ghost use Rattle.gate_machine.specs.Answers.{writings_of};
ghost use Rattle.exchange_line.specs.Written.{key_told};

use frame_reading::member_text;
use gate_machine::{EntityKey, Owner, Place};
use plain_queries::SelectionSet;
use serde_json::Value as Json;
use std::alloc::Global;
use text_types::{Items, Memory, Text};

/// The key of the object at a field of the parent, where its answer names a type.
pub(crate) fn key_of_object(
    alloc: Global,
    parent: &EntityKey,
    field: &Text,
    fields: &SelectionSet,
    answer: &Json,
) -> Result<Option<EntityKey>, Memory>
    ensures { IfOk result (λ key.
        key ≡ key_told parent.now field.now (writings_of fields.now) (view answer.now)) }
{
    let Some(type_name) = member_text(answer, "__typename") else {
        return Ok(None);
    };
    let type_name = Text::from_str(alloc, type_name)?;
    let key = match id_asked(fields, answer) {
        Some(id) => key_of_entity(alloc, type_name, id)?,
        None => key_of_embedded(alloc, parent, field, type_name)?,
    };
    Ok(Some(key))
}

/// The id of an object, where it is asked and is a text.
#[tactic(auto, using(crate::proofs::AnswerLaws::asked_in_writings))]
fn id_asked<'a>(fields: &SelectionSet, answer: &'a Json) -> Option<&'a str>
    ensures { option_map (λ id. id.now) result
        ≡ spec.id_asked (writings_of fields.now) (view answer.now) }
{
    if asks_id(fields) {
        member_text(answer, "id")
    } else {
        None
    }
}

fn asks_id(fields: &SelectionSet) -> bool
    ensures { result ≡ list_any (λ field. bytes_eq field.0 (codes "id")) fields.now }
{
    fields.as_slice().iter().any(|(name, _)| name.is("id"))
}

fn key_of_entity(alloc: Global, type_name: Text, id: &str) -> Result<EntityKey, Memory>
    ensures { IfOk result (λ key.
        key ≡ record { owner = Owner.Entity type_name id.now; places = [] }) }
{
    Ok(EntityKey {
        owner: Owner::Entity {
            type_name,
            id: Text::from_str(alloc, id)?,
        },
        places: Items::new(alloc),
    })
}

fn key_of_embedded(
    alloc: Global,
    parent: &EntityKey,
    field: &Text,
    type_name: Text,
) -> Result<EntityKey, Memory>
    ensures { IfOk result (λ key. key ≡ record {
      owner = parent.now.owner;
      places = parent.now.places ++ record { field = field.now; type_name = type_name } ∷ [];
    }) }
{
    let mut key = parent.copy(alloc)?;
    key.places.push(Place {
        field: field.copy()?,
        type_name,
    })?;
    Ok(key)
}
