ghost use Rattle.std.specs.Prelude.{◌≡◌, ◌++◌, IfOk, OnOk};
ghost use Rattle.cache_model.specs.Keys.{keyed_text, embedded_text, root_text, places_text};

use crate::escapes::push_escaped;
use cache_model::{EntityKey, FieldKey};
use itoa::Buffer;
use text_types::{Memory, Text};

/// The key of an object of this type that has an id.
pub fn keyed(name: &Text, id: &Text) -> Result<EntityKey, Memory>
    ensures { IfOk result (λ key. key ≡ keyed_text name.now id.now) }
{
    keyed_by(name, id.as_str())
}

/// The same by a borrowed id.
pub(crate) fn keyed_by(name: &Text, id: &str) -> Result<EntityKey, Memory>
    ensures { IfOk result (λ key. key ≡ keyed_text name.now id.now) }
{
    let mut key = name.copy()?;
    key.push_str(":")?;
    push_escaped(&mut key, id)?;
    Ok(EntityKey::from_text(key))
}

/// The key of an object without an id, by the field of its parent that leads to it and the indexes
/// where that field holds lists.
pub fn embedded(
    parent: &EntityKey,
    field: &FieldKey,
    places: &[u64],
    name: &Text,
) -> Result<EntityKey, Memory>
    ensures { IfOk result (λ key. key ≡ embedded_text parent.now field.now places.now name.now) }
{
    let mut key = parent.as_text().copy()?;
    key.push_str(".")?;
    push_escaped(&mut key, field.as_text().as_str())?;
    push_places(&mut key, places)?;
    key.push_str("@")?;
    key.push(name)?;
    Ok(EntityKey::from_text(key))
}

/// The key of the root object of this type.
pub fn root_key(name: &Text) -> Result<EntityKey, Memory>
    ensures { IfOk result (λ key. key ≡ root_text name.now) }
{
    Ok(EntityKey::from_text(name.copy()?))
}

fn push_places(key: &mut Text, places: &[u64]) -> Result<(), Memory>
    ensures { OnOk result (key.new ≡ key.old ++ places_text places.now) }
{
    for place in places {
        key.push_str(".")?;
        key.push_str(Buffer::new().format(*place))?;
    }
    Ok(())
}
