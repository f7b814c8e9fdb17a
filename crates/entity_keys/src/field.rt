ghost use Rattle.std.specs.Prelude.{◌≡◌, IfOk};
ghost use Rattle.entity_keys.specs.Fields.{field_key_text};

use cache_model::FieldKey;
use gql_value::{Members, push_sorted_members};
use text_types::{Memory, Text};

/// The key of a field with these arguments: its name, and behind it the sorted text of the
/// arguments where there are some. Arguments are coerced, with defaults; one without a value is
/// absent.
pub fn field_key(name: &Text, args: &Members) -> Result<FieldKey, Memory>
    ensures { IfOk result (λ key. key ≡ field_key_text name.now args.now) }
{
    if args.is_empty() {
        return plain_field_key(name);
    }
    let mut key = name.copy()?;
    key.push_str("(")?;
    push_sorted_members(key.allocator(), args, &mut key)?;
    key.push_str(")")?;
    Ok(FieldKey::from_text(key))
}

/// The key of a field without arguments: its name.
pub fn plain_field_key(name: &Text) -> Result<FieldKey, Memory>
    ensures { IfOk result (λ key. key ≡ name.now) }
{
    Ok(FieldKey::from_text(name.copy()?))
}
