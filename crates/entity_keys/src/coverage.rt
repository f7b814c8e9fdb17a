ghost use Rattle.std.specs.Prelude.{◌≡◌, is_some};
ghost use Rattle.cache_model.specs.Maps as spec;

use cache_model::{EntityKey, FieldKey, Write, text_has_name};
use text_types::Text;

/// Whether a write says something of the cell at a field of an object. Takes no memory.
pub fn covers(write: &Write, entity: &EntityKey, field: &FieldKey) -> bool
    ensures { result ≡ spec.covers write.now entity.now field.now }
{
    covers_texts(write, entity.as_text(), field.as_text())
}

/// The same by the texts of the two keys.
pub fn covers_texts(write: &Write, entity: &Text, field: &Text) -> bool
    ensures { result ≡ spec.covers write.now entity.now field.now }
{
    write.entity().as_text() == entity && covers_field(write, field)
}

/// The same of a field of the write's own object.
fn covers_field(write: &Write, field: &Text) -> bool
    ensures { result ≡ is_some (spec.field_hit write.now field.now) }
{
    match write {
        Write::Set(_, own, _) => own.as_text() == field,
        Write::Drop(_, own) => own.as_text() == field,
        Write::DropName(_, name) => text_has_name(field, name),
        Write::DropAll(_) => true,
    }
}
