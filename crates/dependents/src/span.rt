ghost use Rattle.std.specs.Prelude.{◌≡◌, [], ◌∷◌, ◌++◌, IfOk};
ghost use Rattle.dependents.specs.Spans.{first_place, start_of, end_of};

use crate::place::Place;
use entity_keys::Write;
use text_types::{Memory, Text};

/// The place where the cells that a write covers begin.
pub(crate) fn start_of_write(write: &Write) -> Result<Place, Memory>
    ensures { IfOk result (λ place. place ≡ start_of write.now) }
{
    let entity = write.entity().as_text().copy()?;
    match write {
        Write::Set(_, field, _) => Ok(first_place(entity, field.as_text().copy()?)),
        Write::Drop(_, field) => Ok(first_place(entity, field.as_text().copy()?)),
        Write::DropName(_, name) => Ok(first_place(entity, name.copy()?)),
        Write::DropAll(_) => {
            let field = Text::new(entity.allocator());
            Ok(first_place(entity, field))
        }
    }
}

/// The place that they all stand before.
pub(crate) fn end_of_write(write: &Write) -> Result<Place, Memory>
    ensures { IfOk result (λ place. place ≡ end_of write.now) }
{
    let mut place = start_of_write(write)?;
    match write {
        Write::Set(_, _, _) => place.field.push_str("\0")?,
        Write::Drop(_, _) => place.field.push_str("\0")?,
        Write::DropName(_, _) => place.field.push_str(")")?,
        Write::DropAll(_) => place.entity.push_str("\0")?,
    }
    Ok(place)
}

fn first_place(entity: Text, field: Text) -> Place
    ensures { result ≡ first_place entity field }
{
    Place {
        entity,
        field,
        sub: 0,
        turn: false,
    }
}
