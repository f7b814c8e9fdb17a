//! The present results of all operations that were sent, as a plain list.

ghost use Rattle.std.specs.Prelude.{◌≡◌, find, reverse};
ghost use Rattle.std.specs.Option.{option_copied};
ghost use Rattle.gate_machine.specs.Cells.{flattened, sets};

use gate_machine::{Cell, EntityKey, Write};
use text_types::{Items, Text};

fn sets_cell(write: &Write, entity: &EntityKey, field: &Text) -> bool
    ensures { result ≡ sets write.now entity.now field.now }
{
    write.entity.same(entity) && write.field == *field
}

/// The last of these writes that sets the cell.
fn find_write<'a>(writes: &'a [Write], entity: &EntityKey, field: &Text) -> Option<&'a Write>
    ensures { option_copied result ≡ find (λ write. sets write entity.now field.now) (reverse writes.now) }
{
    writes
        .iter()
        .rev()
        .find(|write| sets_cell(write, entity, field))
}

/// The cell at a field of an object, by the newest write of it. Takes no memory.
#[tactic(auto, using(crate::proofs::HistoryLaws::newest_result))]
pub(crate) fn find_cell<'a>(
    history: &'a [Items<Write>],
    entity: &EntityKey,
    field: &Text,
) -> Option<&'a Cell>
    ensures { option_copied result ≡ flattened history.now entity.now field.now }
{
    for writes in history.iter().rev() {
        if let Some(write) = find_write(writes.as_slice(), entity, field) {
            return Some(&write.cell);
        }
    }
    None
}
