ghost use Rattle.std.specs.Prelude.{◌≡◌, length, None, Some, IfOk, OnOk};
ghost use Rattle.schema_model.specs.declared.schema.Schema.{Schema};
ghost use Rattle.check_model.specs.Fields.{PlacedFields};
ghost use Rattle.merge_rules.specs.Rows.{IsWithin, IsOrdered, Stands};
ghost use Rattle.merge_rules.specs.Paths.{number_below, number_at, Extends, AreNumbered};

use crate::rows::Row;
use std::alloc::Global;
use std::collections::BTreeMap;
use text_types::{Memory, Text};

/// The number of each row's path: rows of one path have one number.
pub(crate) fn path_numbers(alloc: Global, rows: &[Row<'_>]) -> Result<Vec<usize>, Memory>
    requires { IsOrdered rows.now }
    ensures long { IfOk result (λ numbers. length numbers.items ≡ length rows.now) }
    ensures numbered { (schema : Schema) (fields : PlacedFields) → Stands schema rows.now fields → IfOk result (λ numbers. AreNumbered fields numbers.items) }
{
    let mut known = BTreeMap::new(alloc);
    let mut numbers = Vec::new(alloc);
    'rows: for row in rows {
        let above = number_at(numbers.as_slice(), row.above);
        let number = number_below(&mut known, above, row.key)?;
        numbers.push(number)?;
    }
    Ok(numbers)
}

/// The number of the path at a place; that of the empty path is 0.
fn number_at(numbers: &[usize], place: Option<usize>) -> usize
    requires { IsWithin place (length numbers.now) }
    ensures { result ≡ number_at numbers.now place }
{
    match place {
        Some(place) => numbers[place],
        None => 0,
    }
}

/// The number of a path one key below another: the one that is known, or a new one.
fn number_below<'a>(
    known: &mut BTreeMap<(usize, &'a Text), usize>,
    above: usize,
    key: &'a Text,
) -> Result<usize, Memory>
    ensures told { IfOk result (λ number. number_below known.new above key.now ≡ Some number) }
    ensures extends { OnOk result (Extends known.old known.new) }
{
    match known.get(&(above, key)).copied() {
        Some(number) => Ok(number),
        None => new_number(known, above, key),
    }
}

/// A number for a path that has none.
fn new_number<'a>(
    known: &mut BTreeMap<(usize, &'a Text), usize>,
    above: usize,
    key: &'a Text,
) -> Result<usize, Memory>
    requires { number_below known.old above key.now ≡ None }
    ensures told { IfOk result (λ number. number_below known.new above key.now ≡ Some number) }
    ensures extends { OnOk result (Extends known.old known.new) }
{
    let number = known.len() + 1;
    known.insert((above, key), number)?;
    Ok(number)
}
