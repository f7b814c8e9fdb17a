ghost use Rattle.std.specs.Prelude.{◌<◌, ◌≤◌, length, IfOk};
ghost use Rattle.schema_model.specs.declared.schema.Schema.{Schema};
ghost use Rattle.check_model.specs.Fields.{PlacedFields};
ghost use Rattle.merge_rules.specs.Rows.{field_of_row, IsWithin, Stands, Put};

use gql_model::Argument;
use schema_model::TypeId;
use text_types::{Memory, Text};

/// A field of an operation, below the field of an earlier row.
#[derive(Clone, Copy)]
pub(crate) struct Row<'a> {
    pub above: Option<usize>,
    /// Its response key.
    pub key: &'a Text,
    /// The type of the set that it stands in.
    pub parent: Option<TypeId>,
    pub name: &'a Text,
    pub arguments: &'a [Argument],
}

/// Adds a row, and answers its place.
pub(crate) fn put<'a>(rows: &mut Vec<Row<'a>>, row: Row<'a>) -> Result<usize, Memory>
    requires { IsWithin row.above (length rows.old.items) }
    ensures field { (schema : Schema) (fields : PlacedFields) → Stands schema rows.old.items fields → IfOk result (λ place. Put schema rows.new.items fields (field_of_row schema fields row.entry) place) }
    ensures within { IfOk result (λ place. place < length rows.new.items) }
    ensures longer { length rows.old.items ≤ length rows.new.items }
{
    let place = rows.len();
    rows.push(row)?;
    Ok(place)
}
