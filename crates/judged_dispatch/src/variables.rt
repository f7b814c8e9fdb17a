ghost use Rattle.std.specs.Prelude.{◌≡◌, IfOk};
ghost use Rattle.schema_model.specs.Tables.{tabled};

use gql_value::{Members, Value};
use schema_model::Table;
use std::alloc::Global;
use text_types::Memory;

/// The table of named values.
#[tactic(auto, using(crate::proofs::TableLaws::table_more))]
pub fn table_of(alloc: Global, members: Members) -> Result<Table<Value>, Memory>
    ensures { IfOk result (λ table. table ≡ tabled members) }
{
    let mut table = Table::new(alloc);
    'members: for (name, value) in members.into_vec() {
        table = table.put(name, value)?;
    }
    Ok(table)
}
