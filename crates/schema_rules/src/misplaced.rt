ghost use Rattle.std.specs.Prelude.{◌≡◌};
ghost use Rattle.schema_rules.specs.Misplaced.{misplaced_line};

use crate::uses::{Ground, least_use};
use schema_model::Schema;

/// The least line of a type of the wrong kind.
pub fn misplaced_line(schema: &Schema) -> Option<u64>
    ensures { result ≡ misplaced_line schema.now }
{
    least_use(schema, Ground::Misplaced)
}
