//! Keys of cells, and numbers that look random.

use crate::stop::Stop;
use cache_model::{EntityKey, FieldKey};
use std::alloc::Global;
use text_types::Text;

/// How many cells each object has.
pub(crate) const FIELDS: u64 = 10;

/// The object of a cell by its number.
pub(crate) fn entity(alloc: Global, cell: u64) -> Result<EntityKey, Stop> {
    let number = cell / FIELDS;
    let text = format!(in alloc; "Todo:{number}")?;
    Ok(EntityKey::from_text(Text::from_string(text)))
}

/// The field of a cell by its number.
pub(crate) fn field(alloc: Global, cell: u64) -> Result<FieldKey, Stop> {
    let number = cell % FIELDS;
    let text = format!(in alloc; "field{number}")?;
    Ok(FieldKey::from_text(Text::from_string(text)))
}

/// The next of some numbers that look random.
pub(crate) fn next(number: u64) -> u64 {
    number
        .wrapping_mul(6_364_136_223_846_793_005)
        .wrapping_add(1_442_695_040_888_963_407)
}
