//! The files that the words name.

ghost use Rattle.std.specs.Prelude.{◌≡◌, ◌≤◌, ℕ, IfOk, OnOk, IsErrOf, Err};
ghost use Rattle.fault_causes.specs.Causes.{Rose};
ghost use Rattle.gateway.specs.Files.{IsHeld, IsMissing, IsSchema, GivesSchema, GivesService};

use crate::schema::service_of;
use crate::words::Names;
use gate_outside::{Shelf, ShelfError};
use judged_dispatch::Service;
use std::alloc::Global;
use text_types::Text;

/// Why a run doesn't have all its files.
#[derive(Debug, Drop)]
pub(crate) enum FileStop {
    /// No file has the schema's name.
    NoSchema,
    /// The schema is refused, by the least code that is broken and its least line.
    BadSchema { code: u8, line: u64 },
    /// No file has the rules' name.
    NoRules,
    /// The shelf failed.
    Shelf,
    /// Out of memory.
    Memory,
}

/// Reads the schema, and then asks for the rules, of which only that they are there counts as yet. Gives
/// the service of the schema.
#[tactic(auto, using(crate::proofs::Ends::schema_given))]
pub(crate) fn read_files<F: Shelf>(
    alloc: Global,
    names: &Names<'_>,
    files: &mut F,
) -> Result<Service, FileStop>
    ensures service { IfOk result (GivesService (F.holds files.old) names.now.schema.now) }
    ensures rules { OnOk result (IsHeld (F.holds files.old) names.now.rules.now) }
    ensures no_schema { IsErrOf result FileStop.NoSchema →
        Rose (F.missing files.old) (F.missing files.new)
        × IsMissing (F.holds files.old) names.now.schema.now }
    ensures bad_schema { (code line : ℕ) → IsErrOf result (FileStop.BadSchema code line) →
        GivesSchema (F.holds files.old) names.now.schema.now (Err (record { code = code; line = line })) }
    ensures no_rules { IsErrOf result FileStop.NoRules →
        Rose (F.missing files.old) (F.missing files.new)
        × (IsSchema (F.holds files.old) names.now.schema.now
        × IsMissing (F.holds files.old) names.now.rules.now) }
    ensures failed { IsErrOf result FileStop.Shelf → Rose (F.faults files.old) (F.faults files.new) }
    ensures kept { F.holds files.new ≡ F.holds files.old }
{
    let service = read_schema_file(alloc, names.schema, files)?;
    find_rules(alloc, names.rules, files)?;
    Ok(service)
}

/// The service of the schema that a file holds.
fn read_schema_file<F: Shelf>(
    alloc: Global,
    name: &Text,
    files: &mut F,
) -> Result<Service, FileStop>
    ensures held { IfOk result (GivesService (F.holds files.old) name.now) }
    ensures missing { IsErrOf result FileStop.NoSchema →
        Rose (F.missing files.old) (F.missing files.new) × IsMissing (F.holds files.old) name.now }
    ensures refused { (code line : ℕ) → IsErrOf result (FileStop.BadSchema code line) →
        GivesSchema (F.holds files.old) name.now (Err (record { code = code; line = line })) }
    ensures failed { IsErrOf result FileStop.Shelf → Rose (F.faults files.old) (F.faults files.new) }
    ensures rules { IsErrOf result FileStop.NoRules → ⊥ }
    ensures missing_later { F.missing files.old ≤ F.missing files.new }
    ensures faults_later { F.faults files.old ≤ F.faults files.new }
    ensures kept { F.holds files.new ≡ F.holds files.old }
{
    match files.get(alloc, name) {
        Ok(text) => service_of(alloc, text.as_slice()),
        Err(ShelfError::Missing) => Err(FileStop::NoSchema),
        Err(ShelfError::Failed) => Err(FileStop::Shelf),
        Err(ShelfError::Memory) => Err(FileStop::Memory),
    }
}

/// Asks for the rules. Only that they are there counts as yet.
fn find_rules<F: Shelf>(alloc: Global, name: &Text, files: &mut F) -> Result<(), FileStop>
    ensures held { OnOk result (IsHeld (F.holds files.old) name.now) }
    ensures missing { IsErrOf result FileStop.NoRules →
        Rose (F.missing files.old) (F.missing files.new) × IsMissing (F.holds files.old) name.now }
    ensures failed { IsErrOf result FileStop.Shelf → Rose (F.faults files.old) (F.faults files.new) }
    ensures schema { IsErrOf result FileStop.NoSchema → ⊥ }
    ensures refused { (code line : ℕ) → IsErrOf result (FileStop.BadSchema code line) → ⊥ }
    ensures kept { F.holds files.new ≡ F.holds files.old }
{
    match files.get(alloc, name) {
        Ok(_) => Ok(()),
        Err(ShelfError::Missing) => Err(FileStop::NoRules),
        Err(ShelfError::Failed) => Err(FileStop::Shelf),
        Err(ShelfError::Memory) => Err(FileStop::Memory),
    }
}
