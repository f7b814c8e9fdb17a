ghost use Rattle.std.specs.Prelude.{◌≡◌, ◌⊎◌, ℕ, ◌+◌, ◌-◌, ◌≤◌, ◌<◌, [], ◌∷◌, List, length, take, max, is_some, option_map, IfOk, OnOk, IfSome};
ghost use Rattle.fault_causes.specs.Causes.{HasCause, HasCauseOf};
ghost use Rattle.fault_causes.specs.Crash.{Only, LeavesOnly};
ghost use Rattle.gate_outside.specs.Disk.{IsTorn, IsCutOrWhole, written};
ghost use Rattle.queue_journal.specs.Steps.{WhereTold, After};

use gate_outside::{Disk, Failed};

/// Writes, and makes sure of it.
pub fn write_synced<D: Disk>(disk: &mut D, at: u64, bytes: &[u8]) -> Result<(), Failed>
    requires start { at ≤ D.kept disk.old }
    requires room { at + length bytes.now ≤ max (D.kept disk.old) 67108864 }
    ensures written { OnOk result (D.reads disk.new ≡ option_map (written at bytes.now) (D.reads disk.old)) }
    ensures kept { OnOk result (D.kept disk.new ≡ max (D.kept disk.old) (at + length bytes.now)) }
    ensures told { is_some (D.reads disk.new) ≡ is_some (D.reads disk.old) }
    ensures durable { OnOk result (WhereTold (D.reads disk.new) (λ file. Only file (D.may_leave disk.new))) }
    ensures crash { LeavesOnly D.moment D.left_since disk.old disk.new
        (After (IsTorn at (length bytes.now)) (D.may_leave disk.old)) }
    ensures cause { HasCause (D.faults disk.old) (D.faults disk.new) result }
{
    disk.write_at(at, bytes)?;
    disk.sync()?;
    Ok(())
}

/// Cuts, and makes sure of it.
pub fn cut_synced<D: Disk>(disk: &mut D, len: u64) -> Result<(), Failed>
    requires { len ≤ D.kept disk.old }
    ensures cut { OnOk result (D.reads disk.new ≡ option_map (take len) (D.reads disk.old)) }
    ensures kept { OnOk result (D.kept disk.new ≡ len) }
    ensures told { is_some (D.reads disk.new) ≡ is_some (D.reads disk.old) }
    ensures durable { OnOk result (WhereTold (D.reads disk.new) (λ file. Only file (D.may_leave disk.new))) }
    ensures crash { LeavesOnly D.moment D.left_since disk.old disk.new
        (After (IsCutOrWhole len) (D.may_leave disk.old)) }
    ensures cause { HasCause (D.faults disk.old) (D.faults disk.new) result }
{
    disk.cut(len)?;
    disk.sync()?;
    Ok(())
}

/// Writes a record and a closed commit byte behind an end, and then opens the commit byte before it.
pub fn append_record<D: Disk>(disk: &mut D, end: u64, bytes: &[u8]) -> Result<(), Failed>
    requires start { (0 < end) × (end ≤ D.kept disk.old) }
    requires room { end + length bytes.now ≤ 67108864 }
    ensures written { OnOk result (D.reads disk.new
        ≡ option_map (λ file. written (end - 1) (1 ∷ []) (written end bytes.now file)) (D.reads disk.old)) }
    ensures kept { OnOk result (D.kept disk.new ≡ max (D.kept disk.old) (end + length bytes.now)) }
    ensures told { is_some (D.reads disk.new) ≡ is_some (D.reads disk.old) }
    ensures durable { OnOk result (WhereTold (D.reads disk.new) (λ file. Only file (D.may_leave disk.new))) }
    ensures crash { WhereTold (D.reads disk.old) (λ file. Only file (D.may_leave disk.old)
        → LeavesOnly D.moment D.left_since disk.old disk.new (λ c. IsTorn end (length bytes.now) file c
        ⊎ IsTorn (end - 1) 1 (written end bytes.now file) c)) }
    ensures cause { HasCause (D.faults disk.old) (D.faults disk.new) result }
{
    write_synced(disk, end, bytes)?;
    write_synced(disk, end - 1, &[1])
}

/// Closes the first commit byte, and then cuts the file behind it.
pub fn close_and_cut<D: Disk>(disk: &mut D) -> Result<(), Failed>
    requires { 9 ≤ D.kept disk.old }
    ensures cut { OnOk result (D.reads disk.new
        ≡ option_map (λ file. take 9 (written 8 (0 ∷ []) file)) (D.reads disk.old)) }
    ensures kept { OnOk result (D.kept disk.new ≡ 9) }
    ensures told { is_some (D.reads disk.new) ≡ is_some (D.reads disk.old) }
    ensures durable { OnOk result (WhereTold (D.reads disk.new) (λ file. Only file (D.may_leave disk.new))) }
    ensures crash { WhereTold (D.reads disk.old) (λ file. Only file (D.may_leave disk.old)
        → LeavesOnly D.moment D.left_since disk.old disk.new (λ c. IsTorn 8 1 file c
        ⊎ IsCutOrWhole 9 (written 8 (0 ∷ []) file) c)) }
    ensures cause { HasCause (D.faults disk.old) (D.faults disk.new) result }
{
    write_synced(disk, 8, &[0])?;
    cut_synced(disk, 9)
}
