ghost use Rattle.std.specs.Prelude.{◌≡◌, ◌⊎◌, ℕ, ◌+◌, ◌≤◌, List, Option, length, take, drop, max, is_some, option_map, IfOk, OnOk, OnErr, IfSome, Some};
ghost use Rattle.std.specs.Io.{ReadsAtMost};
ghost use Rattle.fault_causes.specs.Causes.{HasCause};
ghost use Rattle.fault_causes.specs.Crash.{Only, Follows, Elapses};
ghost use Rattle.gate_outside.specs.Disk.{IsTorn, IsCutOrWhole, written};

use crate::source::Failed;
use text_types::Text;

/// One file, of which a crash may lose what isn't synced.
///
/// Between two syncs a crash may leave any bytes in each range that was written and past the old end,
/// and the old length or the new one. After a sync that succeeds it leaves what a read gives.
pub trait Disk {
    /// The file as it reads, where the disk tells it.
    ghost reads: { Self → Option (List ℕ) };

    /// The length that the disk keeps from its last `len`, `write_at` or `cut`.
    ghost kept: { Self → ℕ };

    /// The files that a crash now may leave.
    ghost may_leave: { Self → List ℕ → Type 0 };

    /// The moment, as a number that doesn't fall.
    ghost moment: { Self → ℕ };

    /// The files that a crash at that moment or later might have left.
    ghost left_since: { Self → ℕ → List ℕ → Type 0 };

    /// How often it has failed.
    ghost faults: { Self → ℕ };

    /// Opens the named file, and makes an empty one where there is none.
    fn attach(&mut self, name: &Text) -> Result<(), Failed>
        ensures reads { reads self.new ≡ reads self.old }
        ensures kept { kept self.new ≡ kept self.old }
        ensures crash { (c : List ℕ) → may_leave self.new c → may_leave self.old c }
        ensures time { Elapses (moment self.old) (moment self.new)
            (left_since self.old) (left_since self.new) (may_leave self.new) }
        ensures cause { HasCause (faults self.old) (faults self.new) result };

    /// The file's length.
    fn len(&mut self) -> Result<u64, Failed>
        ensures length { IfOk result (λ n. IfSome (reads self.old) (λ file. n ≡ length file)) }
        ensures kept { IfOk result (λ n. kept self.new ≡ n) }
        ensures reads { reads self.new ≡ reads self.old }
        ensures crash { (c : List ℕ) → may_leave self.new c → may_leave self.old c }
        ensures time { Elapses (moment self.old) (moment self.new)
            (left_since self.old) (left_since self.new) (may_leave self.new) }
        ensures cause { HasCause (faults self.old) (faults self.new) result };

    /// Reads from an offset in bytes. It gives 0 only for an empty `buf`, or at or past the length
    /// that the disk keeps.
    fn read_at(&mut self, at: u64, buf: &mut [u8]) -> Result<usize, Failed>
        ensures bound { ReadsAtMost result buf.new }
        ensures bytes { IfOk result (λ n. IfSome (reads self.old) (λ file.
            take n buf.new ≡ take n (drop at file))) }
        ensures end { IfOk result (λ n. n ≡ 0 → (length buf.new ≡ 0) ⊎ (kept self.old ≤ at)) }
        ensures reads { reads self.new ≡ reads self.old }
        ensures kept { kept self.new ≡ kept self.old }
        ensures crash { (c : List ℕ) → may_leave self.new c → may_leave self.old c }
        ensures time { Elapses (moment self.old) (moment self.new)
            (left_since self.old) (left_since self.new) (may_leave self.new) }
        ensures cause { HasCause (faults self.old) (faults self.new) result };

    /// Writes at an offset in bytes, over what is there and past the end.
    fn write_at(&mut self, at: u64, bytes: &[u8]) -> Result<(), Failed>
        requires start { at ≤ kept self.old }
        requires room { at + length bytes.now ≤ max (kept self.old) 67108864 }
        ensures written { OnOk result (reads self.new ≡ option_map (written at bytes.now) (reads self.old)) }
        ensures kept { OnOk result (kept self.new ≡ max (kept self.old) (at + length bytes.now)) }
        ensures told { is_some (reads self.new) ≡ is_some (reads self.old) }
        ensures crash { Follows (IsTorn at (length bytes.now)) (may_leave self.old) (may_leave self.new) }
        ensures time { Elapses (moment self.old) (moment self.new)
            (left_since self.old) (left_since self.new) (may_leave self.new) }
        ensures cause { HasCause (faults self.old) (faults self.new) result };

    /// Cuts the file to a length in bytes.
    fn cut(&mut self, len: u64) -> Result<(), Failed>
        requires { len ≤ kept self.old }
        ensures cut { OnOk result (reads self.new ≡ option_map (take len) (reads self.old)) }
        ensures kept { OnOk result (kept self.new ≡ len) }
        ensures told { is_some (reads self.new) ≡ is_some (reads self.old) }
        ensures crash { Follows (IsCutOrWhole len) (may_leave self.old) (may_leave self.new) }
        ensures time { Elapses (moment self.old) (moment self.new)
            (left_since self.old) (left_since self.new) (may_leave self.new) }
        ensures cause { HasCause (faults self.old) (faults self.new) result };

    /// Makes sure of all that was written and cut.
    fn sync(&mut self) -> Result<(), Failed>
        ensures durable { OnOk result (IfSome (reads self.old) (λ file. Only file (may_leave self.new))) }
        ensures reads { reads self.new ≡ reads self.old }
        ensures kept { kept self.new ≡ kept self.old }
        ensures crash { (c : List ℕ) → may_leave self.new c → may_leave self.old c }
        ensures time { Elapses (moment self.old) (moment self.new)
            (left_since self.old) (left_since self.new) (may_leave self.new) }
        ensures cause { HasCause (faults self.old) (faults self.new) result };

    /// The file as it reads is one that a crash now may leave, after a call that failed too.
    ghost reads_left: { (disk : Self) (file : List ℕ) → reads disk ≡ Some file → may_leave disk file };

    /// This moment is one of those since an earlier one.
    ghost counts_now: { (disk : Self) (t : ℕ) (c : List ℕ) → t ≤ moment disk → may_leave disk c → left_since disk t c };

    /// Since this moment there is no other.
    ghost only_now: { (disk : Self) (c : List ℕ) → left_since disk (moment disk) c → may_leave disk c };
}
