ghost use Rattle.std.specs.Prelude.{◌≡◌, ◌⊎◌, ℕ, ◌+◌, ◌≤◌, List, length, take, drop, max, is_some, option_map, IfOk, OnOk, IfSome, IsErr};
ghost use Rattle.std.specs.Io.{ReadsAtMost};
ghost use Rattle.fault_causes.specs.Causes.{Rose, HasCause};
ghost use Rattle.fault_causes.specs.Crash.{Only, Follows, Elapses};
ghost use Rattle.gate_outside.specs.Disk.{IsTorn, IsCutOrWhole, written};
ghost use Rattle.gate_outside.specs.Failing.{FailsAsListed, SparesInside, uncalled};
ghost use Rattle.gate_outside.specs.MemoryDisk.{undisturbed};

use crate::disk::Disk;
use crate::failing::Failing;
use crate::memory_disk::MemoryDisk;
use crate::source::Failed;
use std::alloc::Global;
use text_types::{Bytes, Memory, Text};

/// A disk in memory whose calls with the listed numbers fail. Such a call leaves the disk as it was, so
/// a run over it that ends at its first failure is one that was stopped there.
pub type FailingDisk = Failing<MemoryDisk>;

impl FailingDisk {
    /// A disk that holds these bytes, with room in all for so many, whose listed calls fail, counted from 1.
    /// The one error is want of memory.
    pub fn new(
        alloc: Global,
        bytes: Bytes,
        room: usize,
        fail_at: Vec<u64>,
    ) -> Result<FailingDisk, Memory>
        ensures { IfOk result (λ disk. disk ≡ uncalled (undisturbed bytes room) fail_at.items) }
    {
        Ok(Failing::over(MemoryDisk::new(alloc, bytes, room)?, fail_at))
    }

    /// The disk as the last call left it.
    pub fn into_disk(self) -> MemoryDisk
        ensures { result ≡ self.inner }
    {
        self.inner
    }
}

impl<D: Disk> Disk for Failing<D> {
    ghost reads = { λ f. D.reads f.inner };

    ghost kept = { λ f. D.kept f.inner };

    ghost may_leave = { λ f c. D.may_leave f.inner c };

    ghost moment = { λ f. D.moment f.inner };

    ghost left_since = { λ f t c. D.left_since f.inner t c };

    ghost faults = { λ f. f.faults };

    ghost reads_left = { λ f file told. D.reads_left f.inner file told };

    ghost counts_now = { λ f t c le now. D.counts_now f.inner t c le now };

    ghost only_now = { λ f c left. D.only_now f.inner c left };

    fn attach(&mut self, name: &Text) -> Result<(), Failed>
        ensures reads { D.reads self.new.inner ≡ D.reads self.old.inner }
        ensures kept { D.kept self.new.inner ≡ D.kept self.old.inner }
        ensures crash { (c : List ℕ) → D.may_leave self.new.inner c → D.may_leave self.old.inner c }
        ensures time { Elapses (D.moment self.old.inner) (D.moment self.new.inner)
            (D.left_since self.old.inner) (D.left_since self.new.inner) (D.may_leave self.new.inner) }
        ensures cause { HasCause self.old.faults self.new.faults result }
        ensures listed { FailsAsListed self.old self.new (IsErr result)
            (Rose (D.faults self.old.inner) (D.faults self.new.inner)) }
        ensures spared { SparesInside self.old self.new }
    {
        if self.next_fails() {
            self.count_fault();
            return Err(Failed);
        }
        let answer = self.inner.attach(name);
        self.count_failure(answer)
    }

    fn len(&mut self) -> Result<u64, Failed>
        ensures length { IfOk result (λ n. IfSome (D.reads self.old.inner) (λ file. n ≡ length file)) }
        ensures kept { IfOk result (λ n. D.kept self.new.inner ≡ n) }
        ensures reads { D.reads self.new.inner ≡ D.reads self.old.inner }
        ensures crash { (c : List ℕ) → D.may_leave self.new.inner c → D.may_leave self.old.inner c }
        ensures time { Elapses (D.moment self.old.inner) (D.moment self.new.inner)
            (D.left_since self.old.inner) (D.left_since self.new.inner) (D.may_leave self.new.inner) }
        ensures cause { HasCause self.old.faults self.new.faults result }
        ensures listed { FailsAsListed self.old self.new (IsErr result)
            (Rose (D.faults self.old.inner) (D.faults self.new.inner)) }
        ensures spared { SparesInside self.old self.new }
    {
        if self.next_fails() {
            self.count_fault();
            return Err(Failed);
        }
        let answer = self.inner.len();
        self.count_failure(answer)
    }

    fn read_at(&mut self, at: u64, buf: &mut [u8]) -> Result<usize, Failed>
        ensures bound { ReadsAtMost result buf.new }
        ensures bytes { IfOk result (λ n. IfSome (D.reads self.old.inner) (λ file.
            take n buf.new ≡ take n (drop at file))) }
        ensures end { IfOk result (λ n. n ≡ 0 → (length buf.new ≡ 0) ⊎ (D.kept self.old.inner ≤ at)) }
        ensures reads { D.reads self.new.inner ≡ D.reads self.old.inner }
        ensures kept { D.kept self.new.inner ≡ D.kept self.old.inner }
        ensures crash { (c : List ℕ) → D.may_leave self.new.inner c → D.may_leave self.old.inner c }
        ensures time { Elapses (D.moment self.old.inner) (D.moment self.new.inner)
            (D.left_since self.old.inner) (D.left_since self.new.inner) (D.may_leave self.new.inner) }
        ensures cause { HasCause self.old.faults self.new.faults result }
        ensures listed { FailsAsListed self.old self.new (IsErr result)
            (Rose (D.faults self.old.inner) (D.faults self.new.inner)) }
        ensures spared { SparesInside self.old self.new }
    {
        if self.next_fails() {
            self.count_fault();
            return Err(Failed);
        }
        let answer = self.inner.read_at(at, buf);
        self.count_failure(answer)
    }

    fn write_at(&mut self, at: u64, bytes: &[u8]) -> Result<(), Failed>
        requires start { at ≤ D.kept self.old.inner }
        requires room { at + length bytes.now ≤ max (D.kept self.old.inner) 67108864 }
        ensures written { OnOk result (D.reads self.new.inner ≡ option_map (written at bytes.now) (D.reads self.old.inner)) }
        ensures kept { OnOk result (D.kept self.new.inner ≡ max (D.kept self.old.inner) (at + length bytes.now)) }
        ensures told { is_some (D.reads self.new.inner) ≡ is_some (D.reads self.old.inner) }
        ensures crash { Follows (IsTorn at (length bytes.now)) (D.may_leave self.old.inner) (D.may_leave self.new.inner) }
        ensures time { Elapses (D.moment self.old.inner) (D.moment self.new.inner)
            (D.left_since self.old.inner) (D.left_since self.new.inner) (D.may_leave self.new.inner) }
        ensures cause { HasCause self.old.faults self.new.faults result }
        ensures listed { FailsAsListed self.old self.new (IsErr result)
            (Rose (D.faults self.old.inner) (D.faults self.new.inner)) }
        ensures spared { SparesInside self.old self.new }
    {
        if self.next_fails() {
            self.count_fault();
            return Err(Failed);
        }
        let answer = self.inner.write_at(at, bytes);
        self.count_failure(answer)
    }

    fn cut(&mut self, len: u64) -> Result<(), Failed>
        requires { len ≤ D.kept self.old.inner }
        ensures cut { OnOk result (D.reads self.new.inner ≡ option_map (take len) (D.reads self.old.inner)) }
        ensures kept { OnOk result (D.kept self.new.inner ≡ len) }
        ensures told { is_some (D.reads self.new.inner) ≡ is_some (D.reads self.old.inner) }
        ensures crash { Follows (IsCutOrWhole len) (D.may_leave self.old.inner) (D.may_leave self.new.inner) }
        ensures time { Elapses (D.moment self.old.inner) (D.moment self.new.inner)
            (D.left_since self.old.inner) (D.left_since self.new.inner) (D.may_leave self.new.inner) }
        ensures cause { HasCause self.old.faults self.new.faults result }
        ensures listed { FailsAsListed self.old self.new (IsErr result)
            (Rose (D.faults self.old.inner) (D.faults self.new.inner)) }
        ensures spared { SparesInside self.old self.new }
    {
        if self.next_fails() {
            self.count_fault();
            return Err(Failed);
        }
        let answer = self.inner.cut(len);
        self.count_failure(answer)
    }

    fn sync(&mut self) -> Result<(), Failed>
        ensures durable { OnOk result (IfSome (D.reads self.old.inner) (λ file. Only file (D.may_leave self.new.inner))) }
        ensures reads { D.reads self.new.inner ≡ D.reads self.old.inner }
        ensures kept { D.kept self.new.inner ≡ D.kept self.old.inner }
        ensures crash { (c : List ℕ) → D.may_leave self.new.inner c → D.may_leave self.old.inner c }
        ensures time { Elapses (D.moment self.old.inner) (D.moment self.new.inner)
            (D.left_since self.old.inner) (D.left_since self.new.inner) (D.may_leave self.new.inner) }
        ensures cause { HasCause self.old.faults self.new.faults result }
        ensures listed { FailsAsListed self.old self.new (IsErr result)
            (Rose (D.faults self.old.inner) (D.faults self.new.inner)) }
        ensures spared { SparesInside self.old self.new }
    {
        if self.next_fails() {
            self.count_fault();
            return Err(Failed);
        }
        let answer = self.inner.sync();
        self.count_failure(answer)
    }
}
