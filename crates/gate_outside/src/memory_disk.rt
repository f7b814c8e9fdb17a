ghost use Rattle.std.specs.Prelude.{◌≡◌, ◌+◌, ◌-◌, ◌<◌, ◌≤◌, ◌↔◌, Some, Ok, min, max, length, take, drop, reverse, IfOk, IsOk, IsTrue};
ghost use Rattle.fault_causes.specs.Causes.{Rose};
ghost use Rattle.gate_outside.specs.Log.{Wrote, CutTo, Synced, MayLeave, MightHaveLeft, image_after};
ghost use Rattle.gate_outside.specs.MemoryDisk.{undisturbed, file_of, with_event, HasRoom, LogsOrFails};

use crate::change::{Change, overwrite};
use crate::disk::Disk;
use crate::source::Failed;
use crate::tear::{Tear, torn_image};
use std::alloc::Global;
use std::marker::Model;
use text_types::{Bytes, Memory, Text};

/// A file in memory that keeps each change to it, so that it tells and hands out what a crash behind any
/// of them might have left. No write reaches past `room` bytes, all writes together bring no more, and it
/// takes at most so many changes. It fails only where a call would pass this room.
#[derive(Drop)]
pub struct MemoryDisk {
    first: Vec<u8>,
    file: Vec<u8>,
    /// The bytes of all writes, one behind the other.
    bytes: Vec<u8>,
    changes: Vec<Change>,
    faults: u64,
    room: usize,
}

impl Model for MemoryDisk {
    ghost use Rattle.std.specs.Prelude.{◌≤◌, length, map, vec_capacity};
    ghost use Rattle.gate_outside.specs.Log.{event_of};
    ghost use Rattle.gate_outside.specs.MemoryDisk.{DiskInMemory, IsKept};

    ghost Value = { DiskInMemory };

    ghost view = { λ d. record {
      first = d.first.items;
      log = map (event_of d.bytes.items) d.changes.items;
      held = length d.bytes.items;
      faults = d.faults;
      room = d.room;
    } };

    ghost invariant = { λ d. IsKept d.first.items d.file.items d.bytes.items d.changes.items
        × (d.room ≤ vec_capacity d.file) × (d.room ≤ vec_capacity d.bytes) × (d.room ≤ vec_capacity d.changes) };
}

impl MemoryDisk {
    /// A file of these bytes, all of them made sure of. Takes all its memory here, so that no call of the
    /// disk wants any.
    pub fn new(alloc: Global, bytes: Bytes, room: usize) -> Result<MemoryDisk, Memory>
        ensures { IfOk result (λ disk. disk ≡ undisturbed bytes room) }
    {
        let first = bytes.into_vec();
        let mut file = Vec::with_capacity(alloc, room)?;
        file.extend_from_slice(&first)?;
        Ok(MemoryDisk {
            first,
            file,
            bytes: Vec::with_capacity(alloc, room)?,
            changes: Vec::with_capacity(alloc, room)?,
            faults: 0,
            room,
        })
    }

    /// The file as it reads.
    pub fn bytes(&self) -> &[u8]
        ensures { result.now ≡ file_of self.now }
    {
        self.file.as_slice()
    }

    /// How many changes were made: writes, cuts and syncs.
    pub fn changes(&self) -> usize
        ensures { result ≡ length self.now.log }
    {
        self.changes.len()
    }

    /// The file that a crash behind so many changes leaves, where it does the same to each of them that
    /// isn't synced.
    pub fn image(&self, alloc: Global, count: usize, tear: Tear) -> Result<Bytes, Memory>
        requires { count ≤ length self.now.log }
        ensures exact { IfOk result (λ c. c ≡ image_after tear self.now.first (reverse (take count self.now.log))) }
        ensures possible { IfOk result (λ c. MayLeave self.now.first (reverse (take count self.now.log)) c) }
    {
        let changes = &self.changes[..count];
        Ok(Bytes::from_vec(torn_image(alloc, &self.first, &self.bytes, changes, tear)?))
    }

    /// Whether there is room for a change that brings so many bytes at this offset.
    fn has_room(&self, at: usize, count: usize) -> bool
        ensures { IsTrue result ↔ HasRoom self.now (at + count) count }
    {
        at <= self.room
            && count <= self.room - at
            && self.bytes.len() <= self.room - count
            && self.changes.len() < self.room
    }

    fn count_fault(&mut self)
        ensures cause { (self.old.faults ≤ self.new.faults) × Rose self.old.faults self.new.faults }
        ensures only { self.new ≡ record self.old { faults = self.new.faults } }
    {
        self.faults = self.faults.saturating_add(1);
    }

    fn write(&mut self, at: usize, bytes: &[u8])
        requires { HasRoom self.old (at + length bytes.now) (length bytes.now) }
        ensures { self.new ≡ with_event self.old (Wrote at bytes.now) (length bytes.now) }
    {
        overwrite(&mut self.file, at, bytes).unwrap();
        let from = self.bytes.len();
        let len = bytes.len();
        self.bytes.extend_from_slice(bytes).unwrap();
        self.changes.push(Change::Wrote { at, from, len }).unwrap();
    }

    fn cut_to(&mut self, len: usize)
        requires { length self.old.log < self.old.room }
        ensures { self.new ≡ with_event self.old (CutTo len) 0 }
    {
        self.file.truncate(len);
        self.changes.push(Change::CutTo { len }).unwrap();
    }

    fn make_sure(&mut self)
        requires { length self.old.log < self.old.room }
        ensures { self.new ≡ with_event self.old Synced 0 }
    {
        self.changes.push(Change::Synced).unwrap();
    }
}

impl Disk for MemoryDisk {
    ghost use Rattle.std.specs.Prelude.{ℕ, List};
    ghost use Rattle.fault_causes.specs.Causes.{HasCause};
    ghost use Rattle.fault_causes.specs.Crash.{Follows};
    ghost use Rattle.gate_outside.specs.Disk.{IsTorn};
    ghost use Rattle.gate_outside.specs.LogLaws.{leaves_told, counts_this, only_this};

    ghost reads = { λ d. Some (file_of d) };

    ghost kept = { λ d. length (file_of d) };

    ghost may_leave = { λ d c. MayLeave d.first (reverse d.log) c };

    ghost moment = { λ d. length (reverse d.log) };

    ghost left_since = { λ d t c. MightHaveLeft d.first (reverse d.log) t c };

    ghost faults = { λ d. d.faults };

    ghost reads_left = { λ d file told. leaves_told d.first (reverse d.log) file told };

    ghost counts_now = { λ d t c le now. counts_this d.first (reverse d.log) t c now };

    ghost only_now = { λ d c left. only_this d.first (reverse d.log) c left };

    fn attach(&mut self, _name: &Text) -> Result<(), Failed>
        ensures sure { IsOk result }
        ensures unchanged { self.new ≡ self.old }
    {
        Ok(())
    }

    fn len(&mut self) -> Result<u64, Failed>
        ensures length { result ≡ Ok (length (file_of self.old)) }
        ensures unchanged { self.new ≡ self.old }
    {
        Ok(self.file.len() as u64)
    }

    fn read_at(&mut self, at: u64, buf: &mut [u8]) -> Result<usize, Failed>
        ensures count { result ≡ Ok (min (length (file_of self.old) - at) (length buf.new)) }
        ensures bytes { IfOk result (λ n. take n buf.new ≡ take n (drop at (file_of self.old))) }
        ensures unchanged { self.new ≡ self.old }
    {
        if at >= self.file.len() as u64 {
            return Ok(0);
        }
        Ok(copy_from(&self.file, at as usize, buf))
    }

    fn write_at(&mut self, at: u64, bytes: &[u8]) -> Result<(), Failed>
        requires start { at ≤ length (file_of self.old) }
        requires room { at + length bytes.now ≤ max (length (file_of self.old)) 67108864 }
        ensures crash { Follows (IsTorn at (length bytes.now))
            (MayLeave self.old.first (reverse self.old.log)) (MayLeave self.new.first (reverse self.new.log)) }
        ensures logged { LogsOrFails self.old self.new result (Wrote at bytes.now) (at + length bytes.now) (length bytes.now) }
        ensures cause { HasCause self.old.faults self.new.faults result }
    {
        let at = at as usize;
        if !self.has_room(at, bytes.len()) {
            self.count_fault();
            return Err(Failed);
        }
        self.write(at, bytes);
        Ok(())
    }

    fn cut(&mut self, len: u64) -> Result<(), Failed>
        requires { len ≤ length (file_of self.old) }
        ensures logged { LogsOrFails self.old self.new result (CutTo len) 0 0 }
        ensures cause { HasCause self.old.faults self.new.faults result }
    {
        if !self.has_room(0, 0) {
            self.count_fault();
            return Err(Failed);
        }
        self.cut_to(len as usize);
        Ok(())
    }

    fn sync(&mut self) -> Result<(), Failed>
        ensures crash { (c : List ℕ) → MayLeave self.new.first (reverse self.new.log) c
            → MayLeave self.old.first (reverse self.old.log) c }
        ensures logged { LogsOrFails self.old self.new result Synced 0 0 }
        ensures cause { HasCause self.old.faults self.new.faults result }
    {
        if !self.has_room(0, 0) {
            self.count_fault();
            return Err(Failed);
        }
        self.make_sure();
        Ok(())
    }
}

/// Copies as much as fits from an offset.
fn copy_from(file: &[u8], at: usize, buf: &mut [u8]) -> usize
    requires { at ≤ length file.now }
    ensures count { result ≡ min (length file.now - at) (length buf.old) }
    ensures bytes { take result buf.new ≡ take result (drop at file.now) }
{
    let rest = &file[at..];
    let count = rest.len().min(buf.len());
    buf[..count].copy_from_slice(&rest[..count]);
    count
}
