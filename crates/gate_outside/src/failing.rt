ghost use Rattle.std.specs.Prelude.{◌≡◌, ◌<◌, ◌≤◌, IsOk, IsErr, IsErrOf, IfOk, IsTrue, ◌↔◌, Contains};
ghost use Rattle.std.specs.Io.{ReadsAtMost};
ghost use Rattle.std.specs.Io.KnownBytes.{ReadConsumes, WriteAppends};
ghost use Rattle.fault_causes.specs.Causes.{Rose, HasCause, HasCauseOf};
ghost use Rattle.gate_outside.specs.Failing.{FailsAsListed, next_call, uncalled};
ghost use Rattle.gate_outside.specs.InMemory.{unread, unwritten, unvisited};
ghost use Rattle.gate_outside.specs.Shelf.{AnswersAsHeld};
ghost use Rattle.gate_outside.specs.Sink.{TakesSome};
ghost use Rattle.gate_outside.specs.Source.{CountsGiven, MarksEnd};

use crate::memory_shelf::MemoryShelf;
use crate::memory_sink::MemorySink;
use crate::memory_source::MemorySource;
use crate::shelf::{Shelf, ShelfError};
use crate::sink::Sink;
use crate::source::{Failed, Source};
use std::alloc::Global;
use std::marker::Model;
use text_types::{Bytes, Memory, Named, Text};

/// A source, a sink, a shelf or a disk that does as the one inside, except that its calls with the listed
/// numbers fail. The first call has the number 1.
#[derive(Drop)]
pub struct Failing<T> {
    pub(crate) inner: T,
    fail_at: Vec<u64>,
    calls: u64,
    faults: u64,
}

pub type FailingSource = Failing<MemorySource>;

pub type FailingSink = Failing<MemorySink>;

pub type FailingShelf = Failing<MemoryShelf>;

impl<T> Model for Failing<T> {
    ghost use Rattle.gate_outside.specs.Failing.{WithFailures};

    ghost Value = { WithFailures T };

    ghost view = { λ f. record {
      inner = f.inner;
      fail_at = f.fail_at.items;
      calls = f.calls;
      faults = f.faults;
    } };
}

impl<T> Failing<T> {
    pub(crate) fn over(inner: T, fail_at: Vec<u64>) -> Failing<T>
        ensures { result ≡ uncalled inner fail_at.items }
    {
        Failing {
            inner,
            fail_at,
            calls: 0,
            faults: 0,
        }
    }

    /// Counts one more call, and tells whether it is to fail.
    pub(crate) fn next_fails(&mut self) -> bool
        ensures listed { IsTrue result ↔ Contains self.old.fail_at (next_call self.old) }
        ensures counted { self.new ≡ record self.old { calls = next_call self.old } }
    {
        self.calls = self.calls.saturating_add(1);
        self.fail_at.contains(&self.calls)
    }

    pub(crate) fn count_fault(&mut self)
        ensures cause { (self.old.faults ≤ self.new.faults) × Rose self.old.faults self.new.faults }
        ensures only { self.new ≡ record self.old { faults = self.new.faults } }
    {
        self.faults = self.faults.saturating_add(1);
    }

    /// Hands on what the object inside answered, and counts it where it is a failure.
    pub(crate) fn count_failure<R>(&mut self, answer: Result<R, Failed>) -> Result<R, Failed>
        ensures same { result ≡ answer }
        ensures cause { HasCause self.old.faults self.new.faults result }
        ensures spared { IsOk result → self.new.faults ≡ self.old.faults }
        ensures only { self.new ≡ record self.old { faults = self.new.faults } }
    {
        match answer {
            Ok(given) => Ok(given),
            Err(Failed) => {
                self.count_fault();
                Err(Failed)
            }
        }
    }
}

impl FailingSource {
    /// A source of these bytes, in pieces of at most `piece`, whose listed calls fail, counted from 1.
    pub fn new(bytes: Bytes, piece: usize, fail_at: Vec<u64>) -> FailingSource
        requires { 0 < piece }
        ensures { result ≡ uncalled (unread bytes piece) fail_at.items }
    {
        Failing::over(MemorySource::new(bytes, piece), fail_at)
    }

    /// How many bytes it has given.
    pub fn given(&self) -> usize
        ensures { result ≡ self.now.inner.given }
    {
        self.inner.given()
    }
}

impl FailingSink {
    /// A sink with room for so many bytes, taken in pieces of at most `piece`, whose listed calls fail, counted
    /// from 1. The one error is want of memory.
    pub fn new(
        alloc: Global,
        room: usize,
        piece: usize,
        fail_at: Vec<u64>,
    ) -> Result<FailingSink, Memory>
        requires { 0 < piece }
        ensures { IfOk result (λ s. s ≡ uncalled (unwritten room piece) fail_at.items) }
    {
        Ok(Failing::over(MemorySink::new(alloc, room, piece)?, fail_at))
    }

    /// The bytes that it holds.
    pub fn bytes(&self) -> &[u8]
        ensures { result.now ≡ self.now.inner.held }
    {
        self.inner.bytes()
    }
}

impl FailingShelf {
    /// A shelf of these files whose listed calls fail, counted from 1.
    pub fn new(files: Named<Bytes>, fail_at: Vec<u64>) -> FailingShelf
        ensures { result ≡ uncalled (unvisited files) fail_at.items }
    {
        Failing::over(MemoryShelf::new(files), fail_at)
    }
}

impl<S: Source> Source for Failing<S> {
    ghost left = { λ f. S.left f.inner };

    ghost faults = { λ f. f.faults };

    ghost given = { λ f. S.given f.inner };

    ghost ended = { λ f. S.ended f.inner };

    fn read(&mut self, buf: &mut [u8]) -> Result<usize, Failed>
        ensures bound { ReadsAtMost result buf.new }
        ensures bytes { ReadConsumes (S.left self.old.inner) (S.left self.new.inner) result buf.new }
        ensures cause { HasCause self.old.faults self.new.faults result }
        ensures counted { CountsGiven (S.given self.old.inner) (S.given self.new.inner) result }
        ensures ended { MarksEnd (S.ended self.old.inner) (S.ended self.new.inner) result buf.new }
        ensures listed { FailsAsListed self.old self.new (IsErr result)
            (Rose (S.faults self.old.inner) (S.faults self.new.inner)) }
    {
        if self.next_fails() {
            self.count_fault();
            return Err(Failed);
        }
        let answer = self.inner.read(buf);
        self.count_failure(answer)
    }
}

impl<K: Sink> Sink for Failing<K> {
    ghost held = { λ f. K.held f.inner };

    ghost faults = { λ f. f.faults };

    fn write(&mut self, bytes: &[u8]) -> Result<usize, Failed>
        ensures bound { TakesSome result bytes.now }
        ensures bytes { WriteAppends (K.held self.old.inner) (K.held self.new.inner) result bytes.now }
        ensures cause { HasCause self.old.faults self.new.faults result }
        ensures listed { FailsAsListed self.old self.new (IsErr result)
            (Rose (K.faults self.old.inner) (K.faults self.new.inner)) }
    {
        if self.next_fails() {
            self.count_fault();
            return Err(Failed);
        }
        let answer = self.inner.write(bytes);
        self.count_failure(answer)
    }
}

impl<F: Shelf> Shelf for Failing<F> {
    ghost holds = { λ f. F.holds f.inner };

    ghost faults = { λ f. f.faults };

    ghost missing = { λ f. F.missing f.inner };

    fn get(&mut self, alloc: Global, name: &Text) -> Result<Bytes, ShelfError>
        ensures kept { F.holds self.new.inner ≡ F.holds self.old.inner }
        ensures answer { AnswersAsHeld (F.holds self.old.inner) name.now result }
        ensures missed { HasCauseOf ShelfError.Missing
            (F.missing self.old.inner) (F.missing self.new.inner) result }
        ensures failed { HasCauseOf ShelfError.Failed self.old.faults self.new.faults result }
        ensures listed { FailsAsListed self.old self.new (IsErrOf result ShelfError.Failed)
            (Rose (F.faults self.old.inner) (F.faults self.new.inner)) }
    {
        if self.next_fails() {
            self.count_fault();
            return Err(ShelfError::Failed);
        }
        match self.inner.get(alloc, name) {
            Err(ShelfError::Failed) => {
                self.count_fault();
                Err(ShelfError::Failed)
            }
            answer => answer,
        }
    }
}
