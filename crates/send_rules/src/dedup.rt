ghost use Rattle.std.specs.Prelude.{◌≡◌, ◌++◌, ℕ, Option, Some, None, OnOk, IfSome, IfNone};
ghost use Rattle.std.specs.FinMap as finite;
ghost use Rattle.send_rules.specs.Sendings.{IsInFlight, IsDown, OneFetchEach, Operates, Answers, kind_of};
ghost use Rattle.stream_core.specs.Exchanges.{OperatedOnto, AnsweredOnto, Onto};

use crate::in_flight::InFlight;
use crate::sending::{Back, Sending};
use std::alloc::Global;
use std::marker::Model;
use stream_core::{Exchange, Flow, Pending, Unbroken};
use text_types::Memory;

/// Lets one fetch down for each key. Contracts see the fetches that are down, each of a query with its
/// key.
#[derive(Drop)]
pub struct Dedup {
    in_flight: InFlight,
    down: Pending<Option<u32>>,
}

impl Model for Dedup {
    ghost use Rattle.std.specs.Prelude.{ℕ, Option};
    ghost use Rattle.std.specs.Coded.{coded_ℕ, coded_option};
    ghost use Rattle.std.specs.FinMap as finite;
    ghost use Rattle.std.specs.Ordering.{nat_cmp};
    ghost use Rattle.send_rules.specs.Sendings.{Agree};

    ghost Value = { finite.FinMap nat_cmp (Option ℕ) };

    ghost coded = { finite.code coded_ℕ (coded_option coded_ℕ) };

    ghost view = { λ d. d.down };

    ghost invariant = { λ d. Agree d.in_flight d.down };
}

impl Dedup {
    /// No fetch is down.
    pub fn new(alloc: Global) -> Dedup
        ensures { result ≡ finite.empty }
    {
        Dedup {
            in_flight: InFlight::new(alloc),
            down: Pending::new(alloc),
        }
    }

    /// The fetch of the query with this key that is in flight. A key has one at most. Takes no memory.
    pub fn fetch_of(&self, key: u32) -> Option<u64>
        ensures found { IfSome result (λ fetch. finite.get self.now fetch ≡ Some (Some key)) }
        ensures unheld { IfNone result (IsInFlight self.now key → ⊥) }
        ensures single { OneFetchEach self.now }
    {
        self.in_flight.fetch_of(key)
    }

    /// From now on the fetch of a query with this key is down.
    fn begin_query(&mut self, key: u32, fetch: u64) -> Result<(), Memory>
        requires { IsInFlight self.old key → ⊥ }
        ensures { OnOk result (self.new ≡ finite.insert self.old fetch (Some key)) }
    {
        self.end(fetch);
        self.down.put(fetch, Some(key))?;
        if let Err(error) = self.in_flight.begin(key, fetch) {
            self.down.take(fetch);
            return Err(error);
        }
        Ok(())
    }

    /// From now on the fetch of a mutation is down.
    fn begin_mutation(&mut self, fetch: u64) -> Result<(), Memory>
        ensures { OnOk result (self.new ≡ finite.insert self.old fetch None) }
    {
        self.end(fetch);
        self.down.put(fetch, None)?;
        Ok(())
    }

    /// The fetch isn't down any more. The answer is whether it was. Takes no memory.
    fn end(&mut self, fetch: u64) -> bool
        ensures was { result ≡ finite.contains_key self.old fetch }
        ensures gone { self.new ≡ finite.remove self.old fetch }
    {
        match self.down.take(fetch) {
            Some(Some(key)) => {
                self.in_flight.forget(key);
                true
            }
            Some(None) => true,
            None => false,
        }
    }

    /// A query goes down where its key isn't in flight.
    fn send_query<C: Drop>(
        &mut self,
        key: u32,
        fetch: u64,
        out: &mut Vec<Flow<Sending, Back, C>>,
    ) -> Result<(), Memory>
        ensures { OnOk result (Onto (Operates self.old (Sending.Query key fetch) self.new) out.old.items out.new.items) }
    {
        match self.fetch_of(key) {
            Some(_) => Ok(()),
            None => {
                self.begin_query(key, fetch)?;
                out.push(Flow::Down(Sending::Query { key, fetch }))?;
                Ok(())
            }
        }
    }

    /// A mutation goes down.
    fn send_mutation<C: Drop>(
        &mut self,
        fetch: u64,
        out: &mut Vec<Flow<Sending, Back, C>>,
    ) -> Result<(), Memory>
        ensures { OnOk result (Onto (Operates self.old (Sending.Mutation fetch) self.new) out.old.items out.new.items) }
    {
        self.begin_mutation(fetch)?;
        out.push(Flow::Down(Sending::Mutation { fetch }))?;
        Ok(())
    }

    /// A teardown goes down where its fetch is.
    fn send_teardown<C: Drop>(
        &mut self,
        fetch: u64,
        out: &mut Vec<Flow<Sending, Back, C>>,
    ) -> Result<(), Memory>
        ensures { OnOk result (Onto (Operates self.old (Sending.Teardown fetch) self.new) out.old.items out.new.items) }
    {
        if self.end(fetch) {
            out.push(Flow::Down(Sending::Teardown { fetch }))?;
        }
        Ok(())
    }
}

impl<C: Drop> Exchange<C> for Dedup {
    type Op = Sending;

    type Res = Back;

    ghost intact = { λ _. Unit {0} };

    ghost awaits = { IsDown };

    ghost operates = { Operates };

    ghost answers = { Answers };

    fn operation(
        &mut self,
        op: Sending,
        out: &mut Vec<Flow<Sending, Back, C>>,
    ) -> Result<(), Memory>
        ensures lawful { OnOk result
            (OperatedOnto kind_of (IsDown self.old) (IsDown self.new) op out.old.items out.new.items) }
        ensures made { OnOk result (Onto (Operates self.old op self.new) out.old.items out.new.items) }
    {
        match op {
            Sending::Query { key, fetch } => self.send_query(key, fetch, out),
            Sending::Mutation { fetch } => self.send_mutation(fetch, out),
            Sending::Teardown { fetch } => self.send_teardown(fetch, out),
        }
    }

    fn result(&mut self, res: Back, out: &mut Vec<Flow<Sending, Back, C>>) -> Result<(), Memory>
        ensures lawful { OnOk result
            (AnsweredOnto kind_of (λ b. b.fetch) (IsDown self.old) (IsDown self.new) out.old.items out.new.items) }
        ensures made { OnOk result (Onto (Answers self.old res self.new) out.old.items out.new.items) }
    {
        if self.end(res.fetch) {
            out.push(Flow::Up(res))?;
        }
        Ok(())
    }
}

impl<C: Drop> Unbroken<C> for Dedup {
    ghost never = { λ _. tt };
}
