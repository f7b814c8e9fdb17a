//! The gate's state, and what a line does to it.

ghost use Rattle.std.specs.Prelude.{◌≡◌, ◌++◌, ◌-◌, ◌==◌, ◌∷◌, [], ℕ, List, OnOk, IfOk, IfErr, Ok, Some, slice_set, filter, find, not};
ghost use Rattle.std.specs.Option.{option_copied};
ghost use Rattle.serde_json.specs.View.{view};
ghost use Rattle.plain_queries.specs.Plain.{plain_query_of};
ghost use Rattle.schema_model.specs.Tables.{tabled};
ghost use Rattle.machine_model.specs.declared.output.Refusal.TheVariants.{E3};
ghost use Rattle.frame_reading.specs.Errors.{IsFrameError, dispatch_meant, frame_meant};
ghost use Rattle.judged_dispatch.specs.declared.kinds.Kinds.TheVariants.{Queries};
ghost use Rattle.judged_dispatch.specs.Judged.{judged};
ghost use Rattle.judged_dispatch.specs.Told.{accepted_by};
ghost use Rattle.gate_machine.specs.Machine as machine;

use crate::answer::write_body;
use crate::line::{push_fetch, push_refused, push_reply};
use crate::reading::read_query;
use frame_reading::{Dispatch, Frame, FrameError, frame_of, read_json};
use gate_machine::{OpenOperation, Write};
use gql_model::Document;
use gql_value::Value;
use judged_dispatch::{Judged, Kinds, Service, judge, table_of};
use machine_model::Refusal;
use plain_queries::{SelectionSet, plain_query, sent_text};
use std::alloc::Global;
use std::marker::Model;
use text_types::{Bytes, Items, Memory, Text};

/// What documents are judged under, the operations that wait for their responses, and the present
/// results of all that were sent.
#[derive(Drop)]
pub struct Gate {
    service: Service,
    waiting: Vec<OpenOperation>,
    history: Vec<Items<Write>>,
}

impl Model for Gate {
    ghost use Rattle.std.specs.Coded.{codes};
    ghost use Rattle.gate_machine.specs.Machine.{GatewayState};
    ghost use Rattle.plain_queries.specs.contracts.selection.Selection as selection;
    ghost use Rattle.gql_value.specs.contracts.value.Value as value;

    ghost Value = { GatewayState };

    ghost use Rattle.gql_model.specs.contracts.type_ref.TypeRef as type_ref;
    ghost use Rattle.gql_model.specs.contracts.literal.Literal as literal;

    ghost coded = { Prim.hlevel (codes, selection.the_row.coded, value.the_row.coded, type_ref.the_row.coded, literal.the_row.coded) };

    ghost view = { λ gate. record { service = gate.service; waiting = gate.waiting.items; history = gate.history.items } };
}

impl Gate {
    /// A gate that nothing was sent to, for documents of this service.
    pub fn new(alloc: Global, service: Service) -> Gate
        ensures { result ≡ machine.empty_state service }
    {
        Gate {
            service,
            waiting: Vec::new(alloc),
            history: Vec::new(alloc),
        }
    }

    /// Takes a line of input, which has this number, and appends what is written for it. After want
    /// of memory the gate is only to be dropped.
    #[tactic(auto, unfolding(gate_machine::specs::Machine::line_taken))]
    pub fn take_line(
        &mut self,
        alloc: Global,
        number: u64,
        line: &[u8],
        out: &mut Bytes,
    ) -> Result<(), Memory>
        ensures text { OnOk result
            (out.new ≡ out.old ++ (machine.line_taken number line.now self.old).text) }
        ensures state { OnOk result (self.new ≡ (machine.line_taken number line.now self.old).state) }
    {
        match read_json(alloc, line)? {
            None => push_refused(number, &Refusal::E2, out),
            Some(json) => self.take_json(alloc, number, &json, out),
        }
    }

    fn take_json(
        &mut self,
        alloc: Global,
        number: u64,
        json: &serde_json::Value,
        out: &mut Bytes,
    ) -> Result<(), Memory>
        ensures text { OnOk result
            (out.new ≡ out.old ++ (machine.json_taken number self.old (Some (view json.now))).text) }
        ensures state { OnOk result
            (self.new ≡ (machine.json_taken number self.old (Some (view json.now))).state) }
    {
        match frame_of(alloc, json) {
            Ok(frame) => self.take_frame(alloc, number, frame, out),
            Err(FrameError::Refused(refusal)) => push_refused(number, &refusal, out),
            Err(FrameError::Memory) => Err(Memory),
        }
    }

    fn take_frame(
        &mut self,
        alloc: Global,
        number: u64,
        frame: Frame<'_>,
        out: &mut Bytes,
    ) -> Result<(), Memory>
        ensures text { OnOk result (out.new
            ≡ out.old ++ (machine.frame_taken number self.old (Ok (frame_meant frame.entry))).text) }
        ensures state { OnOk result
            (self.new ≡ (machine.frame_taken number self.old (Ok (frame_meant frame.entry))).state) }
    {
        match frame {
            Frame::Dispatch(asked) => self.dispatch(alloc, number, asked, out),
            Frame::Response { fetch, body } => self.respond(alloc, number, fetch, body, out),
        }
    }

    fn dispatch(
        &mut self,
        alloc: Global,
        number: u64,
        asked: Dispatch<'_>,
        out: &mut Bytes,
    ) -> Result<(), Memory>
        ensures text { OnOk result
            (out.new ≡ out.old ++ (machine.dispatched number (dispatch_meant asked.entry) self.old).text) }
        ensures state { OnOk result (self.new ≡ (machine.dispatched number (dispatch_meant asked.entry) self.old).state) }
    {
        if self.is_waiting(asked.id) {
            return push_refused(number, &bad_member(alloc, "do")?, out);
        }
        self.dispatch_new(alloc, number, asked, out)
    }

    /// Judges a dispatch whose id doesn't wait.
    fn dispatch_new(
        &mut self,
        alloc: Global,
        number: u64,
        asked: Dispatch<'_>,
        out: &mut Bytes,
    ) -> Result<(), Memory>
        ensures text { OnOk result
            (out.new ≡ out.old ++ (machine.dispatch_judged number (dispatch_meant asked.entry) self.old).text) }
        ensures state { OnOk result
            (self.new ≡ (machine.dispatch_judged number (dispatch_meant asked.entry) self.old).state) }
    {
        let id = asked.id;
        match self.judge_dispatch(alloc, asked) {
            Ok(judged) => self.dispatch_document(alloc, number, id, &judged.checked.document, out),
            Err(FrameError::Refused(refusal)) => push_refused(number, &refusal, out),
            Err(FrameError::Memory) => Err(Memory),
        }
    }

    /// The operation that a dispatch asks for, or the first refusal.
    fn judge_dispatch(&self, alloc: Global, asked: Dispatch<'_>) -> Result<Judged, FrameError>
        ensures accepted { IfOk result (λ operation. judged Queries self.now.service asked.entry.query.now asked.entry.operation (tabled asked.entry.variables) ≡ Ok (accepted_by operation)) }
        ensures refused { IfErr result (IsFrameError (judged Queries self.now.service asked.entry.query.now asked.entry.operation (tabled asked.entry.variables))) }
    {
        let Dispatch {
            query,
            operation,
            variables,
            ..
        } = asked;
        let values = table_of(alloc, variables)?;
        let name = operation.as_ref();
        judge(alloc, &self.service, Kinds::Queries, query, name, &values)
    }

    fn dispatch_document(
        &mut self,
        alloc: Global,
        number: u64,
        id: u64,
        document: &Document,
        out: &mut Bytes,
    ) -> Result<(), Memory>
        ensures text { OnOk result (out.new ≡ out.old
            ++ (machine.query_dispatched number id self.old (plain_query_of document.now)).text) }
        ensures state { OnOk result (self.new
            ≡ (machine.query_dispatched number id self.old (plain_query_of document.now)).state) }
    {
        match plain_query(alloc, document)? {
            Some(query) => self.answer_or_send(alloc, id, query, out),
            None => push_refused(number, &bad_member(alloc, "query")?, out),
        }
    }

    fn is_waiting(&self, id: u64) -> bool
        ensures { result ≡ machine.is_waiting id self.now }
    {
        self.waiting.iter().any(|operation| operation.id == id)
    }

    fn answer_or_send(
        &mut self,
        alloc: Global,
        id: u64,
        query: SelectionSet,
        out: &mut Bytes,
    ) -> Result<(), Memory>
        ensures text { OnOk result (out.new
            ≡ out.old ++ (machine.query_taken id query self.old).text) }
        ensures state { OnOk result (self.new ≡ (machine.query_taken id query self.old).state) }
    {
        match read_query(alloc, self.history.as_slice(), &query)? {
            Some(answer) => push_reply(id, &answer, out),
            None => self.send(alloc, id, query, out),
        }
    }

    fn send(
        &mut self,
        alloc: Global,
        id: u64,
        query: SelectionSet,
        out: &mut Bytes,
    ) -> Result<(), Memory>
        ensures text { OnOk result
            (out.new ≡ out.old ++ (machine.sent id query self.old).text) }
        ensures state { OnOk result (self.new ≡ (machine.sent id query self.old).state) }
    {
        let fetch = self.history.len() as u64 + 1;
        push_fetch(fetch, &sent_text(alloc, &query)?, out)?;
        self.history.push(Items::new(alloc))?;
        self.waiting.push(OpenOperation { id, fetch, query })?;
        Ok(())
    }

    fn respond(
        &mut self,
        alloc: Global,
        number: u64,
        fetch: u64,
        body: &serde_json::Value,
        out: &mut Bytes,
    ) -> Result<(), Memory>
        ensures text { OnOk result
            (out.new ≡ out.old ++ (machine.responded number fetch (view body.now) self.old).text) }
        ensures state { OnOk result
            (self.new ≡ (machine.responded number fetch (view body.now) self.old).state) }
    {
        let Some(operation) = waiting_under(fetch, self.waiting.as_slice()) else {
            return push_refused(number, &bad_member(alloc, "do")?, out);
        };
        match write_body(alloc, &operation.query, body)? {
            None => return push_refused(number, &bad_member(alloc, "do")?, out),
            Some(writes) => complete(alloc, operation, writes, &mut self.history, out)?,
        }
        let ended = operation.fetch;
        forget(ended, &mut self.waiting);
        Ok(())
    }
}

/// The operation that was sent under this number.
fn waiting_under(fetch: u64, waiting: &[OpenOperation]) -> Option<&OpenOperation>
    ensures { option_copied result ≡ find (λ operation. operation.fetch == fetch) waiting.now }
{
    waiting.iter().find(|operation| operation.fetch == fetch)
}

/// Makes the writes the operation's present result, and tells it what it reads now.
fn complete(
    alloc: Global,
    operation: &OpenOperation,
    writes: Items<Write>,
    history: &mut Vec<Items<Write>>,
    out: &mut Bytes,
) -> Result<(), Memory>
    ensures text { OnOk result (out.new
        ≡ out.old ++ machine.completion_text operation.now (machine.completed_history operation.now writes history.old.items)) }
    ensures state { OnOk result
        (history.new.items ≡ machine.completed_history operation.now writes history.old.items) }
{
    replace(history, operation.fetch.saturating_sub(1), writes);
    let answer = read_query(alloc, history.as_slice(), &operation.query)?;
    push_reply(operation.id, &answer.unwrap_or(Value::Null), out)
}

/// Puts the writes in their place. Takes no memory.
fn replace(history: &mut Vec<Items<Write>>, place: u64, writes: Items<Write>)
    ensures { history.new.items ≡ slice_set history.old.items place writes }
{
    if place < history.len() as u64 {
        history[place as usize] = writes;
    }
}

/// Ends the operation that was sent under this number. Takes no memory.
fn forget(fetch: u64, waiting: &mut Vec<OpenOperation>)
    ensures { waiting.new.items ≡ filter (λ other. not (other.fetch == fetch)) waiting.old.items }
{
    waiting.retain(|other| other.fetch != fetch);
}

/// The refusal that names a member.
fn bad_member(alloc: Global, name: &str) -> Result<Refusal, Memory>
    ensures { IfOk result (λ refusal. refusal ≡ E3 name.now) }
{
    let member = Text::from_str(alloc, name)?;
    Ok(Refusal::E3 { member })
}
