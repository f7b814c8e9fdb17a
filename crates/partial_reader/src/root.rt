ghost use Rattle.std.specs.Prelude.{◌≡◌, ◌+◌, ◌≤◌, IfOk, OnOk, OnErr, length, map, Some};
ghost use Rattle.std.specs.Option.{option_and_then, option_copied};
ghost use Rattle.execution_model.specs.Asked.{root_type};
ghost use Rattle.execution_model.specs.Collection as collection;
ghost use Rattle.answer_model.specs.Types.{with_name};
ghost use Rattle.answer_model.specs.Reading as spec;
ghost use Rattle.answer_parts.specs.Types.{option_type};
ghost use Rattle.checked_operation.specs.Acceptance.{IsWhole, execution_of};
ghost use Rattle.field_asking.specs.Asking.{executed};
ghost use Rattle.partial_reader.specs.Walks.{IsReady, after_all, looks, no_fields, object_of, root_positions, told, with_positions};

use crate::object::Object;
use crate::reader::Reader;
use crate::trail::Trail;
use answer_model::Reading;
use answer_parts::{ObjectType, with_name};
use cache_model::Visited;
use checked_operation::Checked;
use entity_keys::{Lookup, Steps, root_key};
use field_asking::Asking;
use gql_coercion::Inputs;
use gql_value::Value;
use schema_model::Table;
use std::alloc::Global;
use std::sync::ledger::Ledger;
use text_types::Memory;

/// What the client's own selection reads in a map of cells, with the places of the cells that were looked
/// at, in order. Each of them is one step.
pub fn read<C: Lookup, L: Ledger>(
    alloc: Global,
    inputs: Inputs<'_>,
    operation: &Checked,
    variables: &Table<Value>,
    cells: &C,
    steps: &mut Steps<L>,
) -> Result<(Reading, Visited), Memory>
    requires { IsWhole operation.now }
    ensures reading { IfOk result (λ read. read ≡ spec.read_from (execution_of inputs.entry.schema.now inputs.entry.defaults.now variables.now operation.now) (C.cells cells.now)) }
    ensures counted { IfOk result (λ read. steps.new ≡ steps.old + length read.1) }
    ensures bounded { OnErr result (steps.new ≤ steps.old + length (spec.read_from (execution_of inputs.entry.schema.now inputs.entry.defaults.now variables.now operation.now) (C.cells cells.now)).1) }
{
    let asking = Asking::new(alloc, inputs, operation, variables, &[])?;
    let reader = Reader {
        alloc,
        asking: &asking,
        cells,
    };
    reader.read(steps)
}

/// How deep sets nest in a checked document, spreads followed.
#[tactic(auto, unfolding(execution_model::specs::Collection::deepest))]
pub(crate) fn deepest() -> u64
    ensures { result ≡ collection.deepest }
{
    64
}

impl<'a, C: Lookup> Reader<'a, C> {
    fn read<L: Ledger>(&self, steps: &mut Steps<L>) -> Result<(Reading, Visited), Memory>
        requires { IsReady self.now.asking.now }
        ensures reading { IfOk result (λ read. read ≡ spec.read_from (executed self.now.asking.now) (C.cells self.now.cells.now)) }
        ensures counted { OnOk result (steps.new ≡ steps.old + length (spec.read_from (executed self.now.asking.now) (C.cells self.now.cells.now)).1) }
        ensures bounded { OnErr result (steps.new ≤ steps.old + length (spec.read_from (executed self.now.asking.now) (C.cells self.now.cells.now)).1) }
    {
        match self.root_type() {
            Some(of) => self.read_root(of, steps),
            None => Ok((Reading::Miss, Visited::new(self.alloc))),
        }
    }

    fn root_type(&self) -> Option<ObjectType<'_>>
        requires { IsReady self.now.asking.now }
        ensures { option_type result ≡ option_and_then (with_name self.now.asking.now.inputs.schema.now) (root_type (executed self.now.asking.now)) }
    {
        let asking = self.asking;
        match asking.root_type() {
            Some(id) => with_name(asking.inputs.schema, id),
            None => None,
        }
    }

    #[tactic(auto, using(crate::proofs::FoundLaws::told_all, crate::proofs::FoundLaws::visited_all, crate::proofs::FoundLaws::object_looks))]
    fn read_root<L: Ledger>(
        &self,
        of: ObjectType<'_>,
        steps: &mut Steps<L>,
    ) -> Result<(Reading, Visited), Memory>
        requires { IsReady self.now.asking.now }
        ensures reading { IfOk result (λ read. read ≡ spec.read_root (executed self.now.asking.now) (C.cells self.now.cells.now) (of.entry.0, of.entry.1.now)) }
        ensures counted { OnOk result (steps.new ≡ steps.old + length (spec.read_root (executed self.now.asking.now) (C.cells self.now.cells.now) (of.entry.0, of.entry.1.now)).1) }
        ensures bounded { OnErr result (steps.new ≤ steps.old + length (spec.read_root (executed self.now.asking.now) (C.cells self.now.cells.now) (of.entry.0, of.entry.1.now)).1) }
    {
        let mut trail = Trail::new(self.alloc);
        let object = self.root_object(of, &mut trail, steps)?;
        Ok((told(object, trail.partial), trail.visited))
    }

    fn root_object<L: Ledger>(
        &self,
        of: ObjectType<'_>,
        trail: &mut Trail,
        steps: &mut Steps<L>,
    ) -> Result<Object, Memory>
        requires { IsReady self.now.asking.now }
        ensures object { IfOk result (λ object. object ≡ with_positions no_fields (root_positions (executed self.now.asking.now) (C.cells self.now.cells.now) (of.entry.0, of.entry.1.now))) }
        ensures trail { OnOk result (trail.new ≡ after_all trail.old (map spec.member_found (root_positions (executed self.now.asking.now) (C.cells self.now.cells.now) (of.entry.0, of.entry.1.now)))) }
        ensures counted { OnOk result (steps.new ≡ steps.old + looks (map spec.member_found (root_positions (executed self.now.asking.now) (C.cells self.now.cells.now) (of.entry.0, of.entry.1.now)))) }
        ensures bounded { OnErr result (steps.new ≤ steps.old + looks (map spec.member_found (root_positions (executed self.now.asking.now) (C.cells self.now.cells.now) (of.entry.0, of.entry.1.now)))) }
    {
        let entity = root_key(of.1)?;
        let sets = self.asking.root_sets();
        self.object(deepest(), sets, of, &entity, trail, steps)
    }
}

/// A miss where the root is absent, and where something is absent and the root has nothing in it.
fn told(object: Object, partial: bool) -> Reading
    ensures { result ≡ told (object_of object) object.something partial }
{
    let something = object.something;
    match object.into_value() {
        Some(value) => told_value(value, something, partial),
        None => Reading::Miss,
    }
}

fn told_value(value: Value, something: bool, partial: bool) -> Reading
    ensures { result ≡ told (Some value) something partial }
{
    if !partial {
        Reading::Hit(value)
    } else if something {
        Reading::Partial(value)
    } else {
        Reading::Miss
    }
}
