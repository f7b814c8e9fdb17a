ghost use Rattle.std.specs.Prelude.{◌≡◌, IfOk};
ghost use Rattle.gql_value.specs.declared.value.Value.{out-Value};
ghost use Rattle.execution_model.specs.Values.{object_value};
ghost use Rattle.execution_model.specs.Collection.{deepest};
ghost use Rattle.execution_model.specs.Asked.{root_sets};
ghost use Rattle.answer_model.specs.Projection as spec;
ghost use Rattle.checked_operation.specs.Acceptance.{IsWhole, execution_of};
ghost use Rattle.field_asking.specs.Asking.{executed};
ghost use Rattle.partial_reader.specs.Walks.{IsReady};

use crate::cutting::Cutter;
use crate::root::deepest;
use checked_operation::Checked;
use field_asking::Asking;
use gql_coercion::Inputs;
use gql_value::{Members, Value};
use schema_model::{Table, TypeId};
use std::alloc::Global;
use text_types::Memory;

/// The answer cut to the client's own selection: what was asked, in the order of asking, with the values
/// as they came.
pub fn project(
    alloc: Global,
    inputs: Inputs<'_>,
    operation: &Checked,
    variables: &Table<Value>,
    answer: &Value,
) -> Result<Value, Memory>
    requires { IsWhole operation.now }
    ensures { IfOk result (λ cut. cut ≡ spec.projected (execution_of inputs.entry.schema.now inputs.entry.defaults.now variables.now operation.now) answer.now) }
{
    let asking = Asking::new(alloc, inputs, operation, variables, &[])?;
    let cutter = Cutter {
        alloc,
        asking: &asking,
    };
    cutter.answer(answer)
}

impl<'a> Cutter<'a> {
    fn answer(&self, answer: &Value) -> Result<Value, Memory>
        requires { IsReady self.now.asking.now }
        ensures { IfOk result (λ cut. cut ≡ spec.projected (executed self.now.asking.now) answer.now) }
    {
        match self.asking.root_type() {
            Some(root) => self.data(root, answer),
            None => answer.copy(self.alloc),
        }
    }

    fn data(&self, root: TypeId, answer: &Value) -> Result<Value, Memory>
        requires { IsReady self.now.asking.now }
        ensures { IfOk result (λ cut. cut ≡ spec.data_cut (executed self.now.asking.now) answer.now (out-Value answer.now) root) }
    {
        match answer {
            Value::Obj(members) => self.root(root, members),
            _ => answer.copy(self.alloc),
        }
    }

    fn root(&self, root: TypeId, members: &Members) -> Result<Value, Memory>
        requires { IsReady self.now.asking.now }
        ensures { IfOk result (λ cut. cut ≡ object_value (spec.cut_within deepest (executed self.now.asking.now) (root_sets (executed self.now.asking.now)) root members.now)) }
    {
        let sets = self.asking.root_sets();
        Ok(Value::Obj(self.members(deepest(), sets, root, members)?))
    }
}
