ghost use Rattle.std.specs.Prelude.{◌≡◌, [], ◌∷◌, ◌++◌, IfOk, IfErr};
ghost use Rattle.std.specs.Option.{option_and_then};
ghost use Rattle.std.specs.declared.result.Result.TheVariants.{Ok, Err};
ghost use Rattle.gql_value.specs.declared.value.Value.{out-Value};
ghost use Rattle.execution_model.specs.Collection.{deepest};
ghost use Rattle.execution_model.specs.Asked.{root_type};
ghost use Rattle.answer_model.specs.Types as types_spec;
ghost use Rattle.answer_model.specs.Writing as spec;
ghost use Rattle.answer_parts.specs.Types.{option_type};
ghost use Rattle.field_asking.specs.Asking.{executed};
ghost use Rattle.result_writer.specs.Results.{Tells, TellsError, told, told_behind};
ghost use Rattle.result_writer.specs.Views.{IsAsSent, answered_of, found_of};
ghost use Rattle.result_writer.specs.Roots.{root_found};

use crate::error::WriteError;
use crate::object::Object;
use crate::writer::Writer;
use answer_parts::{MemberIndex, ObjectType, error_paths, path_text, with_name};
use cache_model::Writes;
use entity_keys::{KeyRules, root_key};
use field_asking::Asking;
use gql_model::OperationKind;
use gql_value::{Members, Value};
use std::alloc::Global;
use text_types::Memory;

/// The writes of an answer with these errors, or the first place of it that doesn't fit, depth first. A null
/// answer writes nothing. The operation is asked as it is sent.
pub fn writes_of<'a>(
    alloc: Global,
    asking: &'a Asking<'a>,
    keys: &'a KeyRules,
    answer: &'a Value,
    errors: &'a Value,
) -> Result<Writes, WriteError>
    requires { IsAsSent asking.now }
    ensures written { IfOk result (λ writes. spec.written (executed asking.now) keys.now answer.now errors.now ≡ Ok writes) }
    ensures misfit { IfErr result (TellsError (told (spec.written (executed asking.now) keys.now answer.now errors.now))) }
{
    let errors = error_paths(alloc, errors)?;
    let writer = Writer {
        alloc,
        asking,
        keys,
        errors: errors.as_slice(),
    };
    writer.write_data(answer)
}

/// How deep objects nest in a checked operation.
#[tactic(auto, unfolding(execution_model::specs::Collection::deepest))]
fn deepest() -> u64
    ensures { result ≡ deepest }
{
    64
}

impl<'a> Writer<'a> {
    fn write_data(&self, answer: &'a Value) -> Result<Writes, WriteError>
        requires { IsAsSent self.now.asking.now }
        ensures { Tells result (told_behind [] (spec.data_written (answered_of self.now) (out-Value answer.now))) }
    {
        match answer {
            Value::Null => Ok(Writes::new(self.alloc)),
            Value::Obj(members) => self.write_root_members(members),
            _ => self.refuse_answer(),
        }
    }

    fn write_root_members(&self, members: &'a Members) -> Result<Writes, WriteError>
        requires { IsAsSent self.now.asking.now }
        ensures { Tells result (told_behind [] (spec.root_members_written (answered_of self.now) members.now)) }
    {
        match self.root_type() {
            Some(named) => self.write_root(named, members),
            None => self.refuse_answer(),
        }
    }

    fn root_type(&self) -> Option<ObjectType<'a>>
        requires { IsAsSent self.now.asking.now }
        ensures { option_type result ≡ option_and_then (types_spec.with_name (answered_of self.now).execution.schema) (root_type (answered_of self.now).execution) }
    {
        match self.asking.root_type() {
            Some(id) => with_name(self.schema(), id),
            None => None,
        }
    }

    fn write_root(&self, named: ObjectType<'a>, members: &'a Members) -> Result<Writes, WriteError>
        requires { IsAsSent self.now.asking.now }
        ensures { Tells result (told_behind [] (spec.root_written (answered_of self.now) members.now (named.entry.0, named.entry.1.now))) }
    {
        let object = self.root_object(named, members)?;
        self.write_fields(deepest(), &object, Writes::new(self.alloc))
    }

    fn root_object(&self, named: ObjectType<'a>, members: &'a Members) -> Result<Object<'a>, Memory>
        requires { IsAsSent self.now.asking.now }
        ensures { IfOk result (λ object. found_of object ≡ root_found (answered_of self.now) members.now (named.entry.0, named.entry.1.now)) }
    {
        Ok(Object {
            named,
            entity: root_key(named.1)?,
            members: MemberIndex::new(self.alloc, members)?,
            path: Vec::new(self.alloc),
            keeps: keeps_root(self.asking.kind()),
            fields: self
                .asking
                .fields(self.alloc, named.0, self.asking.root_sets())?,
        })
    }

    /// Refuses an answer that is no object.
    fn refuse_answer(&self) -> Result<Writes, WriteError>
        ensures { Tells result (told_behind [] (Err [])) }
    {
        Err(WriteError::Shape {
            path: path_text(self.alloc, &[])?,
        })
    }
}

/// Whether the root fields of an operation have cells of their own.
fn keeps_root(kind: OperationKind) -> bool
    ensures { result ≡ spec.keeps_root kind }
{
    match kind {
        OperationKind::Query => true,
        OperationKind::Mutation => false,
        OperationKind::Subscription => false,
    }
}
