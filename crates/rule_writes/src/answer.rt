ghost use Rattle.std.specs.Prelude.{◌≡◌, IfOk};
ghost use Rattle.std.specs.Option.{option_copied, option_map, option_and_then};
ghost use Rattle.gql_value.specs.declared.value.Value.{out-Value};
ghost use Rattle.schema_model.specs.Tables.{entry};
ghost use Rattle.answer_model.specs.Paths.{members_in};

use answer_parts::MemberIndex;
use gql_value::Value;
use std::alloc::Global;
use text_types::{Memory, Text};

/// The data of an answer, with its members, where it is an object.
#[derive(Drop)]
pub(crate) struct Answer<'a> {
    pub(crate) value: &'a Value,
    members: Option<MemberIndex<'a>>,
    ghost indexed: { option_map (λ index. index.members.now) members ≡ members_in (out-Value value.now) },
}

impl<'a> Answer<'a> {
    pub(crate) fn new(alloc: Global, value: &'a Value) -> Result<Answer<'a>, Memory>
        ensures { IfOk result (λ answer. answer.value.now ≡ value.now) }
    {
        let members = members_found(alloc, value)?;
        Ok(Answer { value, members })
    }

    /// The member of a name.
    pub(crate) fn member(&self, name: &Text) -> Option<&'a Value>
        ensures { option_copied result ≡ option_and_then (λ members. entry members name.now) (members_in (out-Value self.now.value.now)) }
    {
        match &self.members {
            Some(members) => members.get(name),
            None => None,
        }
    }
}

fn members_found<'a>(alloc: Global, value: &'a Value) -> Result<Option<MemberIndex<'a>>, Memory>
    ensures { IfOk result (λ found. option_map (λ index. index.members.now) found ≡ members_in (out-Value value.now)) }
{
    match value {
        Value::Obj(members) => Ok(Some(MemberIndex::new(alloc, members)?)),
        _ => Ok(None),
    }
}
