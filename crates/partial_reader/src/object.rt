ghost use Rattle.std.specs.Prelude.{◌≡◌, ◌||◌, ◌&&◌, not, is_some, IfOk};
ghost use Rattle.partial_reader.specs.Walks.{LacksMember, with_member, no_fields, object_of};

use gql_value::{Members, Value};
use std::alloc::Global;
use text_types::{Memory, Text};

/// The fields of an object that were read so far: its members, unless a field of Non-Null type is absent,
/// and whether a field other than `__typename` isn't absent.
#[derive(Drop)]
pub(crate) struct Object {
    pub(crate) members: Option<Members>,
    pub(crate) something: bool,
}

impl Object {
    pub(crate) fn new(alloc: Global) -> Object
        ensures { result ≡ no_fields }
    {
        Object {
            members: Some(Members::new(alloc)),
            something: false,
        }
    }

    /// One field more.
    pub(crate) fn with(
        self,
        key: &Text,
        value: Option<Value>,
        something: bool,
    ) -> Result<Object, Memory>
        requires { LacksMember self.members key.now }
        ensures { IfOk result (λ object. object ≡ record { members = with_member self.members key.now value; something = self.something || something }) }
    {
        Ok(Object {
            members: with_member(self.members, key, value)?,
            something: self.something || something,
        })
    }

    /// The value of the object, where no field of Non-Null type is absent.
    pub(crate) fn into_value(self) -> Option<Value>
        ensures { result ≡ object_of self }
    {
        match self.members {
            Some(members) => Some(Value::Obj(members)),
            None => None,
        }
    }
}

fn with_member(
    members: Option<Members>,
    key: &Text,
    value: Option<Value>,
) -> Result<Option<Members>, Memory>
    requires { LacksMember members key.now }
    ensures { IfOk result (λ more. more ≡ with_member members key.now value) }
{
    match (members, value) {
        (Some(mut members), Some(value)) => {
            members.push(key.copy()?, value)?;
            Ok(Some(members))
        }
        _ => Ok(None),
    }
}
