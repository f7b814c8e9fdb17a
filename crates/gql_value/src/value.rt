ghost use Rattle.std.specs.Prelude.{◌≡◌, IfOk, IsTrue, ◌↔◌};

use crate::copying::copy_value;
use crate::equality::same_value;
use std::alloc::Global;
use text_types::{Items, Memory, Named, Text};

/// A JSON value whose numbers are whole.
#[derive(Debug, Drop)]
pub enum Value {
    Null,
    Bool(bool),
    Int(i64),
    Text(Text),
    List(Values),
    Obj(Members),
}

/// Values in order.
pub type Values = Items<Value>;

/// Names with their values, in order. No two have one name.
pub type Members = Named<Value>;

impl Value {
    /// An equal value.
    pub fn copy(&self, alloc: Global) -> Result<Value, Memory>
        ensures { IfOk result (λ v. v ≡ self.now) }
    {
        copy_value(alloc, self)
    }

    /// Whether the two are equal, members in their order. Takes no memory.
    pub fn same(&self, other: &Value) -> bool
        ensures { IsTrue result ↔ (self.now ≡ other.now) }
    {
        same_value(self, other)
    }
}
