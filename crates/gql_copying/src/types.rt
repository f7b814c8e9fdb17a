//! Types.

ghost use Rattle.std.specs.Prelude.{◌≡◌, IfOk};

use crate::copy_in::CopyIn;
use gql_model::{TypeNode, TypeRef};
use sqlite_items::Boxed;
use std::alloc::Global;
use text_types::Memory;

impl CopyIn for TypeNode {
    fn copy_in(&self, alloc: Global) -> Result<TypeNode, Memory> {
        Ok(TypeNode {
            place: self.place,
            type_ref: copy_type(alloc, &self.type_ref)?,
        })
    }
}

fn copy_type(alloc: Global, type_ref: &TypeRef) -> Result<TypeRef, Memory>
    ensures { IfOk result (λ copy. copy ≡ type_ref.now) }
{
    match type_ref {
        TypeRef::Named { named, non_null } => Ok(TypeRef::Named {
            named: named.copy()?,
            non_null: *non_null,
        }),
        TypeRef::List { of, non_null } => Ok(TypeRef::List {
            of: Boxed::new(alloc, copy_type(alloc, of.get())?)?,
            non_null: *non_null,
        }),
    }
}
