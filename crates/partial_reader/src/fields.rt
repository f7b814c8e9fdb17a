ghost use Rattle.std.specs.Prelude.{◌≡◌, IfOk, map};
ghost use Rattle.execution_model.specs.Asked.{asked_by_client};
ghost use Rattle.field_asking.specs.Asking.{HasOwnKeys, executed, asked_field};
ghost use Rattle.partial_reader.specs.Walks.{AreLow, IsReady};

use field_asking::{AskedField, Asking};
use schema_model::TypeId;
use std::alloc::Global;
use text_types::Memory;

/// What the client's own selection asks of an object of a type.
pub(crate) fn client_fields<'s>(
    alloc: Global,
    asking: &'s Asking<'_>,
    object: TypeId,
    sets: &[u64],
) -> Result<Vec<AskedField<'s>>, Memory>
    requires { IsReady asking.now }
    ensures fields { IfOk result (λ fields. map asked_field fields.items ≡ asked_by_client (executed asking.now) object sets.now) }
    ensures keys { IfOk result (λ fields. HasOwnKeys fields.items) }
    ensures low { IfOk result (λ fields. AreLow asking.now.inputs.schema.now fields.items) }
{
    let fields = asking.fields(alloc, object, sets)?;
    Ok(fields)
}
