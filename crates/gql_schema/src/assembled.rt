ghost use Rattle.std.specs.Prelude.{◌≡◌, IfOk};
ghost use Rattle.gql_schema.specs.Meaning.{schema_of};
ghost use Rattle.gql_schema.specs.Drafts.{finished};

use crate::draft::Draft;
use crate::roots::default_roots;
use gql_model::TypeSystemForm;
use schema_model::Schema;
use std::alloc::Global;
use text_types::Memory;

/// The schema that definitions make.
pub(crate) fn assembled(alloc: Global, forms: Vec<TypeSystemForm>) -> Result<Schema, Memory>
    ensures { IfOk result (λ schema. schema ≡ schema_of forms.items) }
{
    let mut draft = Draft::new(alloc)?;
    'forms: for form in forms {
        draft = draft.with(alloc, form)?;
    }
    finished(alloc, draft)
}

fn finished(alloc: Global, draft: Draft) -> Result<Schema, Memory>
    ensures { IfOk result (λ schema. schema ≡ finished draft) }
{
    let Draft {
        types,
        directives,
        roots,
    } = draft;
    let roots = match roots {
        Some(roots) => roots,
        None => default_roots(alloc, &types)?,
    };
    Ok(Schema {
        types,
        directives,
        roots,
    })
}
