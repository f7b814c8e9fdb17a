ghost use Rattle.std.specs.Prelude.{◌≡◌, Some, IfOk};
ghost use Rattle.std.specs.Option.{option_or};
ghost use Rattle.gql_schema.specs.Meaning.{no_roots, with_root, roots_of, default_root, default_roots};

use gql_model::{Name, OperationKind, RootOperation};
use schema_model::{RootName, RootNames, SchemaType, Table};
use std::alloc::Global;
use text_types::{Items, Memory, Text};

/// The roots that `schema` names, unless another `schema` named them before.
pub(crate) fn stated_roots(
    before: Option<RootNames>,
    roots: Items<RootOperation>,
) -> Option<RootNames>
    ensures { result ≡ option_or before (Some (roots_of roots)) }
{
    match before {
        Some(names) => Some(names),
        None => Some(named_roots(roots)),
    }
}

fn named_roots(roots: Items<RootOperation>) -> RootNames
    ensures { result ≡ roots_of roots }
{
    let mut names = RootNames {
        query: None,
        mutation: None,
        subscription: None,
    };
    'roots: for root in roots.into_vec() {
        let kind = root.kind;
        let Name { place, text } = root.named;
        let line = place.row;
        names = with_root(names, kind, RootName { line, text });
    }
    names
}

fn with_root(names: RootNames, kind: OperationKind, name: RootName) -> RootNames
    ensures { result ≡ with_root names kind name }
{
    let RootNames {
        query,
        mutation,
        subscription,
    } = names;
    match kind {
        OperationKind::Query => RootNames {
            query: query.or(Some(name)),
            mutation,
            subscription,
        },
        OperationKind::Mutation => RootNames {
            query,
            mutation: mutation.or(Some(name)),
            subscription,
        },
        OperationKind::Subscription => RootNames {
            query,
            mutation,
            subscription: subscription.or(Some(name)),
        },
    }
}

/// The roots where there is no `schema`.
pub(crate) fn default_roots(alloc: Global, types: &Table<SchemaType>) -> Result<RootNames, Memory>
    ensures { IfOk result (λ roots. roots ≡ default_roots types.now) }
{
    Ok(RootNames {
        query: default_root(alloc, types, "Query")?,
        mutation: default_root(alloc, types, "Mutation")?,
        subscription: default_root(alloc, types, "Subscription")?,
    })
}

fn default_root(
    alloc: Global,
    types: &Table<SchemaType>,
    name: &str,
) -> Result<Option<RootName>, Memory>
    ensures { IfOk result (λ root. root ≡ default_root types.now name.now) }
{
    let text = Text::from_str(alloc, name)?;
    match types.get(&text) {
        Some(found) => Ok(Some(RootName {
            line: found.line,
            text,
        })),
        None => Ok(None),
    }
}
