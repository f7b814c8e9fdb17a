ghost use Rattle.std.specs.Prelude.{◌≡◌};
ghost use Rattle.std.specs.List.{list_all};
ghost use Rattle.cache_model.specs.declared.cell.Link.{out-Link};
ghost use Rattle.answer_model.specs.Reading as spec;

use cache_model::Link;
use gql_model::TypeRef;

/// Whether a link has the shape of a type, with nulls at nullable types alone.
#[cycle(shape)]
pub fn has_shape(wanted: &TypeRef, link: &Link) -> bool
    ensures { result ≡ spec.has_shape wanted.now link.now }
{
    match wanted {
        TypeRef::Named { non_null, .. } => has_named_shape(*non_null, link),
        TypeRef::List { of, non_null } => has_list_shape(of.get(), *non_null, link),
    }
}

fn has_named_shape(required: bool, link: &Link) -> bool
    ensures { result ≡ spec.has_named_shape required (out-Link link.now) }
{
    match link {
        Link::Null => !required,
        Link::Entity(_) => true,
        Link::List(_) => false,
    }
}

#[cycle(shape)]
fn has_list_shape(item: &TypeRef, required: bool, link: &Link) -> bool
    ensures { result ≡ spec.has_list_shape (spec.has_shape item.now) required (out-Link link.now) }
{
    match link {
        Link::Null => !required,
        Link::Entity(_) => false,
        Link::List(links) => all_have_shape(item, links.as_slice()),
    }
}

#[cycle(shape)]
fn all_have_shape(wanted: &TypeRef, links: &[Link]) -> bool
    ensures { result ≡ list_all (spec.has_shape wanted.now) links.now }
{
    'links: for link in links {
        if !has_shape(wanted, link) {
            return false;
        }
    }
    true
}
