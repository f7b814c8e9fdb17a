ghost use Rattle.std.specs.Prelude.{◌≡◌, IsTrue, ◌↔◌};

use crate::cell::{Link, Links};

#[cycle(same)]
pub(crate) fn same_link(a: &Link, b: &Link) -> bool
    ensures { IsTrue result ↔ (a.now ≡ b.now) }
{
    match (a, b) {
        (Link::Null, Link::Null) => true,
        (Link::Entity(a), Link::Entity(b)) => a.same(b),
        (Link::List(a), Link::List(b)) => same_links(a, b),
        _ => false,
    }
}

#[cycle(same)]
fn same_links(a: &Links, b: &Links) -> bool
    ensures { IsTrue result ↔ (a.now ≡ b.now) }
{
    let (a, b) = (a.as_slice(), b.as_slice());
    if a.len() != b.len() {
        return false;
    }
    for i in 0..a.len() {
        if !same_link(&a[i], &b[i]) {
            return false;
        }
    }
    true
}
