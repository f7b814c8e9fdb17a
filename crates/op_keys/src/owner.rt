/// What a selection set belongs to.
#[derive(Clone, Copy)]
pub(crate) enum Owner {
    Operation,
    Field,
    Fragment,
}
