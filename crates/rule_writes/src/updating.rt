use crate::scope::Scope;
use field_asking::Asking;
use std::alloc::Global;

/// Where the updaters of a root field run: in an operation, with what their terms name.
#[derive(Drop)]
pub(crate) struct Updating<'v> {
    pub(crate) alloc: Global,
    pub(crate) asking: &'v Asking<'v>,
    pub(crate) scope: Scope<'v>,
}
