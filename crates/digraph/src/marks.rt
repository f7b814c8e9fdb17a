ghost use Rattle.std.specs.Prelude.{◌≡◌, true, false, get_or, replicate, IfOk};

use std::alloc::Global;
use text_types::Memory;

/// As many marks as there are nodes, none of which is set.
pub(crate) fn unmarked(alloc: Global, nodes: usize) -> Result<Vec<bool>, Memory>
    ensures { IfOk result (λ marks. marks.items ≡ replicate nodes false) }
{
    Ok(vec![in alloc; false; nodes]?)
}

/// Whether a node is marked; what is no node isn't.
pub(crate) fn is_set(marks: &[bool], node: usize) -> bool
    ensures { result ≡ get_or marks.now node false }
{
    match marks.get(node) {
        Some(mark) => *mark,
        None => false,
    }
}

/// Whether a node is marked, or is no node.
pub(crate) fn is_set_or_absent(marks: &[bool], node: usize) -> bool
    ensures { result ≡ get_or marks.now node true }
{
    match marks.get(node) {
        Some(mark) => *mark,
        None => true,
    }
}
