ghost use Rattle.std.specs.Prelude.{◌≡◌, IfOk};
ghost use Rattle.digraph.specs.Clear.{leads_to_marked, marked_more, IsClear};

use crate::graph::Digraph;
use crate::marks::{is_set_or_absent, unmarked};
use std::alloc::Global;
use text_types::Memory;

impl Digraph {
    /// Marks nodes that are on no circle: all those from which no walk leads to a circle.
    pub(crate) fn clear(&self, alloc: Global) -> Result<Vec<bool>, Memory>
        ensures { IfOk result (λ marks. IsClear self.now marks.items) }
    {
        let order = self.leaves_first(alloc)?;
        let mut marks = unmarked(alloc, self.len())?;
        'order: for node in &order {
            self.mark_clear(&mut marks, *node);
        }
        Ok(marks)
    }

    fn mark_clear(&self, marks: &mut Vec<bool>, node: usize)
        ensures { marks.new.items ≡ marked_more self.now marks.old.items node }
    {
        if self.leads_to_marked(marks.as_slice(), node) && node < marks.len() {
            marks[node] = true;
        }
    }

    fn leads_to_marked(&self, marks: &[bool], node: usize) -> bool
        ensures { result ≡ leads_to_marked self.now marks.now node }
    {
        self.successors(node)
            .iter()
            .all(|next| is_set_or_absent(marks, *next))
    }
}
