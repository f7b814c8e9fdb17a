ghost use Rattle.std.specs.Prelude.{◌≡◌, IfOk};
ghost use Rattle.digraph.specs.Clear.{IsClear};
ghost use Rattle.digraph.specs.Walks.{reaches, circled, has_circle};

use crate::graph::Digraph;
use crate::marks::{is_set, unmarked};
use std::alloc::Global;
use text_types::{Items, Memory};

impl Digraph {
    /// Whether a node reaches itself.
    pub fn is_on_circle(&self, alloc: Global, node: usize) -> Result<bool, Memory>
        ensures { IfOk result (λ circle. circle ≡ reaches self.now node node) }
    {
        let marks = self.reached(alloc, node)?;
        Ok(is_set(marks.as_slice(), node))
    }

    /// Marks each node that reaches itself. Each node from which a walk leads to a circle is searched
    /// from; where there is no circle the time is linear in the graph.
    pub fn circled(&self, alloc: Global) -> Result<Items<bool>, Memory>
        ensures { IfOk result (λ marks. marks ≡ circled self.now) }
    {
        let clear = self.clear(alloc)?;
        let mut marks = Vec::new(alloc);
        'nodes: for node in 0..self.len() {
            marks.push(self.is_circled(alloc, clear.as_slice(), node)?)?;
        }
        Ok(Items::from_vec(marks))
    }

    /// Whether some node reaches itself, in time linear in the graph.
    pub fn has_circle(&self, alloc: Global) -> Result<bool, Memory>
        ensures { IfOk result (λ circle. circle ≡ has_circle self.now) }
    {
        let clear = self.clear(alloc)?;
        let suspect = self.suspect(alloc, clear.as_slice())?;
        if self.is_on_circle(alloc, suspect)? {
            return Ok(true);
        }
        'nodes: for node in 0..self.len() {
            if self.is_circled(alloc, clear.as_slice(), node)? {
                return Ok(true);
            }
        }
        Ok(false)
    }

    /// Whether a node reaches itself, given nodes that are on no circle.
    fn is_circled(&self, alloc: Global, clear: &[bool], node: usize) -> Result<bool, Memory>
        requires { IsClear self.now clear.now }
        ensures { IfOk result (λ circle. circle ≡ reaches self.now node node) }
    {
        if is_set(clear, node) {
            Ok(false)
        } else {
            self.is_on_circle(alloc, node)
        }
    }

    /// A node that is on a circle, where some node isn't marked: the end of a walk over nodes without
    /// a mark. Nothing but speed rests on it.
    fn suspect(&self, alloc: Global, clear: &[bool]) -> Result<usize, Memory> {
        let mut seen = unmarked(alloc, self.len())?;
        let mut node = clear.iter().position(|mark| !*mark).unwrap_or(0);
        for _ in 0..self.len() {
            match seen.get_mut(node) {
                Some(mark) if !*mark => *mark = true,
                _ => return Ok(node),
            }
            node = self.unmarked_successor(clear, node);
        }
        Ok(node)
    }

    fn unmarked_successor(&self, marks: &[bool], node: usize) -> usize {
        for next in self.successors(node) {
            if marks.get(*next) == Some(&false) {
                return *next;
            }
        }
        node
    }
}
