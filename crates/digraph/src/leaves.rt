use crate::graph::Digraph;
use std::alloc::Global;
use text_types::Memory;

/// For each node the nodes that lead to it, and the number of its successors that have no place in the
/// order yet.
#[derive(Drop)]
struct Waiting {
    predecessors: Vec<Vec<usize>>,
    counts: Vec<usize>,
}

impl Waiting {
    fn new(alloc: Global, graph: &Digraph) -> Result<Waiting, Memory> {
        let mut waiting = Waiting {
            predecessors: Vec::new(alloc),
            counts: vec![in alloc; 0; graph.len()]?,
        };
        for _ in 0..graph.len() {
            waiting.predecessors.push(Vec::new(alloc))?;
        }
        for node in 0..graph.len() {
            waiting.add(node, graph.successors(node))?;
        }
        Ok(waiting)
    }

    fn add(&mut self, node: usize, successors: &[usize]) -> Result<(), Memory> {
        for successor in successors {
            if let Some(predecessors) = self.predecessors.get_mut(*successor) {
                predecessors.push(node)?;
                if let Some(count) = self.counts.get_mut(node) {
                    *count = count.saturating_add(1);
                }
            }
        }
        Ok(())
    }

    /// Adds to the order each node whose last successor is this one.
    fn place(&mut self, node: usize, order: &mut Vec<usize>) -> Result<(), Memory> {
        let Some(predecessors) = self.predecessors.get(node) else {
            return Ok(());
        };
        for predecessor in predecessors {
            if let Some(count) = self.counts.get_mut(*predecessor) {
                *count = count.saturating_sub(1);
                if *count == 0 {
                    order.push(*predecessor)?;
                }
            }
        }
        Ok(())
    }
}

impl Digraph {
    /// Nodes in an order in which each stands behind its successors, as far as there is one (A. B. Kahn,
    /// Topological Sorting of Large Networks, 1962). Nothing but speed rests on the order.
    pub(crate) fn leaves_first(&self, alloc: Global) -> Result<Vec<usize>, Memory> {
        let mut waiting = Waiting::new(alloc, self)?;
        let mut order = Vec::new(alloc);
        for node in 0..self.len() {
            if waiting.counts.get(node) == Some(&0) {
                order.push(node)?;
            }
        }
        for at in 0..self.len() {
            if let Some(node) = order.get(at).copied() {
                waiting.place(node, &mut order)?;
            }
        }
        Ok(order)
    }
}
