ghost use Rattle.std.specs.Prelude.{◌≡◌, [], ◌∷◌, ◌++◌, length, OnOk, OnErr};
ghost use Rattle.digraph.specs.Walks.{successors};

use std::alloc::Global;
use std::marker::Model;
use text_types::{Items, Memory};

/// A directed graph, whose nodes are numbered from 0. Contracts see the list of each node's successors.
/// A successor that is no node counts for nothing.
#[derive(Drop)]
pub struct Digraph {
    nodes: Items<Items<usize>>,
}

impl Model for Digraph {
    ghost use Rattle.std.specs.Prelude.{List, ℕ};
    ghost use Rattle.std.specs.Coded.{coded_list, coded_ℕ};

    ghost Value = { List (List ℕ) };

    ghost coded = { coded_list (coded_list coded_ℕ) };

    ghost view = { λ g. g.nodes };
}

impl Digraph {
    /// A graph without nodes.
    pub fn new(alloc: Global) -> Digraph
        ensures { result ≡ [] }
    {
        Digraph {
            nodes: Items::new(alloc),
        }
    }

    /// Adds the next node, with its successors, which may be added later. A refusal changes nothing.
    pub fn push(&mut self, successors: Items<usize>) -> Result<(), Memory>
        ensures ok { OnOk result (self.new ≡ self.old ++ successors ∷ []) }
        ensures err { OnErr result (self.new ≡ self.old) }
    {
        self.nodes.push(successors)
    }

    /// The number of nodes.
    pub fn len(&self) -> usize
        ensures { result ≡ length self.now }
    {
        self.nodes.len()
    }

    /// The nodes that a node leads to in one step: none, where it is no node.
    pub fn successors(&self, node: usize) -> &[usize]
        ensures { result.now ≡ successors self.now node }
    {
        match self.nodes.get(node) {
            Some(successors) => successors.as_slice(),
            None => &[],
        }
    }
}
