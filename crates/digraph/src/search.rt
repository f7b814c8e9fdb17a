ghost use Rattle.std.specs.Prelude.{◌≡◌, [], length, IfOk, OnOk, OnSome, ◌<◌, slice_get};
ghost use Rattle.std.specs.List.{fold};
ghost use Rattle.digraph.specs.Searches.{is_new, noted};
ghost use Rattle.digraph.specs.Walks.{reached_from};

use crate::graph::Digraph;
use crate::marks::unmarked;
use std::alloc::Global;
use std::marker::Model;
use text_types::{Items, Memory};

/// The nodes found so far, in the order in which they were found, with a mark for each.
#[derive(Drop)]
struct Search {
    marks: Vec<bool>,
    found: Vec<usize>,
}

impl Model for Search {
    ghost use Rattle.std.specs.Prelude.{List, ℕ, length};
    ghost use Rattle.std.specs.Coded.{coded_list, coded×, coded_ℕ};
    ghost use Rattle.digraph.specs.Searches.{IsMarked};

    ghost Value = { List ℕ × ℕ };

    ghost coded = { coded× (coded_list coded_ℕ) coded_ℕ };

    ghost view = { λ s. (s.found.items, length s.marks.items) };

    ghost invariant = { λ s. IsMarked s.marks.items s.found.items };
}

impl Search {
    fn new(alloc: Global, nodes: usize) -> Result<Search, Memory>
        ensures { IfOk result (λ s. s ≡ ([], nodes)) }
    {
        Ok(Search {
            marks: unmarked(alloc, nodes)?,
            found: Vec::new(alloc),
        })
    }

    fn is_new(&self, node: usize) -> bool
        ensures { result ≡ is_new self.now.1 self.now.0 node }
    {
        match self.marks.get(node) {
            Some(found) => !*found,
            None => false,
        }
    }

    fn note(&mut self, node: usize) -> Result<(), Memory>
        ensures { OnOk result (self.new ≡ (noted self.old.1 self.old.0 node, self.old.1)) }
    {
        if self.is_new(node) {
            self.found.push(node)?;
            self.marks[node] = true;
        }
        Ok(())
    }

    fn note_all(&mut self, nodes: &[usize]) -> Result<(), Memory>
        ensures { OnOk result (self.new ≡ (fold (noted self.old.1) self.old.0 nodes.now, self.old.1)) }
    {
        'nodes: for node in nodes {
            self.note(*node)?;
        }
        Ok(())
    }

    fn at(&self, place: usize) -> Option<usize>
        ensures { result ≡ slice_get self.now.0 place }
    {
        self.found.get(place).copied()
    }
}

impl Digraph {
    /// Marks each node that a walk of one step or more leads to from a node.
    pub fn reached(&self, alloc: Global, start: usize) -> Result<Items<bool>, Memory>
        ensures { IfOk result (λ marks. marks ≡ reached_from self.now start) }
    {
        let mut search = Search::new(alloc, self.len())?;
        search.note_all(self.successors(start))?;
        let mut at = 0;
        'turn: while let Some(node) = search.at(at) {
            search.note_all(self.successors(node))?;
            at += 1;
        }
        Ok(Items::from_vec(search.marks))
    }
}
