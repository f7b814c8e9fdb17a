//! Directed graphs: which nodes a walk of one step or more leads to, and which nodes are on a circle.
//! It stands on the lists of `text_types`.
//!
//! Contracts see a [`Digraph`] as the list of its nodes' successors. [`Digraph::reached`] marks exactly
//! the nodes that a node reaches, in time linear in the graph.
#![tactic(auto)]

mod circles;
mod clear;
mod graph;
mod laws;
mod leaves;
mod marks;
mod search;

pub use graph::Digraph;
pub use laws::walks_are_decided;
