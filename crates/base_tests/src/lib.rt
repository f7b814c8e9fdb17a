//! Calls of the base crates (values and their JSON, the outside's forms in memory, directed
//! graphs), each with ample memory, and printed texts, as tables.
#![tactic(auto)]

#[cfg(test)]
mod disks;
#[cfg(test)]
mod graphs;
#[cfg(test)]
mod outside;
#[cfg(test)]
mod values;
