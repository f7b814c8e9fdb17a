//! Answers, what they write to a plain map of cells, and what is read from it and cut to what was asked, as
//! tables over small schemas. It stands on the parser, the schema and validation for the operations that are
//! asked, and calls each public function of the crates that collect, write, read and cut.
#![tactic(auto)]

#[cfg(test)]
mod asking;
#[cfg(test)]
mod cell_map;
#[cfg(test)]
mod collecting;
#[cfg(test)]
mod cutting;
#[cfg(test)]
mod errors;
#[cfg(test)]
mod fits;
#[cfg(test)]
mod operations;
#[cfg(test)]
mod reading;
#[cfg(test)]
mod rows;
#[cfg(test)]
mod sending;
#[cfg(test)]
mod shapes;
#[cfg(test)]
mod telling;
#[cfg(test)]
mod told_types;
#[cfg(test)]
mod values;
#[cfg(test)]
mod writing;
