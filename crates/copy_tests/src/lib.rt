//! Copies of the parts of documents of every kind, which print as what they are copied from.
#![tactic(auto)]

#[cfg(test)]
mod copies;
