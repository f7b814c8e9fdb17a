//! The normalised cache beside plain lists: keys, cells, the layered store, the index of live
//! queries.
#![tactic(auto)]

#[cfg(test)]
mod cells;
#[cfg(test)]
mod index;
#[cfg(test)]
mod keys;
#[cfg(test)]
mod store;
