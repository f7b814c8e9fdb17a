//! The queue of mutations: what is kept over memory and over a disk that is stopped behind each
//! change.
#![tactic(auto)]

#[cfg(test)]
mod journals;
#[cfg(test)]
mod keepers;
#[cfg(test)]
mod puts;
#[cfg(test)]
mod stage;
#[cfg(test)]
mod stops;
