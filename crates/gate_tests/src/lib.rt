//! The worked examples that run the top call, as tables.
#![tactic(auto)]

#[cfg(test)]
mod base_types;
#[cfg(test)]
mod faults;
#[cfg(test)]
mod judging;
#[cfg(test)]
mod outside;
#[cfg(test)]
mod rows;
#[cfg(test)]
mod schemas;
