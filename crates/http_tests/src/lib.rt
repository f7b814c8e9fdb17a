//! Messages of HTTP in pieces of every size, as tables.
#![tactic(auto)]

#[cfg(test)]
mod heads;
#[cfg(test)]
mod messages;
