//! Stages, the run of a queue of commands, and policies, each called at concrete types.
#![tactic(auto)]

#[cfg(test)]
mod policies;
#[cfg(test)]
mod queue;
#[cfg(test)]
mod stages;
