//! What rules write over small schemas, before an answer and on it, as tables. It stands on the parser, the
//! schema and validation for the operations, and on `updater_rules` for the rules.
#![tactic(auto)]

#[cfg(test)]
mod actions;
#[cfg(test)]
mod cases;
#[cfg(test)]
mod guesses;
#[cfg(test)]
mod rows;
#[cfg(test)]
mod texts;
