//! Rules files over small schemas, as tables: for each code, in each wording of it, the text that breaks
//! it and the name of the table that is told. It stands on `updater_rules`, and on the parser for the
//! schemas.
#![tactic(auto)]

#[cfg(test)]
mod fields;
#[cfg(test)]
mod forms;
#[cfg(test)]
mod order;
#[cfg(test)]
mod rows;
#[cfg(test)]
mod texts;
