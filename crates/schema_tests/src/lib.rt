//! Schemas over small texts, as tables: each code of refusal in each of its wordings, and what is
//! looked up.
#![tactic(auto)]

#[cfg(test)]
mod circles;
#[cfg(test)]
mod defaults;
#[cfg(test)]
mod lookups;
#[cfg(test)]
mod schema_rows;
#[cfg(test)]
mod texts;
#[cfg(test)]
mod verdicts;
