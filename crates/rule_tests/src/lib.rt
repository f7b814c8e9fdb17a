//! The rules of validation over small documents, as tables. It stands on the crates of the rules, and on
//! the parser for the documents and the schemas.
//!
//! For each rule some document breaks it and no earlier one, and some document comes close and breaks none.
#![tactic(auto)]

#[cfg(test)]
mod directive_rules;
#[cfg(test)]
mod document_rules;
#[cfg(test)]
mod field_merging;
#[cfg(test)]
mod judging;
#[cfg(test)]
mod late_rules;
#[cfg(test)]
mod root_fields;
#[cfg(test)]
mod selection_rules;
#[cfg(test)]
mod texts;
#[cfg(test)]
mod values;
#[cfg(test)]
mod variables;
