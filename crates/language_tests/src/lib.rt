//! The document language over small texts, as tables: tokens, every production and every kind of
//! fault's place, numbers, printing, copies, and what is sent.
#![tactic(auto)]

#[cfg(test)]
mod copies;
#[cfg(test)]
mod documents;
#[cfg(test)]
mod identities;
#[cfg(test)]
mod numbers;
#[cfg(test)]
mod printing;
#[cfg(test)]
mod tokens;
