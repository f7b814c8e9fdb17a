//! The layered store beside a plain list of contents: a long list of calls made from a number.
#![tactic(auto)]

#[cfg(test)]
mod calls;
#[cfg(test)]
mod contents;
#[cfg(test)]
mod shown;
