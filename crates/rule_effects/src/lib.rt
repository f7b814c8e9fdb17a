//! What declared rules write to the cache: on the answer of an operation, and before it has one. It stands
//! on the rules of `rules_model`, and on the definitions of coercion and of answers in `execution_model`
//! and `answer_model`.
//!
//! It has no functions. Its contract for the layers above is `specs/Effects.antt`: total functions, said of
//! a checked operation and of rules that were taken under its schema. They read no cache.
#![tactic(auto)]
