//! The terms of rules.

ghost use Rattle.std.specs.Prelude.{◌≡◌, [], IfOk};
ghost use Rattle.toml.specs.View.{view, table_view};
ghost use Rattle.rules_model.specs.Terms as spec;
ghost use Rattle.rules_model.specs.Toml.{pairs_in};

use crate::marks::behind_mark;
use gql_value::Value;
use rules_model::{Term, Terms};
use std::alloc::Global;
use text_types::{Items, Memory, Text};
use toml::Table;

/// The term that TOML data is.
pub(crate) fn term_of(alloc: Global, node: &toml::Value) -> Result<Option<Term>, Memory>
    ensures { IfOk result (λ term. term ≡ spec.term_of (view node.now)) }
{
    match node.as_str() {
        Some(text) => Ok(Some(text_term(alloc, text)?)),
        None => Ok(number_term(node)),
    }
}

fn number_term(node: &toml::Value) -> Option<Term>
    ensures { result ≡ spec.number_term (view node.now) }
{
    match node.as_integer() {
        Some(number) => Some(Term::Literal(Value::Int(number))),
        None => truth_term(node),
    }
}

fn truth_term(node: &toml::Value) -> Option<Term>
    ensures { result ≡ spec.truth_term (view node.now) }
{
    match node.as_bool() {
        Some(truth) => Some(Term::Literal(Value::Bool(truth))),
        None => None,
    }
}

fn text_term(alloc: Global, text: &str) -> Result<Term, Memory>
    ensures { IfOk result (λ term. term ≡ spec.text_term text.now) }
{
    match behind_mark('$', text) {
        Some(name) => Ok(Term::Argument(Text::from_str(alloc, name)?)),
        None => member_term(alloc, text),
    }
}

fn member_term(alloc: Global, text: &str) -> Result<Term, Memory>
    ensures { IfOk result (λ term. term ≡ spec.member_term text.now) }
{
    match behind_mark('@', text) {
        Some(name) => Ok(Term::Member(Text::from_str(alloc, name)?)),
        None => plain_term(alloc, text),
    }
}

fn plain_term(alloc: Global, text: &str) -> Result<Term, Memory>
    ensures { IfOk result (λ term. term ≡ spec.plain_term text.now) }
{
    match behind_mark('=', text) {
        Some(rest) => literal_text(alloc, rest),
        None => literal_text(alloc, text),
    }
}

fn literal_text(alloc: Global, text: &str) -> Result<Term, Memory>
    ensures { IfOk result (λ term. term ≡ spec.literal_text text.now) }
{
    Ok(Term::Literal(Value::Text(Text::from_str(alloc, text)?)))
}

/// The terms of a table from names to terms.
pub(crate) fn terms_of(alloc: Global, node: &toml::Value) -> Result<Option<Terms>, Memory>
    ensures { IfOk result (λ terms. terms ≡ spec.terms_of (view node.now)) }
{
    match node.as_table() {
        Some(table) => terms_in(alloc, table),
        None => Ok(None),
    }
}

fn terms_in(alloc: Global, table: &Table) -> Result<Option<Terms>, Memory>
    ensures { IfOk result (λ terms. terms ≡ spec.terms_onto [] (pairs_in (table_view table.now))) }
{
    let mut terms = Items::new(alloc);
    for (name, node) in table.iter() {
        match term_of(alloc, node)? {
            Some(term) => terms.push((Text::from_str(alloc, name.as_str())?, term))?,
            None => return Ok(None),
        }
    }
    Ok(Some(terms))
}
