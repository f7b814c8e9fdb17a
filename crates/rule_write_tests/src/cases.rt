//! A mutation with its rules and its answer.

ghost use Rattle.std.specs.Prelude.{IfOk};
ghost use Rattle.checked_operation.specs.Acceptance.{IsWhole};
ghost use Rattle.rule_writes.specs.Views.{IsAsSent};

use crate::texts::text_of;
use checked_operation::Checked;
use field_asking::Asking;
use gql_check::check;
use gql_coercion::{Inputs, default_values};
use gql_documents::parse_document;
use gql_model::Document;
use gql_schema::read_schema;
use gql_tokens::nesting;
use gql_value::{Outcome, Value, outcome_of};
use op_keys::fronts;
use rule_writes::{is_optimistic, optimistic_writes, updater_writes};
use schema_model::{Schema, Table};
use std::alloc::Global;
use std::test::Fail;
use text_types::Text;
use updater_rules::{Rules, read_rules};

const TYPES: &str = "
type Query{me:User todo(id:ID!):Todo todos(done:Boolean=false first:Int):[Todo!]!}
type Mutation{setDone(id:ID! done:Boolean!):Todo rename(id:ID! name:String):User renameAll(ids:[ID!]):[User!] first:Node}
type Subscription{renamed:User}
interface Node{id:ID!}
type User implements Node{id:ID! name:String nick:String todo(place:Int! tags:[[Color]]):Todo age(in:Int):Int}
type Todo implements Node{id:ID! text:String! done:Boolean! author:User}
enum Color{RED}";

/// Rules, a mutation, the body of its response, what is written before that, and what on it.
pub(crate) type Case = (
    &'static str,
    &'static str,
    &'static str,
    &'static str,
    &'static str,
);

fn document(alloc: Global, text: &str) -> Result<Document, Fail> {
    let bytes = text.as_bytes();
    if nesting(bytes) > 64 {
        return Err("the text nests too deep")?;
    }
    Ok(parse_document(alloc, bytes).map_err(|_| "the text is no document")?)
}

fn operation(alloc: Global, schema: &Schema, text: &str) -> Result<Checked, Fail>
    ensures { IfOk result (λ checked. IsWhole checked) }
{
    match check(alloc, schema, document(alloc, text)?, None) {
        Ok(checked) => Ok(checked),
        Err(_) => Err("the operation is refused")?,
    }
}

fn answer(alloc: Global, body: &str) -> Result<Value, Fail> {
    match outcome_of(alloc, 200, body.as_bytes())? {
        Outcome::Body { answer, .. } => Ok(answer),
        Outcome::Bad(_) => Err("the body is at fault")?,
    }
}

/// Whether what is written is what is expected.
fn is_written(
    alloc: Global,
    asking: &Asking<'_>,
    rules: &Rules,
    answer: &Value,
    guess: &str,
    updates: &str,
) -> Result<bool, Fail>
    requires { IsAsSent asking.now }
{
    let before = optimistic_writes(alloc, asking, rules)?;
    let on_answer = updater_writes(alloc, asking, rules, answer)?;
    let expected = is_optimistic(alloc, asking, rules)? || before.is_empty();
    Ok(
        expected
            && text_of(alloc, before.as_slice())?.is(guess)
            && text_of(alloc, on_answer.as_slice())?.is(updates),
    )
}

fn holds(
    alloc: Global,
    schema: &Schema,
    defaults: &Table<Table<Value>>,
    case: &Case,
) -> Result<bool, Fail> {
    let rules = read_rules(alloc, schema, case.0.as_bytes()).map_err(|_| "the rules are refused")?;
    let operation = operation(alloc, schema, case.1)?;
    let answer = answer(alloc, case.2)?;
    let variables = Table::new(alloc);
    let fronts = fronts(alloc, schema, &operation.document)?;
    let inputs = Inputs { schema, defaults };
    let asking = Asking::new(alloc, inputs, &operation, &variables, fronts.as_slice())?;
    is_written(alloc, &asking, &rules, &answer, case.3, case.4)
}

/// The place of the first case that doesn't hold, and how many there are where all do.
pub(crate) fn first_wrong(alloc: Global, cases: &[Case]) -> Result<usize, Fail> {
    let schema = read_schema(alloc, TYPES.as_bytes()).map_err(|_| "the schema is refused")?;
    let defaults = default_values(alloc, &schema)?.ok_or("no values of defaults")?;
    for at in 0..cases.len() {
        if !holds(alloc, &schema, &defaults, &cases[at])? {
            return Ok(at);
        }
    }
    Ok(cases.len())
}
