ghost use Rattle.std.specs.Prelude.{◌≡◌, ◌∷◌, ◌++◌, IfOk, OnOk, pos};
ghost use Rattle.std.specs.Ordering.{int_eq};
ghost use Rattle.gql_value.specs.declared.value.Value.{out-Value};
ghost use Rattle.answer_model.specs.Paths as spec;

use answer_model::Step;
use gql_value::Value;
use itoa::Buffer;
use std::alloc::Global;
use text_types::{Memory, Text};

/// A path as it is told: `data`, and each step behind a dot.
pub fn path_text(alloc: Global, path: &[Step]) -> Result<Text, Memory>
    ensures { IfOk result (λ text. text ≡ spec.path_text path.now) }
{
    let mut text = Text::from_str(alloc, "data")?;
    'steps: for step in path {
        push_step(&mut text, step)?;
    }
    Ok(text)
}

/// Appends a step behind a dot, which is byte 46.
fn push_step(text: &mut Text, step: &Step) -> Result<(), Memory>
    ensures { OnOk result (text.new ≡ text.old ++ (46 ∷ spec.step_text step.now)) }
{
    text.push_str(".")?;
    match step {
        Step::Key(key) => text.push(key),
        Step::Index(index) => text.push_str(Buffer::new().format(*index)),
    }
}

/// Whether a path is the front of an error's, or all of it.
pub(crate) fn begins(path: &[Step], steps: &[Value]) -> bool
    ensures { result ≡ spec.begins path.now steps.now }
{
    let mut left = steps;
    'path: for step in path {
        let Some((value, rest)) = left.split_first() else {
            return false;
        };
        if !is_step(step, value) {
            return false;
        }
        left = rest;
    }
    true
}

/// A response key is a text in an error's path, an index a whole number.
fn is_step(step: &Step, value: &Value) -> bool
    ensures { result ≡ spec.is_step step.now (out-Value value.now) }
{
    match (step, value) {
        (Step::Key(key), Value::Text(text)) => key.as_str() == text.as_str(),
        (Step::Index(index), Value::Int(number)) => is_index(*index, *number),
        _ => false,
    }
}

fn is_index(index: u64, number: i64) -> bool
    ensures { result ≡ int_eq (pos index) number }
{
    number >= 0 && number as u64 == index
}
