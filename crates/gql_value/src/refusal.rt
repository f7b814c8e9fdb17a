ghost use Rattle.std.specs.Prelude.{◌≡◌, [], ◌∷◌, ◌++◌, ◌==◌, List, ℕ, Option, IfOk, OnOk, reverse, codes, if◌then◌else◌};
ghost use Rattle.gql_value.specs.Json.{behind, dotted};
ghost use Rattle.gql_value.specs.Refusal.{IsStepsOf, IsPathTo};
ghost use Rattle.gql_value.specs.declared.refusal.Refusal.TheVariants.{Memory as OutOfMemory};

use crate::json_error::JsonError;
use std::alloc::Global;
use text_types::{Items, Memory, Text};

/// Why a conversion stops. The steps that lead to the number stand from the last to the first.
#[derive(Debug, Drop)]
pub(crate) enum Refusal {
    Memory,
    NotWhole(Items<Text>),
}

impl From<Memory> for Refusal {
    ghost from_gives = { λ _ refusal. refusal ≡ OutOfMemory };

    fn from(_: Memory) -> Refusal {
        Refusal::Memory
    }
}

impl Refusal {
    /// The same, told from one level further out, where this step leads to the value.
    pub(crate) fn behind(self, step: Text) -> Refusal
        ensures { (first : Option (List (List ℕ))) → IsStepsOf first self → IsStepsOf (behind step first) result }
    {
        match self {
            Refusal::Memory => Refusal::Memory,
            Refusal::NotWhole(mut steps) => match steps.push(step) {
                Ok(()) => Refusal::NotWhole(steps),
                Err(_) => Refusal::Memory,
            },
        }
    }

    /// The same with its path as a text.
    pub(crate) fn into_error(self, alloc: Global) -> JsonError
        ensures { (first : Option (List (List ℕ))) → IsStepsOf first self → IsPathTo first result }
    {
        match self {
            Refusal::Memory => JsonError::Memory,
            Refusal::NotWhole(steps) => match dotted_back(alloc, &steps) {
                Ok(path) => JsonError::NotWhole { path },
                Err(_) => JsonError::Memory,
            },
        }
    }
}

/// The steps from the last to the first, with a dot between.
fn dotted_back(alloc: Global, steps: &Items<Text>) -> Result<Text, Memory>
    ensures { IfOk result (λ path. path ≡ dotted (reverse steps.now)) }
{
    let steps = steps.as_slice();
    let mut path = Text::new(alloc);
    for before in 0..steps.len() {
        push_step(&mut path, before, &steps[steps.len() - 1 - before])?;
    }
    Ok(path)
}

/// Adds a step, behind a dot unless no step stands before it.
fn push_step(path: &mut Text, before: usize, step: &Text) -> Result<(), Memory>
    ensures { OnOk result (path.new ≡ path.old ++ ((if before == 0 then [] else codes ".") ++ step.now)) }
{
    if before > 0 {
        path.push_str(".")?;
    }
    path.push(step)
}
