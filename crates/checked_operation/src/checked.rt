ghost use Rattle.std.specs.Prelude.{◌≡◌, Some, true, is_some, IfOk, slice_get};
ghost use Rattle.std.specs.Option.{option_and_then};
ghost use Rattle.execution_model.specs.Asked.{kind_in};
ghost use Rattle.checked_operation.specs.Choice.{operation_at, variables_at};
ghost use Rattle.checked_operation.specs.Acceptance.{sets_at, IsWhole};

use crate::choice::operation_at;
use fragment_rules::FragmentIndex;
use gql_model::{Document, Operation, OperationKind, VariableDefinition};
use gql_numbering::{Mark, Numbering};
use std::alloc::Global;
use text_types::{Items, Memory};

/// A document with its numbering and the index of its fragments, and one of its operations.
#[derive(Drop)]
pub struct Checked {
    /// The client's document.
    pub document: Document,
    pub numbering: Numbering,
    pub fragments: FragmentIndex,
    /// The place of the operation among the document's definitions, counted from 0.
    pub place: usize,
    /// The number of the operation's own selection set, in a list of one.
    pub sets: Items<u64>,
}

impl Checked {
    /// Keeps the operation at this place of a document.
    pub fn new(alloc: Global, document: Document, place: usize) -> Result<Checked, Memory>
        requires { is_some (operation_at document place) ≡ true }
        ensures document { IfOk result (λ checked. checked.document ≡ document) }
        ensures place { IfOk result (λ checked. checked.place ≡ place) }
        ensures whole { IfOk result (λ checked. IsWhole checked) }
    {
        let numbering = Numbering::new(alloc, &document)?;
        let fragments = FragmentIndex::of(alloc, &document)?;
        let sets = own_sets(alloc, numbering.definition(place))?;
        Ok(Checked {
            document,
            numbering,
            fragments,
            place,
            sets,
        })
    }

    /// The operation.
    pub fn operation(&self) -> &Operation
        requires { IsWhole self.now }
        ensures { Some result.now ≡ operation_at self.now.document self.now.place }
    {
        match operation_at(&self.document, self.place) {
            Some(operation) => operation,
            None => unreachable!(),
        }
    }

    /// What kind of operation it is.
    #[tactic(auto, using(crate::proofs::ChoiceLaws::kind_told))]
    pub fn kind(&self) -> OperationKind
        requires { IsWhole self.now }
        ensures { Some result ≡ option_and_then kind_in (slice_get self.now.document.definitions self.now.place) }
    {
        self.operation().kind
    }

    /// The definitions of the operation's variables, in order.
    pub fn variables(&self) -> &[VariableDefinition]
        requires { IsWhole self.now }
        ensures { Some result.now ≡ variables_at self.now.document self.now.place }
    {
        self.operation().variables.as_slice()
    }
}

fn own_sets(alloc: Global, mark: Option<Mark>) -> Result<Items<u64>, Memory>
    ensures { IfOk result (λ sets. sets ≡ sets_at mark) }
{
    let mut sets = Items::new(alloc);
    if let Some(mark) = mark {
        sets.push(mark.sets)?;
    }
    Ok(sets)
}
