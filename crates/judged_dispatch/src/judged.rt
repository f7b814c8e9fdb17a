ghost use Rattle.std.specs.Prelude.{◌≡◌, IfOk, IfErr, Ok, Err, Some, None, Option};
ghost use Rattle.std.specs.Option.{option_copied};
ghost use Rattle.check_model.specs.declared.refusal.Refusal.{Refusal as Ground};
ghost use Rattle.checked_operation.specs.Acceptance.{IsWhole, IsAcceptedAs};
ghost use Rattle.gql_check.specs.Errors.{IsCheckError};
ghost use Rattle.frame_reading.specs.Errors.{IsFrameError};
ghost use Rattle.judged_dispatch.specs.Judged as spec;
ghost use Rattle.judged_dispatch.specs.Told.{accepted_by, IsRefusalTold};

use crate::kinds::Kinds;
use crate::service::Service;
use checked_operation::Checked;
use frame_reading::FrameError;
use gql_check::{CheckError, check};
use gql_coercion::{CoerceError, coerce};
use gql_documents::{SyntaxError, nesting, parse_document};
use gql_model::Document;
use gql_value::Value;
use machine_model::Refusal;
use schema_model::Table;
use std::alloc::Global;
use text_types::Text;

/// Brackets of a query nest at most so deep.
const DEEPEST: u64 = 64;

/// A checked operation, and the values of its variables.
#[derive(Drop)]
pub struct Judged {
    pub checked: Checked,
    pub variables: Table<Value>,
}

/// The operation that a text and a name ask for, with these values for its variables, or the first
/// refusal.
pub fn judge(
    alloc: Global,
    service: &Service,
    kinds: Kinds,
    text: &str,
    name: Option<&Text>,
    values: &Table<Value>,
) -> Result<Judged, FrameError>
    ensures accepted { IfOk result (λ judged. spec.judged kinds service.now text.now (option_copied name.entry) values.now ≡ Ok (accepted_by judged)) }
    ensures checked { IfOk result (λ judged. IsAcceptedAs service.now.schema (option_copied name.entry) judged.checked) }
    ensures refused { IfErr result (IsFrameError (spec.judged kinds service.now text.now (option_copied name.entry) values.now)) }
{
    if nesting(text.as_bytes()) > DEEPEST {
        return Err(FrameError::Refused(Refusal::E14));
    }
    match parse_document(alloc, text.as_bytes()) {
        Ok(document) => judge_document(alloc, service, kinds, document, name, values),
        Err(SyntaxError::Memory) => Err(FrameError::Memory),
        Err(SyntaxError::Syntax { row, column }) => {
            Err(FrameError::Refused(Refusal::E6 { row, column }))
        }
    }
}

fn judge_document(
    alloc: Global,
    service: &Service,
    kinds: Kinds,
    document: Document,
    name: Option<&Text>,
    values: &Table<Value>,
) -> Result<Judged, FrameError>
    ensures accepted { IfOk result (λ judged. spec.document_judged kinds service.now (option_copied name.entry) values.now (Ok document) ≡ Ok (accepted_by judged)) }
    ensures checked { IfOk result (λ judged. IsAcceptedAs service.now.schema (option_copied name.entry) judged.checked) }
    ensures refused { IfErr result (IsFrameError (spec.document_judged kinds service.now (option_copied name.entry) values.now (Ok document))) }
{
    match check(alloc, &service.schema, document, name) {
        Ok(checked) => judge_operation(alloc, service, kinds, checked, values),
        Err(error) => Err(error_of(error)),
    }
}

/// The error that tells why a document is refused.
fn error_of(error: CheckError) -> FrameError
    ensures { (found : Option Ground) → IsCheckError found error → IsRefusalTold found result }
{
    match error {
        CheckError::Memory => FrameError::Memory,
        CheckError::UnknownOperation => FrameError::Refused(Refusal::E7),
        CheckError::Introspection => FrameError::Refused(Refusal::E16),
        CheckError::Invalid { rule } => FrameError::Refused(Refusal::E8 { rule }),
        CheckError::TooLarge => FrameError::Refused(Refusal::E17),
    }
}

/// The values of a checked operation's variables, where operations of its kind are taken.
fn judge_operation(
    alloc: Global,
    service: &Service,
    kinds: Kinds,
    checked: Checked,
    values: &Table<Value>,
) -> Result<Judged, FrameError>
    requires { IsWhole checked }
    ensures accepted { IfOk result (λ judged. spec.choice_judged kinds service.now values.now checked.document (Some checked.place) ≡ Ok (accepted_by judged)) }
    ensures same { IfOk result (λ judged. judged.checked ≡ checked) }
    ensures refused { IfErr result (IsFrameError (spec.choice_judged kinds service.now values.now checked.document (Some checked.place))) }
{
    if !kinds.take(checked.operation().kind) {
        return Err(FrameError::Refused(Refusal::E15));
    }
    match coerce(alloc, &service.inputs(), values, checked.variables()) {
        Ok(variables) => Ok(Judged { checked, variables }),
        Err(CoerceError::BadVariable { name }) => Err(FrameError::Refused(Refusal::E9 {
            variable: name,
        })),
        Err(CoerceError::Memory) => Err(FrameError::Memory),
    }
}
