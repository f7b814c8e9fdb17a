ghost use Rattle.std.specs.Prelude.{◌≡◌, IfOk, map};
ghost use Rattle.schema_rules.specs.Lines.{least_by};
ghost use Rattle.gql_schema.specs.Marks.{mark_of};
ghost use Rattle.schema_defaults.specs.Repetitions.{repeated};
ghost use Rattle.gql_schema.specs.Repeated.{kind_word, root_mark, repeated_arguments, repeated_part, repeated_in, repeated_line};

use crate::definitions::{Class, note_all, seen_scalars};
use crate::listed::Listed;
use gql_model::{FieldDefinition, ObjectDefinition, OperationKind, RootOperation, TypeSystemForm};
use schema_defaults::Seen;
use schema_rules::earlier;
use std::alloc::Global;
use text_types::{Memory, Text};

/// The least line at which a type, a directive, `schema` or a name in its list is there twice.
pub(crate) fn repeated_line(alloc: Global, forms: &[TypeSystemForm]) -> Result<Option<u64>, Memory>
    ensures { IfOk result (λ line. line ≡ repeated_line forms.now) }
{
    let types = note_all(alloc, seen_scalars(alloc)?, Class::Type, forms)?;
    let directives = note_all(alloc, Seen::new(alloc), Class::Directive, forms)?;
    let schemas = note_all(alloc, Seen::new(alloc), Class::Schema, forms)?;
    let within = repeated_within(alloc, forms)?;
    Ok(earlier(
        earlier(types.repeated_line(), directives.repeated_line()),
        earlier(schemas.repeated_line(), within),
    ))
}

fn repeated_within(alloc: Global, forms: &[TypeSystemForm]) -> Result<Option<u64>, Memory>
    ensures { IfOk result (λ line. line ≡ least_by repeated_in forms.now) }
{
    let mut least = None;
    'forms: for form in forms {
        least = earlier(least, repeated_in(alloc, form)?);
    }
    Ok(least)
}

fn repeated_in(alloc: Global, form: &TypeSystemForm) -> Result<Option<u64>, Memory>
    ensures { IfOk result (λ line. line ≡ repeated_in form.now) }
{
    match form {
        TypeSystemForm::Schema(d) => repeated_root(alloc, d.roots.as_slice()),
        TypeSystemForm::Scalar(_) => Ok(None),
        TypeSystemForm::Object(d) => repeated_part(alloc, d),
        TypeSystemForm::Interface(d) => repeated_part(alloc, d),
        TypeSystemForm::Union(d) => repeated_name(alloc, d.members.as_slice()),
        TypeSystemForm::Enum(d) => repeated_name(alloc, d.values.as_slice()),
        TypeSystemForm::Input(d) => repeated_name(alloc, d.fields.as_slice()),
        TypeSystemForm::Directive(d) => repeated_name(alloc, d.arguments.as_slice()),
    }
}

fn repeated_part(alloc: Global, parts: &ObjectDefinition) -> Result<Option<u64>, Memory>
    ensures { IfOk result (λ line. line ≡ repeated_part parts.now) }
{
    let interfaces = repeated_name(alloc, parts.interfaces.as_slice())?;
    let names = repeated_name(alloc, parts.fields.as_slice())?;
    let arguments = repeated_argument(alloc, parts.fields.as_slice())?;
    Ok(earlier(interfaces, earlier(names, arguments)))
}

fn repeated_argument(alloc: Global, fields: &[FieldDefinition]) -> Result<Option<u64>, Memory>
    ensures { IfOk result (λ line. line ≡ least_by repeated_arguments fields.now) }
{
    let mut least = None;
    'fields: for field in fields {
        least = earlier(least, repeated_name(alloc, field.arguments.as_slice())?);
    }
    Ok(least)
}

fn repeated_root(alloc: Global, roots: &[RootOperation]) -> Result<Option<u64>, Memory>
    ensures { IfOk result (λ line. line ≡ repeated (map root_mark roots.now)) }
{
    let mut seen = Seen::new(alloc);
    'roots: for root in roots {
        seen = seen.note(&kind_word(alloc, root.kind)?, root.place.row)?;
    }
    Ok(seen.repeated_line())
}

fn kind_word(alloc: Global, kind: OperationKind) -> Result<Text, Memory>
    ensures { IfOk result (λ word. word ≡ kind_word kind) }
{
    match kind {
        OperationKind::Query => Text::from_str(alloc, "query"),
        OperationKind::Mutation => Text::from_str(alloc, "mutation"),
        OperationKind::Subscription => Text::from_str(alloc, "subscription"),
    }
}

/// The least line of a name that stands before it in a list too.
fn repeated_name<T: Listed>(alloc: Global, items: &[T]) -> Result<Option<u64>, Memory>
    ensures { IfOk result (λ line. line ≡ repeated (map (λ x. mark_of (T.listed x)) items.now)) }
{
    let mut seen = Seen::new(alloc);
    'items: for item in items {
        let name = item.name();
        seen = seen.note(&name.text, name.place.row)?;
    }
    Ok(seen.repeated_line())
}
