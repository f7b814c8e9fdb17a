ghost use Rattle.std.specs.Prelude.{◌≡◌, List, [], ◌∷◌, ◌++◌, IfOk};
ghost use Rattle.std.specs.List.{flat_map};
ghost use Rattle.std.specs.Option.{option_copied};
ghost use Rattle.gql_schema.specs.Marks.{Mark, type_mark, directive_mark};
ghost use Rattle.gql_schema.specs.Repeated.{marks_of, scalar_marks};
ghost use Rattle.schema_defaults.specs.Seen.{Saw};

use gql_model::{Name, TypeSystemForm};
use schema_defaults::Seen;
use std::alloc::Global;
use text_types::{Memory, Text};

/// The definitions that are told apart by their names among themselves.
#[derive(Clone, Copy)]
pub(crate) enum Class {
    Type,
    Directive,
    Schema,
}

/// The name of a type that is defined.
pub(crate) fn type_name(form: &TypeSystemForm) -> Option<&Name>
    ensures { option_copied result ≡ type_mark form.now }
{
    match form {
        TypeSystemForm::Scalar(d) => Some(&d.name),
        TypeSystemForm::Object(d) => Some(&d.name),
        TypeSystemForm::Interface(d) => Some(&d.name),
        TypeSystemForm::Union(d) => Some(&d.name),
        TypeSystemForm::Enum(d) => Some(&d.name),
        TypeSystemForm::Input(d) => Some(&d.name),
        _ => None,
    }
}

/// The name of a directive that is defined.
pub(crate) fn directive_name(form: &TypeSystemForm) -> Option<&Name>
    ensures { option_copied result ≡ directive_mark form.now }
{
    match form {
        TypeSystemForm::Directive(d) => Some(&d.name),
        _ => None,
    }
}

/// Takes in the names of the definitions of a class.
pub(crate) fn note_all(
    alloc: Global,
    seen: Seen,
    class: Class,
    forms: &[TypeSystemForm],
) -> Result<Seen, Memory>
    ensures { (marks : List Mark) → Saw seen marks → IfOk result (λ all. Saw all (marks ++ flat_map (marks_of class) forms.now)) }
{
    let mut all = seen;
    'forms: for form in forms {
        all = note_definition(alloc, all, class, form)?;
    }
    Ok(all)
}

fn note_definition(
    alloc: Global,
    seen: Seen,
    class: Class,
    form: &TypeSystemForm,
) -> Result<Seen, Memory>
    ensures { (marks : List Mark) → Saw seen marks → IfOk result (λ all. Saw all (marks ++ marks_of class form.now)) }
{
    match class {
        Class::Type => note_type(seen, form),
        Class::Directive => note_directive(seen, form),
        Class::Schema => note_schema(alloc, seen, form),
    }
}

fn note_type(seen: Seen, form: &TypeSystemForm) -> Result<Seen, Memory>
    ensures { (marks : List Mark) → Saw seen marks → IfOk result (λ all. Saw all (marks ++ marks_of Class.Type form.now)) }
{
    match type_name(form) {
        Some(name) => seen.note(&name.text, name.place.row),
        None => Ok(seen),
    }
}

fn note_directive(seen: Seen, form: &TypeSystemForm) -> Result<Seen, Memory>
    ensures { (marks : List Mark) → Saw seen marks → IfOk result (λ all. Saw all (marks ++ marks_of Class.Directive form.now)) }
{
    match directive_name(form) {
        Some(name) => seen.note(&name.text, name.place.row),
        None => Ok(seen),
    }
}

fn note_schema(alloc: Global, seen: Seen, form: &TypeSystemForm) -> Result<Seen, Memory>
    ensures { (marks : List Mark) → Saw seen marks → IfOk result (λ all. Saw all (marks ++ marks_of Class.Schema form.now)) }
{
    match form {
        TypeSystemForm::Schema(d) => seen.note(&Text::from_str(alloc, "schema")?, d.place.row),
        _ => Ok(seen),
    }
}

/// The names of the built-in scalars, which are there before the first line.
pub(crate) fn seen_scalars(alloc: Global) -> Result<Seen, Memory>
    ensures { IfOk result (λ seen. Saw seen scalar_marks) }
{
    let seen = note_word(alloc, Seen::new(alloc), "Int")?;
    let seen = note_word(alloc, seen, "Float")?;
    let seen = note_word(alloc, seen, "String")?;
    let seen = note_word(alloc, seen, "Boolean")?;
    note_word(alloc, seen, "ID")
}

fn note_word(alloc: Global, seen: Seen, word: &str) -> Result<Seen, Memory>
    ensures { (marks : List Mark) → Saw seen marks → IfOk result (λ all. Saw all (marks ++ (word.now, 0) ∷ [])) }
{
    seen.note(&Text::from_str(alloc, word)?, 0)
}
