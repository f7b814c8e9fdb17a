ghost use Rattle.std.specs.Prelude.{◌≡◌};
ghost use Rattle.gql_schema.specs.Ignored.{is_scalar, is_directive, is_ignored, considered};

use gql_model::TypeSystemForm;

/// Leaves out the definitions of what the language has already.
pub(crate) fn leave_out_ignored(forms: &mut Vec<TypeSystemForm>)
    ensures { forms.new.items ≡ considered forms.old.items }
{
    forms.retain(|form| !is_ignored(form));
}

fn is_ignored(form: &TypeSystemForm) -> bool
    ensures { result ≡ is_ignored form.now }
{
    match form {
        TypeSystemForm::Scalar(d) => is_scalar(d.name.text.as_str()),
        TypeSystemForm::Directive(d) => is_directive(d.name.text.as_str()),
        _ => false,
    }
}

fn is_scalar(name: &str) -> bool
    ensures { result ≡ is_scalar name.now }
{
    name == "Int" || name == "Float" || name == "String" || name == "Boolean" || name == "ID"
}

fn is_directive(name: &str) -> bool
    ensures { result ≡ is_directive name.now }
{
    name == "skip" || name == "include" || name == "deprecated" || name == "specifiedBy"
}
