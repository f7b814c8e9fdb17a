//! What stands behind the front of a text.

ghost use Rattle.std.specs.Prelude.{◌≡◌, ◌<◌};
ghost use Rattle.std.specs.Option.{option_copied};
ghost use Rattle.rules_model.specs.Terms as terms;
ghost use Rattle.rules_model.specs.RootFields as spec;

/// What stands behind a mark at the front of a text.
pub(crate) fn behind_mark(mark: char, text: &str) -> Option<&str>
    requires { mark < 128 }
    ensures { option_copied result ≡ terms.behind_mark mark text.now }
{
    text.strip_prefix(mark)
}

/// What stands behind a front of a text.
pub(crate) fn behind<'a>(front: &str, text: &'a str) -> Option<&'a str>
    ensures { option_copied result ≡ spec.behind front.now text.now }
{
    text.strip_prefix(front)
}

/// The name of a field behind the name of its type and a dot.
pub fn field_behind<'a>(root: &str, on: &'a str) -> Option<&'a str>
    ensures { option_copied result ≡ spec.field_behind root.now on.now }
{
    match behind(root, on) {
        Some(rest) => behind_mark('.', rest),
        None => None,
    }
}
