ghost use Rattle.std.specs.Prelude.{◌≡◌};
ghost use Rattle.std.specs.Option.{option_copied};
ghost use Rattle.schema_model.specs.Tables as spec;

use text_types::Text;

/// What stands under a name.
pub(crate) fn entry<'a, T>(pairs: &'a [(Text, T)], name: &str) -> Option<&'a T>
    ensures { option_copied result ≡ spec.entry pairs.now name.now }
{
    for pair in pairs {
        if name.as_bytes() == pair.0.as_bytes() {
            return Some(&pair.1);
        }
    }
    None
}
