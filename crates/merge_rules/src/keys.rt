ghost use Rattle.std.specs.Prelude.{◌≡◌};
ghost use Rattle.check_model.specs.Fields.{response_key};

use gql_model::Name;
use text_types::Text;

/// The key of a field in its result: the alias, or else the name (GraphQL October 2021, 2.7).
pub(crate) fn response_key<'a>(alias: &'a Option<Name>, name: &'a Text) -> &'a Text
    ensures { result.now ≡ response_key alias.now name.now }
{
    match alias {
        Some(alias) => &alias.text,
        None => name,
    }
}
