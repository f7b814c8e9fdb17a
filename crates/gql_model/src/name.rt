use gql_tokens::Place;
use text_types::Text;

/// A name (GraphQL October 2021, 2.1.9).
#[derive(Debug, Drop)]
pub struct Name {
    pub place: Place,
    pub text: Text,
}
