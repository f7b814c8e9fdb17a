//! Laws of schemas: the order of the definitions doesn't matter to look-ups by name, nor to whether they
//! are accepted, nor to the code that refuses them. They stand on `gql_schema`. The functions do nothing.
#![tactic(auto)]

ghost use Rattle.schema_order.specs.Order.{OrderIsFree};
ghost use Rattle.schema_order.specs.Verdict.{PlacesAreFree, TextsAreFree, VerdictIsFree};

use digraph::walks_are_decided;

/// Definitions that break no rule against what stands twice give, in any order, the same types and
/// directives by name, and the same roots. Their places go with them.
pub fn order_is_free()
    ensures { OrderIsFree }
{}

/// Definitions are accepted in every order or in none, and where they are refused, each order has the
/// same code. The line that is told may differ.
pub fn verdict_is_free()
    ensures { VerdictIsFree }
{
    walks_are_decided();
}

/// The same for definitions that stand at other places of their texts: their order and their places
/// don't matter to whether they are accepted, nor to the code that refuses them.
pub fn places_are_free()
    ensures { PlacesAreFree }
{
    walks_are_decided();
}

/// Two texts that hold the same definitions in another order both give a schema, or are refused with
/// the same code. What the language has already is passed over in both.
pub fn texts_are_free()
    ensures { TextsAreFree }
{
    walks_are_decided();
}
