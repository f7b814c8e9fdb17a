ghost use Rattle.default_laws.specs.Ranks.{RanksFall};
ghost use Rattle.default_laws.specs.Settling.{DefaultsAreOne, ReadSchemasSettle, RoundsSettle};

use digraph::walks_are_decided;

/// In a graph without circles ranks fall along each step, and are below the number of nodes.
pub fn ranks_fall()
    ensures { RanksFall }
{
    walks_are_decided();
}

/// The rounds give the values of the defaults within as many rounds as there are input fields, where no
/// default has itself filled in.
pub fn rounds_settle()
    ensures { RoundsSettle }
{
    walks_are_decided();
    ranks_fall();
}

/// There are no other values of the defaults then.
pub fn defaults_are_one()
    ensures { DefaultsAreOne }
{
    walks_are_decided();
    ranks_fall();
}

/// Every schema that a text gives is one whose defaults settle.
pub fn read_schemas_settle()
    ensures { ReadSchemasSettle }
{}
