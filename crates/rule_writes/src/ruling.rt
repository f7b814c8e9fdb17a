ghost use Rattle.std.specs.Prelude.{◌≡◌, ◌++◌, IfOk};
ghost use Rattle.field_asking.specs.Asking.{executed, asked_field};
ghost use Rattle.rule_effects.specs.Effects as spec;
ghost use Rattle.rule_writes.specs.Views.{IsAsSent, pairs_of};

use crate::root::root_type_name;
use crate::scope::Scope;
use crate::updating::Updating;
use cache_model::Writes;
use field_asking::{AskedField, Asking};
use gql_value::Value;
use std::alloc::Global;
use text_types::{Memory, Text};
use updater_rules::Rules;

/// Rules that are run on an operation, and the name of its root type.
#[derive(Drop)]
pub(crate) struct Ruling<'a> {
    pub(crate) alloc: Global,
    pub(crate) asking: &'a Asking<'a>,
    pub(crate) rules: &'a Rules,
    pub(crate) root: &'a str,
    ghost named: { root.now ≡ spec.root_type_name (executed asking.now) },
}

impl<'a> Ruling<'a> {
    pub(crate) fn new(alloc: Global, asking: &'a Asking<'a>, rules: &'a Rules) -> Ruling<'a>
        requires { IsAsSent asking.now }
        ensures asking { result.asking.now ≡ asking.now }
        ensures rules { result.rules.now ≡ rules.now }
    {
        let root = root_type_name(asking);
        Ruling {
            alloc,
            asking,
            rules,
            root,
        }
    }

    /// The writes of the updaters of a root field whose object has these members, behind those before them.
    pub(crate) fn update<'f>(
        &self,
        asked: &'f AskedField<'a>,
        members: &'f [(&'f Text, &'f Value)],
        out: Writes,
    ) -> Result<Writes, Memory>
        ensures { IfOk result (λ writes. writes ≡ out ++ spec.updates self.now.rules.now (spec.root_type_name (executed self.now.asking.now)) (executed self.now.asking.now) (asked_field asked.now) (pairs_of members.now)) }
    {
        let updating = Updating {
            alloc: self.alloc,
            asking: self.asking,
            scope: Scope {
                arguments: &asked.arguments,
                members,
            },
        };
        let rules = self.rules;
        updating.write_all(rules.updaters.as_slice(), self.root, asked.name, out)
    }
}
