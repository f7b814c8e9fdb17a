//! What updaters write on an answer.

ghost use Rattle.std.specs.Prelude.{◌≡◌, ◌++◌, IfOk, map, not};
ghost use Rattle.std.specs.List.{flat_map, list_any};
ghost use Rattle.field_asking.specs.Asking.{executed, asked_field};
ghost use Rattle.rule_effects.specs.Effects as spec;
ghost use Rattle.rule_writes.specs.Views.{IsAsSent};

use crate::answer::Answer;
use crate::root::{is_updated, root_fields};
use crate::ruling::Ruling;
use cache_model::Writes;
use field_asking::{AskedField, Asking};
use gql_value::Value;
use std::alloc::Global;
use text_types::Memory;
use updater_rules::Rules;

/// What updaters write on an answer: root field by root field in the order of asking, and for each in the
/// order of the file. The operation is asked as it is sent.
pub fn updater_writes<'a>(
    alloc: Global,
    asking: &'a Asking<'a>,
    rules: &'a Rules,
    answer: &'a Value,
) -> Result<Writes, Memory>
    requires { IsAsSent asking.now }
    ensures { IfOk result (λ writes. writes ≡ spec.updater_writes_of rules.now (executed asking.now) answer.now) }
{
    let ruling = Ruling::new(alloc, asking, rules);
    let fields = root_fields(alloc, asking)?;
    let answer = Answer::new(alloc, answer)?;
    ruling.update_all(fields.as_slice(), &answer)
}

impl<'a> Ruling<'a> {
    fn update_all(&self, fields: &[AskedField<'a>], answer: &Answer<'a>) -> Result<Writes, Memory>
        requires { IsAsSent self.now.asking.now }
        ensures { IfOk result (λ writes. writes ≡ flat_map (spec.field_updates self.now.rules.now (executed self.now.asking.now) answer.now.value.now) (map asked_field fields.now)) }
    {
        let mut out = Writes::new(self.alloc);
        'fields: for asked in fields {
            out = self.update_field(asked, answer, out)?;
        }
        Ok(out)
    }

    /// A root field that no updater is on needs no members.
    fn update_field(
        &self,
        asked: &AskedField<'a>,
        answer: &Answer<'a>,
        out: Writes,
    ) -> Result<Writes, Memory>
        requires { IsAsSent self.now.asking.now }
        ensures { IfOk result (λ writes. writes ≡ out ++ spec.field_updates self.now.rules.now (executed self.now.asking.now) answer.now.value.now (asked_field asked.now)) }
    {
        if self.is_untouched(asked) {
            return Ok(out);
        }
        let members = self.answered_members(asked, answer)?;
        self.update(asked, members.as_slice(), out)
    }

    fn is_untouched(&self, asked: &AskedField<'a>) -> bool
        ensures { result ≡ not (list_any (λ updater. spec.is_on (spec.root_type_name (executed self.now.asking.now)) asked.now.name.now updater.on) self.now.rules.now.updaters) }
    {
        let rules = self.rules;
        !is_updated(rules.updaters.as_slice(), self.root, asked.name)
    }
}
