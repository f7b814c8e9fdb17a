//! What rules write before a mutation has its answer.

ghost use Rattle.std.specs.Prelude.{◌≡◌, ◌++◌, IfOk, map, is_some};
ghost use Rattle.std.specs.List.{flat_map, list_any, find};
ghost use Rattle.std.specs.Option.{option_copied};
ghost use Rattle.field_asking.specs.Asking.{executed, asked_field};
ghost use Rattle.rule_effects.specs.Effects as spec;
ghost use Rattle.rule_writes.specs.Views.{IsAsSent};

use crate::root::{optimistic_on, root_fields, root_type_name};
use crate::ruling::Ruling;
use cache_model::Writes;
use field_asking::{AskedField, Asking};
use std::alloc::Global;
use text_types::Memory;
use updater_rules::{Optimistic, Rules};

/// What is written before an answer: root field by root field in the order of asking, for each that has an
/// optimistic rule its object, and then what the field's updaters write over that object.
pub fn optimistic_writes<'a>(
    alloc: Global,
    asking: &'a Asking<'a>,
    rules: &'a Rules,
) -> Result<Writes, Memory>
    requires { IsAsSent asking.now }
    ensures { IfOk result (λ writes. writes ≡ spec.optimistic_writes_of rules.now (executed asking.now)) }
{
    let ruling = Ruling::new(alloc, asking, rules);
    let fields = root_fields(alloc, asking)?;
    ruling.declare_all(fields.as_slice())
}

/// Whether some root field that is asked has an optimistic rule.
pub fn is_optimistic(alloc: Global, asking: &Asking<'_>, rules: &Rules) -> Result<bool, Memory>
    requires { IsAsSent asking.now }
    ensures { IfOk result (λ is. is ≡ spec.is_optimistic_operation rules.now (executed asking.now)) }
{
    let fields = root_fields(alloc, asking)?;
    let rules = rules.optimistic.as_slice();
    Ok(has_optimistic(rules, root_type_name(asking), fields.as_slice()))
}

fn has_optimistic(rules: &[Optimistic], root: &str, fields: &[AskedField<'_>]) -> bool
    ensures { result ≡ list_any (λ asked. is_some (find (λ rule. spec.is_on root.now asked.name rule.on) rules.now)) (map asked_field fields.now) }
{
    some_is_declared(rules, root, fields)
}

fn some_is_declared(rules: &[Optimistic], root: &str, fields: &[AskedField<'_>]) -> bool
    ensures { result ≡ list_any (λ field. is_some (find (λ rule. spec.is_on root.now field.name.now rule.on) rules.now)) fields.now }
{
    fields.iter().any(|asked| is_declared(rules, root, asked))
}

fn is_declared(rules: &[Optimistic], root: &str, asked: &AskedField<'_>) -> bool
    ensures { result ≡ is_some (find (λ rule. spec.is_on root.now asked.now.name.now rule.on) rules.now) }
{
    optimistic_on(rules, root, asked.name).is_some()
}

impl<'a> Ruling<'a> {
    fn declare_all(&self, fields: &[AskedField<'a>]) -> Result<Writes, Memory>
        ensures { IfOk result (λ writes. writes ≡ flat_map (spec.field_declared self.now.rules.now (executed self.now.asking.now)) (map asked_field fields.now)) }
    {
        let mut out = Writes::new(self.alloc);
        'fields: for asked in fields {
            out = self.declare_field(asked, out)?;
        }
        Ok(out)
    }

    fn declare_field(&self, asked: &AskedField<'a>, out: Writes) -> Result<Writes, Memory>
        ensures { IfOk result (λ writes. writes ≡ out ++ spec.field_declared self.now.rules.now (executed self.now.asking.now) (asked_field asked.now)) }
    {
        match self.rule_on(asked) {
            Some(rule) => self.declare(asked, rule, out),
            None => Ok(out),
        }
    }

    fn rule_on(&self, asked: &AskedField<'a>) -> Option<&'a Optimistic>
        ensures { option_copied result ≡ spec.optimistic_on self.now.rules.now (spec.root_type_name (executed self.now.asking.now)) asked.now.name.now }
    {
        let rules = self.rules;
        optimistic_on(rules.optimistic.as_slice(), self.root, asked.name)
    }
}
