//! What the updaters of a root field write.

ghost use Rattle.std.specs.Prelude.{◌≡◌, [], ◌∷◌, ◌++◌, IfOk};
ghost use Rattle.std.specs.List.{filter_map};
ghost use Rattle.std.specs.Option.{option_to_list};
ghost use Rattle.rule_effects.specs.Effects as spec;
ghost use Rattle.rule_writes.specs.Views.{running_of};

use crate::root::is_on;
use crate::updating::Updating;
use cache_model::{Write, Writes};
use text_types::{Memory, Text};
use updater_rules::Updater;

impl<'v> Updating<'v> {
    /// The writes of the updaters that are on a root field, behind those before them.
    pub(crate) fn write_all(
        &self,
        updaters: &'v [Updater],
        root: &str,
        field: &Text,
        out: Writes,
    ) -> Result<Writes, Memory>
        ensures { IfOk result (λ writes. writes ≡ out ++ filter_map (spec.write_if_on (running_of self.now) root.now field.now) updaters.now) }
    {
        let mut out = out;
        'updaters: for updater in updaters {
            let write = self.write_if_on(root, field, updater)?;
            out = with_write(out, write)?;
        }
        Ok(out)
    }

    fn write_if_on(
        &self,
        root: &str,
        field: &Text,
        updater: &'v Updater,
    ) -> Result<Option<Write>, Memory>
        ensures { IfOk result (λ write. write ≡ spec.write_if_on (running_of self.now) root.now field.now updater.now) }
    {
        if is_on(root, field, &updater.on) {
            self.write(updater)
        } else {
            Ok(None)
        }
    }
}

fn with_write(out: Writes, write: Option<Write>) -> Result<Writes, Memory>
    ensures { IfOk result (λ writes. writes ≡ out ++ option_to_list write) }
{
    match write {
        Some(write) => pushed(out, write),
        None => Ok(out),
    }
}

pub(crate) fn pushed(out: Writes, write: Write) -> Result<Writes, Memory>
    ensures { IfOk result (λ writes. writes ≡ out ++ write ∷ []) }
{
    let mut out = out;
    out.push(write)?;
    Ok(out)
}
