ghost use Rattle.std.specs.Prelude.{◌≡◌, ◌++◌, ◌∷◌, [], IfOk, OnOk, map, codes};
ghost use Rattle.answer_model.specs.declared.step.Step.TheVariants.{Key, Index};
ghost use Rattle.answer_model.specs.Paths.{at_places};
ghost use Rattle.answer_model.specs.Writing.{path_of};
ghost use Rattle.field_asking.specs.Asking.{asked_field};
ghost use Rattle.result_writer.specs.Views.{object_of};

use crate::object::Object;
use answer_model::Step;
use field_asking::AskedField;
use std::alloc::Global;
use text_types::{Memory, Text};

/// The path to a field of an object, and as far into its lists as these indexes lead.
pub(crate) fn path_below(
    alloc: Global,
    object: &Object<'_>,
    asked: &AskedField<'_>,
    places: &[u64],
) -> Result<Vec<Step>, Memory>
    ensures { IfOk result (λ path. path.items ≡ at_places (path_of (object_of object.now) (asked_field asked.now)) places.now) }
{
    let mut path = copied(alloc, object.path.as_slice())?;
    path.push(Step::Key(asked.key.copy()?))?;
    push_places(&mut path, places)?;
    Ok(path)
}

fn copied(alloc: Global, path: &[Step]) -> Result<Vec<Step>, Memory>
    ensures { IfOk result (λ copy. copy.items ≡ path.now) }
{
    let mut copy = Vec::new(alloc);
    'steps: for step in path {
        copy.push(copied_step(step)?)?;
    }
    Ok(copy)
}

fn copied_step(step: &Step) -> Result<Step, Memory>
    ensures { IfOk result (λ copy. copy ≡ step.now) }
{
    match step {
        Step::Key(key) => Ok(Step::Key(key.copy()?)),
        Step::Index(index) => Ok(Step::Index(*index)),
    }
}

fn push_places(path: &mut Vec<Step>, places: &[u64]) -> Result<(), Memory>
    ensures { OnOk result (path.new.items ≡ path.old.items ++ map Index places.now) }
{
    'places: for place in places {
        path.push(Step::Index(*place))?;
    }
    Ok(())
}

/// The path of the `__typename` of an object at this path.
pub(crate) fn typename_path(alloc: Global, path: Vec<Step>) -> Result<Vec<Step>, Memory>
    ensures { IfOk result (λ steps. steps.items ≡ path.items ++ Key (codes "__typename") ∷ []) }
{
    let mut path = path;
    path.push(Step::Key(Text::from_str(alloc, "__typename")?))?;
    Ok(path)
}
