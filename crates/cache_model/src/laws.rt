//! Laws of the definitions, which the layers above cite. The functions do nothing.

ghost use Rattle.cache_model.specs.Laws.{AppliedByEffect, EffectWhereCovered, FillsCommute, FillsCommuteFlattened};

/// Of a list of writes only what it says of each cell matters.
pub fn writes_by_effect()
    ensures applied { AppliedByEffect }
    ensures covered { EffectWhereCovered }
{}

/// The order in which two tickets are filled doesn't matter.
pub fn fills_commute()
    ensures history { FillsCommute }
    ensures map { FillsCommuteFlattened }
{}
