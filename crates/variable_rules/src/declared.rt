ghost use Rattle.std.specs.Prelude.{◌≡◌, [], ◌∷◌, ◌++◌, List, ℕ, length, map, IfOk};
ghost use Rattle.std.specs.Option.{option_copied};
ghost use Rattle.check_model.specs.VariableRules.{variable_named, variable_names};
ghost use Rattle.variable_rules.specs.Indexes.{IsIndex};

use gql_model::{Operation, VariableDefinition};
use std::alloc::Global;
use std::collections::BTreeMap;
use text_types::{Memory, Text};

/// The variables that an operation declares, by name.
#[derive(Drop)]
pub(crate) struct Declared<'a> {
    operation: &'a Operation,
    places: BTreeMap<Text, usize>,
    ghost is: { IsIndex places (variable_names operation.now) },
}

impl<'a> Declared<'a> {
    pub(crate) fn new(alloc: Global, operation: &'a Operation) -> Result<Declared<'a>, Memory>
        ensures { IfOk result (λ d. d.operation.now ≡ operation.now) }
    {
        let places = places(alloc, operation.variables.as_slice())?;
        Ok(Declared { operation, places })
    }

    /// The variable of a name.
    pub(crate) fn find(&self, name: &Text) -> Option<&'a VariableDefinition>
        ensures { option_copied result ≡ variable_named self.now.operation.now name.now }
    {
        match self.places.get(name).copied() {
            Some(place) => self.operation.variables.get(place),
            None => None,
        }
    }
}

fn places(alloc: Global, variables: &[VariableDefinition]) -> Result<BTreeMap<Text, usize>, Memory>
    ensures { IfOk result (λ places. IsIndex places (map (λ v. v.name.text) variables.now)) }
{
    let mut places = nowhere(alloc);
    'variables: for (place, variable) in variables.iter().enumerate() {
        places = with_place(places, &variable.name.text, place)?;
    }
    Ok(places)
}

fn nowhere(alloc: Global) -> BTreeMap<Text, usize>
    ensures { IsIndex result [] }
{
    BTreeMap::new(alloc)
}

/// The index with one name more.
fn with_place(
    places: BTreeMap<Text, usize>,
    name: &Text,
    place: usize,
) -> Result<BTreeMap<Text, usize>, Memory>
    ensures { (names : List (List ℕ)) → IsIndex places names → place ≡ length names → IfOk result (λ more. IsIndex more (names ++ name.now ∷ [])) }
{
    if places.contains_key(name) {
        return Ok(places);
    }
    let mut places = places;
    places.insert(name.copy()?, place)?;
    Ok(places)
}
