ghost use Rattle.std.specs.Prelude.{◌≡◌, ◌∷◌, [], ◌++◌, ℕ, cond, IfOk};
ghost use Rattle.std.specs.Ordering.{nat_cmp, is_eq};
ghost use Rattle.merge_rules.specs.Kept.{kept_at};

use std::alloc::Global;
use std::collections::BTreeMap;
use text_types::Memory;

/// Places of the rows that later ones are compared with, by the numbers of their paths.
pub(crate) type Kept = BTreeMap<usize, Vec<usize>>;

/// The places that were kept under a number.
pub(crate) fn kept_at(kept: &Kept, number: usize) -> &[usize]
    ensures { result.now ≡ kept_at kept.now number }
{
    match kept.get(&number) {
        Some(places) => places.as_slice(),
        None => &[],
    }
}

/// Keeps one place more under a number.
pub(crate) fn keep(alloc: Global, kept: Kept, number: usize, place: usize) -> Result<Kept, Memory>
    ensures { IfOk result (λ more. (q : ℕ) → kept_at more q ≡ cond (is_eq (nat_cmp number q)) (kept_at kept number ++ place ∷ []) (kept_at kept q)) }
{
    let mut kept = kept;
    let mut places = match kept.remove(&number) {
        Some(places) => places,
        None => Vec::new(alloc),
    };
    places.push(place)?;
    kept.insert(number, places)?;
    Ok(kept)
}
