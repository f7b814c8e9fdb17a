ghost use Rattle.std.specs.Prelude.{◌≡◌, ◌++◌, ℕ, List};
ghost use Rattle.head_scan.specs.Places as spec;
ghost use Rattle.head_scan.specs.Places.{place_of};

use crate::lines::EndedLines;
use crate::place::Place;
use crate::step::placed;
use crate::{FIELD_LIMIT, HEAD_LIMIT};

/// Where the bytes so far of a response's head stand.
#[derive(Clone, Copy, Debug)]
pub struct ResponseScan {
    /// None where the head has ended or can't go on.
    pub(crate) place: Option<Place>,
    pub(crate) lines: EndedLines,
}

impl ResponseScan {
    ghost use Rattle.std.specs.Prelude.{◌≡◌, ◌++◌, [], ℕ, List, true, length};
    ghost use Rattle.http_model.specs.Heads.{IsOpenResponse};
    ghost use Rattle.head_scan.specs.Scans.{ScansResponse};

    /// Of no bytes.
    pub fn start() -> ResponseScan
        ensures { ScansResponse result [] }
    {
        ResponseScan {
            place: Some(Place::EmptyLines),
            lines: EndedLines::none(),
        }
    }

    /// Takes further bytes.
    pub fn take(&mut self, bytes: &[u8])
        ensures { (seen : List ℕ) → ScansResponse self.old seen → ScansResponse self.new (seen ++ bytes.now) }
    {
        self.lines.take(bytes);
        self.place = further(self.place, bytes);
    }

    /// Whether the bytes so far, this many, are the beginning of a head within its limits.
    pub fn is_open(&self, len: usize) -> bool
        ensures open { (seen : List ℕ) → ScansResponse self.now seen → length seen ≡ len → result ≡ true → IsOpenResponse seen }
        ensures whole { (seen : List ℕ) → ScansResponse self.now seen → length seen ≡ len → IsOpenResponse seen → result ≡ true }
    {
        if len > HEAD_LIMIT || self.lines.ended > FIELD_LIMIT + 1 {
            return false;
        }
        self.place.is_some()
    }
}

/// Where further bytes lead from a place, if there is one.
fn further(place: Option<Place>, bytes: &[u8]) -> Option<Place>
    ensures { (seen : List ℕ) → place ≡ place_of (spec.placed Place.EmptyLines seen) → result ≡ place_of (spec.placed Place.EmptyLines (seen ++ bytes.now)) }
{
    match place {
        Some(place) => placed(place, bytes),
        None => None,
    }
}
