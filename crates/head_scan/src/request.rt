ghost use Rattle.std.specs.Prelude.{◌≡◌, ◌++◌, ℕ, List, IfOk};
ghost use Rattle.head_scan.specs.Places as spec;
ghost use Rattle.head_scan.specs.Scans.{IsRequestLine, InFields, FieldsStand};

use crate::lines::EndedLines;
use crate::place::Place;
use crate::request_line::{first_line_len, is_request_line};
use crate::step::placed;
use crate::{FIELD_LIMIT, HEAD_LIMIT};
use std::alloc::Global;
use text_types::Memory;

/// Where the bytes behind a request line stand.
#[derive(Clone, Copy, Debug)]
pub(crate) enum Fields {
    /// The request line hasn't ended.
    Awaited,
    Within(Place),
    /// The head has ended or can't go on.
    Left,
}

/// Where the bytes so far of a request's head stand.
#[derive(Clone, Copy, Debug)]
pub struct RequestScan {
    pub(crate) fields: Fields,
    pub(crate) lines: EndedLines,
}

impl RequestScan {
    ghost use Rattle.std.specs.Prelude.{◌≡◌, ◌⊎◌, ◌++◌, [], ℕ, List, true, length, OnOk};
    ghost use Rattle.http_model.specs.Requests.{IsUnread, IsOpenRequest};
    ghost use Rattle.head_scan.specs.Scans.{ScansRequest};

    /// Of no bytes.
    pub fn start() -> RequestScan
        ensures { ScansRequest result [] }
    {
        RequestScan {
            fields: Fields::Awaited,
            lines: EndedLines::none(),
        }
    }

    /// Takes further bytes, which stand at the end of `all` bytes so far.
    pub fn take(&mut self, alloc: Global, all: &[u8], bytes: &[u8]) -> Result<(), Memory>
        ensures { (seen : List ℕ) → ScansRequest self.old seen → all.now ≡ seen ++ bytes.now → OnOk result (ScansRequest self.new all.now) }
    {
        self.lines.take(bytes);
        self.fields = fields_after(alloc, self.fields, self.lines.ended, all, bytes)?;
        Ok(())
    }

    /// Whether the bytes so far, this many, aren't looked at yet or are the beginning of a head, and
    /// within its limits.
    pub fn is_open(&self, len: usize) -> bool
        ensures unread { (seen : List ℕ) → ScansRequest self.now seen → length seen ≡ len → IsUnread seen → result ≡ true }
        ensures open { (seen : List ℕ) → ScansRequest self.now seen → length seen ≡ len → result ≡ true → IsUnread seen ⊎ IsOpenRequest seen }
    {
        if len > HEAD_LIMIT || self.lines.ended > FIELD_LIMIT + 1 {
            return false;
        }
        match self.fields {
            Fields::Within(_) => true,
            Fields::Awaited | Fields::Left => self.lines.ended == 0,
        }
    }
}

fn fields_after(
    alloc: Global,
    fields: Fields,
    ended: usize,
    all: &[u8],
    bytes: &[u8],
) -> Result<Fields, Memory>
    ensures { (seen : List ℕ) → FieldsStand fields seen → all.now ≡ seen ++ bytes.now → IfOk result (λ fields. FieldsStand fields all.now) }
{
    match fields {
        Fields::Awaited if ended > 0 => first_fields(alloc, all),
        Fields::Within(place) => Ok(further(place, bytes)),
        fields => Ok(fields),
    }
}

/// The fields behind the first line.
fn first_fields(alloc: Global, all: &[u8]) -> Result<Fields, Memory>
    ensures { IfOk result (λ fields. FieldsStand fields all.now) }
{
    let (line, behind) = all.split_at(first_line_len(all));
    if is_request_line(alloc, line)? {
        Ok(further(Place::LineStart, behind))
    } else {
        Ok(Fields::Left)
    }
}

/// Where further bytes lead from a place.
fn further(place: Place, bytes: &[u8]) -> Fields
    ensures { (seen : List ℕ) → InFields place seen → FieldsStand result (seen ++ bytes.now) }
{
    match placed(place, bytes) {
        Some(place) => Fields::Within(place),
        None => Fields::Left,
    }
}
