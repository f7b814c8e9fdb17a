//! How many lines of a head have ended.

ghost use Rattle.std.specs.Prelude.{◌==◌, ◌≡◌, count_by};
ghost use Rattle.http_model.specs.Heads as spec;
ghost use Rattle.head_scan.specs.Scans.{Counts};

use crate::FIELD_LIMIT;

/// How many lines have ended, from the start line on.
pub fn lines_ended(bytes: &[u8]) -> usize
    ensures { result ≡ spec.lines_ended bytes.now }
{
    line_feeds(behind_empty_lines(bytes))
}

fn line_feeds(bytes: &[u8]) -> usize
    ensures { result ≡ count_by (λ b. b == 10) bytes.now }
{
    bytes.iter().filter(|byte| **byte == b'\n').count()
}

pub(crate) fn behind_empty_lines(bytes: &[u8]) -> &[u8]
    ensures { result.now ≡ spec.skip_empty_lines bytes.now }
{
    let mut rest = bytes;
    'lines: while let Some((byte, behind)) = rest.split_first() {
        if *byte != b'\r' && *byte != b'\n' {
            return rest;
        }
        rest = behind;
    }
    rest
}

/// How many lines of the bytes so far have ended. Past the lines of a head it counts no further.
#[derive(Clone, Copy, Debug, PartialEq, Eq)]
pub(crate) struct EndedLines {
    /// Whether the start line has begun.
    pub(crate) begun: bool,
    pub(crate) ended: usize,
}

impl EndedLines {
    ghost use Rattle.std.specs.Prelude.{◌++◌, [], ℕ, List};
    ghost use Rattle.head_scan.specs.Scans.{Counts};

    /// Of no bytes.
    pub(crate) fn none() -> EndedLines
        ensures { Counts result [] }
    {
        EndedLines {
            begun: false,
            ended: 0,
        }
    }

    /// Takes further bytes.
    pub(crate) fn take(&mut self, bytes: &[u8])
        ensures { (seen : List ℕ) → Counts self.old seen → Counts self.new (seen ++ bytes.now) }
    {
        if self.ended > FIELD_LIMIT + 1 {
            return;
        }
        if self.begun {
            self.ended += line_feeds(bytes);
        } else {
            *self = begin(bytes);
        }
    }
}

/// The lines of these bytes alone.
fn begin(bytes: &[u8]) -> EndedLines
    ensures { Counts result bytes.now }
{
    let rest = behind_empty_lines(bytes);
    EndedLines {
        begun: !rest.is_empty(),
        ended: line_feeds(rest),
    }
}
