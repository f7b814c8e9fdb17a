//! Where a line ends.

ghost use Rattle.std.specs.Prelude.{◌≡◌, ◌==◌, ◌∷◌, ◌++◌, MatchOption, position};
ghost use Rattle.gate_machine.specs.Runs as spec;
ghost use Rattle.gateway.specs.Lines.{HasNoLineFeed};

/// Whether a line has spaces, tabs and carriage returns alone.
pub(crate) fn is_blank(line: &[u8]) -> bool
    ensures { result ≡ spec.is_blank line.now }
{
    line.iter()
        .all(|byte| *byte == b' ' || *byte == b'\t' || *byte == b'\r')
}

/// The bytes before the first line feed, and those behind it.
pub(crate) fn split_line(bytes: &[u8]) -> Option<(&[u8], &[u8])>
    ensures { MatchOption result
        (HasNoLineFeed bytes.now)
        (λ parts. HasNoLineFeed parts.0.now × (bytes.now ≡ parts.0.now ++ 10 ∷ parts.1.now)) }
{
    let at = first_line_feed(bytes)?;
    Some((&bytes[..at], &bytes[at + 1..]))
}

fn first_line_feed(bytes: &[u8]) -> Option<usize>
    ensures { result ≡ position (λ byte. byte == 10) bytes.now }
{
    bytes.iter().position(|byte| *byte == b'\n')
}
