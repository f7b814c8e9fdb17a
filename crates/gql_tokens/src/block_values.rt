//! BlockStringValue: what the characters between the marks of a block string mean (GraphQL October
//! 2021, 2.9.4).

ghost use Rattle.std.specs.Prelude.{◌≡◌, ◌≢◌, ◌<◌, ◌≤◌, ◌++◌, ◌∷◌, [], ℕ, List, length, drop, map, not, reverse, Some, ◌-◌, IfOk, OnOk};
ghost use Rattle.std.specs.List.{prefix_len, suffix_len, join_with_byte};
ghost use Rattle.std.specs.Borrow.{Bor};
ghost use Rattle.gql_tokens.specs.Characters as characters;
ghost use Rattle.gql_tokens.specs.Blocks as spec;
ghost use Rattle.gql_tokens.specs.Readings.{texts, lines_left, lines_bound};

use crate::characters::{begins_with, is_line_end, is_white_space};
use std::alloc::Global;
use text_types::{Memory, Text};

/// The value of a block string whose characters mean this together.
pub(crate) fn block_value(alloc: Global, raw: &str) -> Result<Text, Memory>
    ensures { IfOk result (λ t. t ≡ spec.block_value_of raw.now) }
{
    match String::from_utf8(block_bytes(alloc, raw.as_bytes())?) {
        Ok(text) => Ok(Text::from_string(text)),
        Err(_) => unreachable!(),
    }
}

fn block_bytes(alloc: Global, raw: &[u8]) -> Result<Vec<u8>, Memory>
    ensures { IfOk result (λ v. v.items ≡ spec.block_value_of raw.now) }
{
    let (first, others) = split_line(raw);
    let indent = common_indent(others).unwrap_or(0);
    let mut lines = Vec::new(alloc);
    lines.push(first)?;
    push_lines(others, indent, &mut lines)?;
    joined(alloc, without_blank_ends(lines.as_slice()))
}

/// The first line, and what stands behind its end.
fn split_line(text: &[u8]) -> (&[u8], Option<&[u8]>)
    ensures lines { spec.lines_of text.now ≡ result.0.now ∷ lines_left result.1 }
    ensures shorter { lines_bound result.1 ≤ length text.now }
{
    let (line, rest) = text.split_at(line_len(text));
    match rest.split_first() {
        None => (line, None),
        Some((byte, behind)) => (line, Some(behind_line_end(*byte, behind))),
    }
}

/// How many bytes stand before the first line end.
fn line_len(text: &[u8]) -> usize
    ensures value { result ≡ prefix_len (λ b. not (characters.is_line_end b)) text.now }
    ensures within { result ≤ length text.now }
{
    text.iter().take_while(|byte| !is_line_end(**byte)).count()
}

/// What stands behind a line end that begins with this byte.
fn behind_line_end(byte: u8, behind: &[u8]) -> &[u8]
    ensures { result.now ≡ drop (characters.line_end_len byte behind.now - 1) behind.now }
{
    if byte == b'\r' && begins_with(b"\n", behind) {
        behind.split_at(1).1
    } else {
        behind
    }
}

fn is_blank(line: &[u8]) -> bool
    ensures { result ≡ spec.is_blank line.now }
{
    line.iter().all(|byte| is_white_space(*byte))
}

/// How many white space characters begin a line.
fn indent_of(line: &[u8]) -> usize
    ensures value { result ≡ spec.indent_of line.now }
    ensures within { result ≤ length line.now }
{
    line.iter()
        .take_while(|byte| is_white_space(**byte))
        .count()
}

/// The lesser of an indent and that of a line, unless the line is blank.
fn lesser_indent(least: Option<usize>, line: &[u8]) -> Option<usize>
    ensures { result ≡ spec.lesser least (spec.common_indent (line.now ∷ [])) }
{
    if is_blank(line) {
        return least;
    }
    let indent = indent_of(line);
    match least {
        None => Some(indent),
        Some(other) => Some(other.min(indent)),
    }
}

/// The least indent of the lines that aren't blank.
fn common_indent(others: Option<&[u8]>) -> Option<usize>
    ensures { result ≡ spec.common_indent (lines_left others.entry) }
{
    let mut least = None;
    let mut left = others;
    'lines: while let Some(text) = left {
        let (line, behind) = split_line(text);
        least = lesser_indent(least, line);
        left = behind;
    }
    least
}

/// A line without its first characters, so many.
fn without_indent(line: &[u8], indent: usize) -> &[u8]
    ensures { result.now ≡ drop indent line.now }
{
    if indent < line.len() {
        line.split_at(indent).1
    } else {
        line.split_at(line.len()).1
    }
}

/// Appends the lines of a text without their indent.
fn push_lines<'a>(
    others: Option<&'a [u8]>,
    indent: usize,
    lines: &mut Vec<&'a [u8]>,
) -> Result<(), Memory>
    ensures { OnOk result (texts lines.new.items
        ≡ texts lines.old.items ++ map (λ line. drop indent line) (lines_left others.entry)) }
{
    let mut left = others;
    'lines: while let Some(text) = left {
        let (line, behind) = split_line(text);
        lines.push(without_indent(line, indent))?;
        left = behind;
    }
    Ok(())
}

/// The lines from the first that isn't blank to the last that isn't.
fn without_blank_ends<'a, 'b>(lines: &'b [&'a [u8]]) -> &'b [&'a [u8]]
    ensures { texts result.now ≡ spec.without_blank_ends (texts lines.now) }
{
    let kept = lines.split_at(leading_blanks(lines)).1;
    kept.split_at(kept.len() - trailing_blanks(kept)).0
}

fn leading_blanks(lines: &[&[u8]]) -> usize
    ensures value { result ≡ prefix_len (λ (line : Bor (List ℕ)). spec.is_blank line.now) lines.now }
    ensures within { result ≤ length lines.now }
{
    lines.iter().take_while(|line| is_blank(**line)).count()
}

fn trailing_blanks(lines: &[&[u8]]) -> usize
    ensures value { result ≡ suffix_len (λ (line : Bor (List ℕ)). spec.is_blank line.now) lines.now }
    ensures within { result ≤ length lines.now }
{
    lines
        .iter()
        .rev()
        .take_while(|line| is_blank(**line))
        .count()
}

/// The lines with LF between them.
fn joined(alloc: Global, lines: &[&[u8]]) -> Result<Vec<u8>, Memory>
    ensures { IfOk result (λ v. v.items ≡ join_with_byte 10 (texts lines.now)) }
{
    let mut text = Vec::new(alloc);
    let Some((first, rest)) = lines.split_first() else {
        return Ok(text);
    };
    text.extend_from_slice(first)?;
    'lines: for line in rest {
        text.push(b'\n')?;
        text.extend_from_slice(line)?;
    }
    Ok(text)
}
