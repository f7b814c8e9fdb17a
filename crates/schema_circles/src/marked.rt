ghost use Rattle.std.specs.Prelude.{◌≡◌, ◌++◌, IfOk};
ghost use Rattle.std.specs.Option.{option_to_list};
ghost use Rattle.schema_circles.specs.Marked.{marked_line, least_marked};

use schema_rules::earlier;
use text_types::{Items, Memory};

/// The least of the lines that are marked.
pub(crate) fn least_marked(marks: &[bool], lines: &[u64]) -> Option<u64>
    ensures { result ≡ least_marked marks.now lines.now }
{
    marks
        .iter()
        .zip(lines.iter())
        .fold(None, |least, (mark, line)| {
            earlier(least, marked_line(*mark, *line))
        })
}

fn marked_line(mark: bool, line: u64) -> Option<u64>
    ensures { result ≡ marked_line (mark, line) }
{
    if mark { Some(line) } else { None }
}

/// The nodes and one more, if there is one.
pub(crate) fn with_node(nodes: Items<usize>, node: Option<usize>) -> Result<Items<usize>, Memory>
    ensures { IfOk result (λ all. all ≡ nodes ++ option_to_list node) }
{
    let mut all = nodes;
    if let Some(node) = node {
        all.push(node)?;
    }
    Ok(all)
}
