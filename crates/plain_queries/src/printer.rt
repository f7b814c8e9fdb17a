ghost use Rattle.std.specs.Prelude.{◌≡◌, ◌++◌, OnOk, IfOk, map};
ghost use Rattle.plain_queries.specs.Sent.{sent_text_of, fields_text, selection_text, is_leaf_text};

use crate::selection::{Selection, SelectionSet};
use std::alloc::Global;
use text_types::{Memory, Text};

/// The canonical text of a query with `__typename` at the front of each inner set.
pub fn sent_text(alloc: Global, query: &SelectionSet) -> Result<Text, Memory>
    ensures { IfOk result (λ t. t ≡ sent_text_of query.now) }
{
    let mut out = Text::new(alloc);
    out.push_str("{")?;
    write_fields(query, false, &mut out)?;
    out.push_str("}")?;
    Ok(out)
}

/// Writes fields, where a name or a brace was written last.
#[cycle(write)]
fn write_fields(fields: &SelectionSet, mut after_name: bool, out: &mut Text) -> Result<(), Memory>
    ensures { OnOk result (out.new
        ≡ out.old ++ fields_text after_name (map (λ f. (f.0, selection_text f.1)) fields.now)) }
{
    'fields: for (name, selection) in fields.as_slice() {
        if after_name {
            out.push_str(" ")?;
        }
        out.push(name)?;
        write_selection(selection, out)?;
        after_name = is_leaf(selection);
    }
    Ok(())
}

#[cycle(write)]
fn write_selection(selection: &Selection, out: &mut Text) -> Result<(), Memory>
    ensures { OnOk result (out.new ≡ out.old ++ selection_text selection.now) }
{
    match selection {
        Selection::Leaf => Ok(()),
        Selection::Set(fields) => {
            out.push_str("{__typename")?;
            write_fields(fields, true, out)?;
            out.push_str("}")
        }
    }
}

fn is_leaf(selection: &Selection) -> bool
    ensures { result ≡ is_leaf_text (selection_text selection.now) }
{
    matches!(selection, Selection::Leaf)
}
