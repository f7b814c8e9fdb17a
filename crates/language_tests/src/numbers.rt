use gql_model::{
    Definition, Document, Field, Fragment, InlineFragment, Name, Operation, OperationKind,
    Selection, SelectionSet,
};
use gql_numbering::{Mark, Numbering};
use gql_tokens::Place;
use std::alloc::Global;
use std::test::Fail;
use text_types::{Items, Memory, Text};

const NOWHERE: Place = Place { row: 1, column: 1 };

fn name(alloc: Global, text: &str) -> Result<Name, Memory> {
    Ok(Name {
        place: NOWHERE,
        text: Text::from_str(alloc, text)?,
    })
}

fn set(selections: Vec<Selection>) -> SelectionSet {
    SelectionSet {
        place: NOWHERE,
        selections: Items::from_vec(selections),
    }
}

fn field(
    alloc: Global,
    text: &str,
    selection_set: Option<SelectionSet>,
) -> Result<Selection, Memory> {
    Ok(Selection::Field(Field {
        alias: None,
        name: name(alloc, text)?,
        arguments: Items::new(alloc),
        directives: Items::new(alloc),
        selection_set,
    }))
}

fn inline(alloc: Global, selection_set: SelectionSet) -> Selection {
    Selection::Inline(InlineFragment {
        place: NOWHERE,
        type_condition: None,
        directives: Items::new(alloc),
        selection_set,
    })
}

fn query(alloc: Global, selection_set: SelectionSet) -> Definition {
    Definition::Operation(Operation {
        place: NOWHERE,
        kind: OperationKind::Query,
        name: None,
        variables: Items::new(alloc),
        directives: Items::new(alloc),
        selection_set,
    })
}

fn fragment(alloc: Global, selection_set: SelectionSet) -> Result<Definition, Memory> {
    Ok(Definition::Fragment(Fragment {
        place: NOWHERE,
        name: name(alloc, "f")?,
        type_condition: name(alloc, "T")?,
        directives: Items::new(alloc),
        selection_set,
    }))
}

/// `{a{b} ...{c}} fragment f on T{d}`
fn document(alloc: Global) -> Result<Document, Memory> {
    let b = set(vec![in alloc; field(alloc, "b", None)?]?);
    let c = set(vec![in alloc; field(alloc, "c", None)?]?);
    let d = set(vec![in alloc; field(alloc, "d", None)?]?);
    let whole = set(vec![in alloc; field(alloc, "a", Some(b))?, inline(alloc, c)]?);
    Ok(Document {
        definitions: Items::from_vec(vec![in alloc; query(alloc, whole), fragment(alloc, d)?]?),
    })
}

#[test]
fn sets_and_fields_have_their_numbers(rt: HostRuntime) -> Result<(), Fail> {
    let document = document(rt.alloc())?;
    let numbering = Numbering::new(rt.alloc(), &document)?;
    assert_eq!(rt; numbering.set_count(), 4);
    assert_eq!(rt; numbering.field_count(), 4);
    for (number, text) in [(0, "a"), (1, "b"), (2, "c"), (3, "d")] {
        let field = numbering.field(&document, number).ok_or("no field")?;
        assert_eq!(rt; field.name.text.as_str(), text);
    }
    for (number, selections) in [(0, 2), (1, 1), (2, 1), (3, 1)] {
        let set = numbering.set(&document, number).ok_or("no set")?;
        assert_eq!(rt; set.selections.len(), selections);
    }
    assert!(rt; numbering.set(&document, 4).is_none());
    assert!(rt; numbering.field(&document, 4).is_none());
    Ok(())
}

#[test]
fn marks_tell_the_numbers_of_what_is_next(rt: HostRuntime) -> Result<(), Fail> {
    let document = document(rt.alloc())?;
    let numbering = Numbering::new(rt.alloc(), &document)?;
    for (set, at, sets, fields) in [
        (0, 0, 1, 0),
        (0, 1, 2, 2),
        (1, 0, 2, 1),
        (2, 0, 3, 2),
        (3, 0, 4, 3),
    ] {
        let marks = numbering.marks(set).ok_or("no marks")?;
        assert_eq!(rt; marks.get(at).copied(), Some(Mark { sets, fields }));
    }
    for (at, sets, fields) in [(0, 0, 0), (1, 3, 3)] {
        assert_eq!(rt; numbering.definition(at), Some(Mark { sets, fields }));
    }
    Ok(())
}
