use digraph::Digraph;
use std::alloc::Global;
use std::test::Fail;
use text_types::{Items, Memory};

/// A graph of five nodes from its steps.
fn graph(alloc: Global, steps: &[(usize, usize)]) -> Result<Digraph, Memory> {
    let mut graph = Digraph::new(alloc);
    for node in 0..5usize {
        let mut successors = Items::new(alloc);
        for (from, to) in steps {
            if *from == node {
                successors.push(*to)?;
            }
        }
        graph.push(successors)?;
    }
    Ok(graph)
}

#[test]
fn nodes_that_are_reached(rt: HostRuntime) -> Result<(), Fail> {
    let alloc = rt.alloc();
    let steps = [(0, 1), (1, 2), (2, 1), (2, 9), (3, 0), (4, 4)];
    let graph = graph(alloc, &steps)?;
    let rows = [
        (0, [false, true, true, false, false]),
        (1, [false, true, true, false, false]),
        (3, [true, true, true, false, false]),
        (4, [false, false, false, false, true]),
        (9, [false, false, false, false, false]),
    ];
    for (start, expected) in rows {
        let marks = graph.reached(alloc, start)?;
        assert!(rt; marks.as_slice() == expected.as_slice(), "from {start}");
    }
    Ok(())
}

#[test]
fn nodes_on_circles(rt: HostRuntime) -> Result<(), Fail> {
    let alloc = rt.alloc();
    let steps = [(0, 1), (1, 2), (2, 1), (2, 3), (4, 4)];
    let round = graph(alloc, &steps)?;
    let marks = round.circled(alloc)?;
    assert!(rt; marks.as_slice() == [false, true, true, false, true].as_slice());
    assert!(rt; round.is_on_circle(alloc, 2)?);
    assert!(rt; !round.is_on_circle(alloc, 0)?);
    assert!(rt; round.has_circle(alloc)?);
    let steps = [(0, 1), (1, 2), (0, 2), (3, 2)];
    let straight = graph(alloc, &steps)?;
    assert!(rt; !straight.has_circle(alloc)?);
    Ok(())
}
