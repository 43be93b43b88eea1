//! Small graphs.

use super::{Graph, Rule, least_key, properties};
use std::test::Fail;

/// A graph of these lists of parts.
fn graph_of(rt: &HostRuntime, rows: &[&[usize]]) -> Result<Graph, Fail> {
    let mut graph = Graph::new(rt.alloc());
    for row in rows {
        graph.push(row)?;
    }
    Ok(graph)
}

/// Whether the first of a chain of so many nodes nests within the limit.
fn first_of_chain(rt: &HostRuntime, nodes: usize, limit: usize) -> Result<Option<bool>, Fail> {
    let mut graph = Graph::new(rt.alloc());
    let mut rules = Vec::new(rt.alloc());
    for node in 1..nodes {
        graph.push(&[node])?;
        rules.push(Rule::All)?;
    }
    graph.push(&[])?;
    rules.push(Rule::All)?;
    let values = properties(rt.alloc(), &graph, &rules, limit)?;
    Ok(values.first().copied())
}

#[test]
fn chains_nest_as_deep_as_they_are_long(rt: HostRuntime) -> Result<(), Fail> {
    assert_eq!(rt; first_of_chain(&rt, 32, 32)?, Some(true));
    assert_eq!(rt; first_of_chain(&rt, 33, 32)?, Some(false));
    assert_eq!(rt; first_of_chain(&rt, 40, 32)?, Some(false));
    Ok(())
}

#[test]
fn properties_come_from_parts(rt: HostRuntime) -> Result<(), Fail> {
    // a diamond whose left side is a leaf that always has the property, and a node that holds itself
    let graph = graph_of(&rt, &[&[1, 2], &[3], &[3], &[], &[4, 1], &[0, 9]])?;
    let rules = [
        Rule::Last,
        Rule::Always,
        Rule::Any,
        Rule::Never,
        Rule::All,
        Rule::Last,
    ];
    let values = properties(rt.alloc(), &graph, &rules, 32)?;
    assert_eq!(rt;
        values.as_slice(),
        [false, true, false, false, false, false].as_slice()
    );
    let rules = [
        Rule::Last,
        Rule::Never,
        Rule::Any,
        Rule::Always,
        Rule::All,
        Rule::Any,
    ];
    let values = properties(rt.alloc(), &graph, &rules, 32)?;
    assert_eq!(rt;
        values.as_slice(),
        [true, false, true, true, false, true].as_slice()
    );
    Ok(())
}

#[test]
fn cycles_are_found(rt: HostRuntime) -> Result<(), Fail> {
    let keys = [50, 40, 30, 20, 10];
    let alloc = rt.alloc();
    // itself
    assert_eq!(rt;
        least_key(alloc, &graph_of(&rt, &[&[], &[0, 1]])?, &keys)?,
        Some(40)
    );
    // two in turn, and one that only comes to them
    assert_eq!(rt;
        least_key(alloc, &graph_of(&rt, &[&[1], &[0], &[1]])?, &keys)?,
        Some(40)
    );
    // a diamond
    assert_eq!(rt;
        least_key(alloc, &graph_of(&rt, &[&[1, 2], &[3], &[3], &[]])?, &keys)?,
        None
    );
    // a tree under two cycles
    assert_eq!(rt;
        least_key(
            alloc,
            &graph_of(&rt, &[&[0, 2], &[1, 2], &[3, 4], &[], &[]])?,
            &keys
        )?,
        Some(40)
    );
    // the later key
    assert_eq!(rt;
        least_key(
            alloc,
            &graph_of(&rt, &[&[0], &[], &[], &[2], &[4, 7]])?,
            &keys
        )?,
        Some(10)
    );
    // no node, and no key
    assert_eq!(rt; least_key(alloc, &graph_of(&rt, &[&[7]])?, &keys)?, None);
    assert_eq!(rt; least_key(alloc, &graph_of(&rt, &[&[0]])?, &[])?, None);
    Ok(())
}
