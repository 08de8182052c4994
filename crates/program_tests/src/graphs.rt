//! The rows of graphs of small lists, as they are made in order and as they are counted.

use edge_text::{Edge, EdgeList};
use graph_store::{build, counted_rows};
use std::process::Abort;
use std::test::Fail;
use std::thread::Threads;

// Stands behind each row.
const END: u32 = u32::MAX;

// The rows of the graph of these edges are those that are wanted, one behind the other.
fn check(
    rt: &(impl Abort + AllocGlobal + Threads + Sync),
    pairs: &[(u16, u16)],
    list_both: bool,
    both: bool,
    source: u16,
    wanted: &[u32],
) -> Result<(), Fail> {
    let mut list = EdgeList {
        edges: Vec::new(rt.alloc()),
        both: list_both,
    };
    for (from, to) in pairs {
        list.edges.push(Edge {
            from: u32::from(*from),
            to: u32::from(*to),
            weight: 1,
        })?;
    }
    let graph = build(rt, rt.alloc(), &list, &[u32::from(source)], both)?;
    let mut rows = Vec::new(rt.alloc());
    for vertex in 0..graph.vertices() {
        rows.extend_from_slice(graph.row(vertex))?;
        rows.push(END)?;
    }
    assert_eq!(rt; rows.as_slice(), wanted);
    Ok(())
}

#[test]
fn rows_of_small_lists(rt: HostRuntime) -> Result<(), Fail> {
    // with a loop, and edges that repeat
    let pairs = [(3, 1), (0, 2), (0, 0), (0, 2), (3, 0), (2, 0), (0, 1)];
    let one_way = [0, 1, 2, END, END, 0, END, 0, 1, END, END, END];
    check(&rt, &pairs, false, false, 5, &one_way)?;
    let both_ways = [0, 1, 2, 3, END, 0, 3, END, 0, END, 0, 1, END];
    check(&rt, &pairs, false, true, 0, &both_ways)?;
    check(&rt, &pairs, true, false, 3, &both_ways)?;
    check(&rt, &pairs, true, true, 0, &both_ways)?;
    check(&rt, &[], true, false, 1, &[END, END])
}

// The counted rows of these edges, each in order, are those that are wanted, one behind the other, and then as many empty ones as
// are wanted.
fn check_counted(
    rt: &(impl Abort + AllocGlobal),
    pairs: &[(u16, u16)],
    both: bool,
    source: u16,
    wanted: &[u32],
    empty: usize,
) -> Result<(), Fail> {
    let mut list = EdgeList {
        edges: Vec::new(rt.alloc()),
        both,
    };
    for (from, to) in pairs {
        list.edges.push(Edge {
            from: u32::from(*from),
            to: u32::from(*to),
            weight: 1,
        })?;
    }
    let rows = counted_rows(rt.alloc(), &list, &[u32::from(source)])?;
    let mut found = Vec::new(rt.alloc());
    for place in 0..rows.count() {
        let first = found.len();
        found.extend_from_slice(rows.row(place))?;
        found[first..].sort_unstable();
        found.push(END)?;
    }
    let mut expected = Vec::from_slice(rt.alloc(), wanted)?;
    for _row in 0..empty {
        expected.push(END)?;
    }
    assert_eq!(rt; found.as_slice(), expected.as_slice());
    Ok(())
}

#[test]
fn counted_rows_of_small_lists(rt: HostRuntime) -> Result<(), Fail> {
    let pairs = [(3, 1), (0, 2), (0, 0), (0, 2), (3, 0), (2, 0), (0, 1)];
    let one_way = [0, 1, 2, 2, END, END, 0, END, 0, 1, END];
    check_counted(&rt, &pairs, false, 5, &one_way, 2)?;
    // vertices of several parts
    check_counted(&rt, &pairs, false, 40, &one_way, 37)?;
    let both_ways = [0, 0, 1, 2, 2, 2, 3, END, 0, 3, END, 0, 0, 0, END, 0, 1, END];
    check_counted(&rt, &pairs, true, 0, &both_ways, 0)?;
    check_counted(&rt, &[], true, 1, &[], 2)
}
