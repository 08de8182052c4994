//! Levels of small lists, and drawn lists.

use edge_text::{Edge, EdgeList};
use levels_engine::{NOT_REACHED, make_edges, plain};
use std::process::Abort;
use std::test::Fail;

// The levels along these edges from the sources are those that are wanted.
fn check(
    rt: &(impl Abort + AllocGlobal),
    pairs: &[(u16, u16)],
    both: bool,
    sources: &[u16],
    wanted: &[u32],
) -> Result<(), Fail> {
    let mut list = EdgeList {
        edges: Vec::new(rt.alloc()),
        both,
    };
    for (from, to) in pairs {
        list.edges.push(Edge {
            from: u32::from(*from),
            to: u32::from(*to),
            weight: 1,
        })?;
    }
    let mut ids = Vec::new(rt.alloc());
    for source in sources {
        ids.push(u32::from(*source))?;
    }
    let levels = plain(rt.alloc(), &list, &ids)?;
    assert_eq!(rt; levels.as_slice(), wanted);
    Ok(())
}

#[test]
fn levels_of_small_graphs(rt: HostRuntime) -> Result<(), Fail> {
    let none = NOT_REACHED;
    assert_eq!(rt; none, 4294967295);
    check(&rt, &[(0, 1), (1, 2), (0, 2)], false, &[0], &[0, 1, 1])?;
    check(&rt, &[], false, &[5], &[none, none, none, none, none, 0])?;
    let loops = [(1, 1), (1, 0), (1, 1), (1, 0), (0, 0)];
    check(&rt, &loops, false, &[1], &[1, 0])?;
    check(&rt, &loops, true, &[0], &[0, 1])?;
    let many = [
        (0, 1),
        (0, 2),
        (0, 3),
        (1, 4),
        (2, 4),
        (3, 5),
        (4, 6),
        (5, 6),
        (6, 7),
        (7, 0),
        (8, 9),
        (2, 0),
        (6, 8),
    ];
    check(&rt, &many, false, &[0], &[0, 1, 1, 1, 2, 2, 3, 4, 4, 5])?;
    check(&rt, &many, true, &[0], &[0, 1, 1, 1, 2, 2, 2, 1, 3, 4])?;
    check(
        &rt,
        &many,
        false,
        &[8, 5, 8],
        &[3, 4, 4, 4, 5, 0, 1, 2, 0, 1],
    )
}

#[test]
fn draws_of_seed_0(rt: HostRuntime) -> Result<(), Fail> {
    // the generator's first states
    let states = [
        48271, 182605794, 1291394886, 1914720637, 2078669041, 407355683,
    ];
    for vertices in [10, 1000, 1 << 24] {
        let list = make_edges(rt.alloc(), 0, vertices, 3)?;
        assert!(rt;
            list.edges
                .iter()
                .flat_map(|edge| [edge.from, edge.to])
                .eq(states.map(|state| state % vertices))
        );
        assert!(rt; !list.both);
    }
    let list = make_edges(rt.alloc(), 0, 10, 3)?;
    let wanted = [(1, 4), (6, 7), (1, 3)];
    assert!(rt;
        list.edges
            .iter()
            .map(|edge| (edge.from, edge.to))
            .eq(wanted)
    );
    Ok(())
}
