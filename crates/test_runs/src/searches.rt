//! Searches of stairs, worked by hand.
use crate::expect::{holds, same};
use crate::landing::Landing;
use crate::stairs::Stairs;
use ccan_search::{Edge, GraphFrom, Progress, Untold, graph_of};
use std::alloc::Global;
use std::cell::Cell;
use std::process::Abort;

/// What was last reported to it of a search: the number of the state that was followed next, from 1, and how many were kept.
#[derive(Drop)]
struct LastTold {
    number: Cell<usize>,
    kept: Cell<usize>,
}

impl Progress for LastTold {
    fn tell(&self, kept: usize, followed: usize) {
        self.number.set(followed.saturating_add(1));
        self.kept.set(kept);
    }
}

/// The graph of the stairs below this one.
fn stairs_below(rt: &impl Abort, alloc: Global, stair: u64) -> GraphFrom<u64, u64> {
    let Ok(Some(found)) = graph_of(&Stairs, alloc, stair, 10, 100, &Untold) else {
        panic!(rt; "not all stairs")
    };
    found
}

/// The graph of the stairs below this one, with stair 3 as the landing, if the search passes so many at most at a time.
fn below_with_landing(
    rt: &impl Abort,
    alloc: Global,
    stair: u64,
    ahead: usize,
) -> GraphFrom<u64, u64> {
    let Ok(Some(found)) = graph_of(&Landing { at: 3 }, alloc, stair, ahead, 100, &Untold) else {
        panic!(rt; "not all stairs")
    };
    found
}

/// How many stairs go down, and to which, by any of these edges, in all.
fn sums(edges: &[Edge<u64>]) -> (u64, usize) {
    let mut down = 0;
    let mut to = 0;
    for edge in edges {
        down = edge.label.saturating_add(down);
        to = edge.to.saturating_add(to);
    }
    (down, to)
}

/// Holds a graph to these stairs, the last of which is the start, and to the sums of the edges of each.
fn is_graph(rt: &impl Abort, found: &GraphFrom<u64, u64>, stairs: &[u64], edges: &[(u64, usize)]) {
    same(rt, found.graph.states.as_slice(), stairs);
    same(rt, found.start.saturating_add(1), stairs.len());
    for (own, want) in found.graph.edges.iter().zip(edges) {
        same(rt, sums(own.as_slice()), *want);
    }
}

/// Each stair comes after those to which one goes down from it: so those below stair 3 are in their order. One move alone follows
/// stair 1, but these stairs don't let it be passed.
#[test]
fn finds_edges_with_labels(rt: HostRuntime) {
    let found = stairs_below(&rt, rt.alloc(), 3);
    is_graph(
        &rt,
        &found,
        &[0, 1, 2, 3],
        &[(0, 0), (1, 0), (3, 1), (3, 3)],
    );
}

/// From stair 5 one goes down by stair 4 to the landing, stair 3, and from there in two ways to the ground: by stairs 2 and 1, or
/// by stair 1. No other stair is kept if the search passes as many as it can.
#[test]
fn passes_stairs_that_one_move_follows(rt: HostRuntime) {
    let found = below_with_landing(&rt, rt.alloc(), 5, 10);
    is_graph(&rt, &found, &[0, 3, 5], &[(0, 0), (6, 0), (2, 1)]);
    // One at a time: stair 4 before the landing, stair 2 before stair 1, and stair 1 before the ground. So stair 1 is kept too.
    let found = below_with_landing(&rt, rt.alloc(), 5, 1);
    is_graph(
        &rt,
        &found,
        &[0, 1, 3, 5],
        &[(0, 0), (1, 0), (5, 1), (2, 2)],
    );
    // None at all.
    let found = below_with_landing(&rt, rt.alloc(), 5, 0);
    is_graph(
        &rt,
        &found,
        &[0, 1, 2, 3, 4, 5],
        &[(0, 0), (1, 0), (1, 1), (3, 3), (1, 3), (1, 4)],
    );
}

#[test]
fn finds_no_graph_where_stairs_are_many(rt: HostRuntime) {
    holds(
        &rt,
        matches!(graph_of(&Stairs, rt.alloc(), 3, 10, 3, &Untold), Ok(None)),
    );
}

/// Four stairs are followed, and when the search comes to the end of the last three are kept.
#[test]
fn tells_how_far_it_is(rt: HostRuntime) {
    let told = LastTold {
        number: Cell::new(0),
        kept: Cell::new(0),
    };
    holds(
        &rt,
        matches!(
            graph_of(&Stairs, rt.alloc(), 3, 10, 100, &told),
            Ok(Some(_))
        ),
    );
    same(&rt, (told.number.get(), told.kept.get()), (4, 3));
}
