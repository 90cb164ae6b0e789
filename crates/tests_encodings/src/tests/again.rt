//! Paths that are encoded again with their known coverage queries, which are not searched again; these are worked out by
//! hand.

use super::maps::{BARE, LONG, PlainPath, Plan, WORKED, map_of, path_of};
use super::queries::{DETOUR, EQUAL, ROAD, ROUND, TOO_LONG_FIRST, WHOLE, grid_map};
use olr_map::RoadMap;
use olr_refs::{Encoding, KnownQuery, Margin, Path, encode, encode_again};
use olr_route::Dijkstra;
use std::alloc::Global;
use std::process::Abort;
use std::test::Fail;

/// A known coverage query: the line of the path at whose start it begins, the position where it ends, and whether that
/// position is covered.
type Known = (u32, u32, bool);

/// Asserts which coverage queries of a path are along its own lines.
fn expect_known(rt: &impl Abort, known: &[KnownQuery], wanted: &[Known]) {
    assert_eq!(rt; known.len(), wanted.len(), "as many as {wanted:?}");
    for k in 0..known.len() {
        let query = known[k];
        let found = (query.first, query.last, query.covered);
        assert_eq!(rt; found, wanted[k], "number {k} of {wanted:?}");
    }
}

/// Asserts that two encodings of a path are the same.
fn expect_same(rt: &impl Abort, first: &Encoding, second: &Encoding) {
    assert!(rt;
        first.queries.as_slice() == second.queries.as_slice(),
        "the queries"
    );
    assert!(rt;
        first.known.as_slice() == second.known.as_slice(),
        "the known queries"
    );
    assert_eq!(rt;
        first.traversed.as_slice(),
        second.traversed.as_slice(),
        "the nodes"
    );
}

/// A path encoded, and encoded again with its known coverage queries; and whether that took a search.
fn encode_twice(
    rt: &impl Abort,
    alloc: Global,
    map: &RoadMap,
    path: &Path,
    margin: Margin,
) -> (Encoding, Encoding, bool) {
    let mut search = Dijkstra::new(alloc);
    let Ok(first) = encode(alloc, map, path, margin, &mut search) else {
        panic!(rt; "no memory");
    };
    let mut unused = Dijkstra::new(alloc);
    let again = encode_again(alloc, map, path, margin, &first.known, &mut unused);
    match again {
        Ok(second) => (first, second, !unused.labelled_slots().is_empty()),
        Err(_) => panic!(rt; "no memory"),
    }
}

/// Asserts which coverage queries of a path are known, and that it is encoded again without a search if all are.
fn expect_again(rt: &impl Abort, alloc: Global, map: &RoadMap, plain: PlainPath, wanted: &[Known]) {
    let path = path_of(rt, alloc, plain);
    let (first, second, searched) = encode_twice(rt, alloc, map, &path, Margin::none());
    expect_known(rt, &first.known, wanted);
    expect_same(rt, &first, &second);
    assert_eq!(rt;
        searched,
        wanted.len() < first.queries.len(),
        "of {plain:?}"
    );
}

const CASES: &[(Plan, PlainPath, &[Known])] = &[
    // the side road is shorter than line 20, so that position 2 is not covered
    (WORKED, WHOLE, &[(1, 2, false)]),
    (EQUAL, WHOLE, &[(1, 2, false)]),
    (BARE, WHOLE, &[(1, 2, true)]),
    (DETOUR, ROAD, &[(1, 2, false)]),
    // nothing is tested, and no line is along the query
    (TOO_LONG_FIRST, ROAD, &[]),
    (LONG, ROAD, &[(1, 2, true)]),
    // the loop is not the shortest path; from the end of line 20 the rest is
    (
        ROUND,
        (&[10, 20, 30, 40, 50], 300, 250),
        &[(1, 4, false), (2, 4, true)],
    ),
];

#[test]
fn known_queries(rt: HostRuntime) -> Result<(), Fail> {
    for (plan, plain, wanted) in CASES {
        let map = map_of(rt.alloc(), *plan)?;
        expect_again(&rt, rt.alloc(), &map, *plain, wanted);
    }
    Ok(())
}

const ON_GRID: &[(PlainPath, &[Known])] = &[
    ((&[111, 112, 113, 114], 0, 0), &[(1, 3, true)]),
    (
        (&[111, 112, 313, 318, 123], 0, 0),
        &[(1, 3, false), (3, 4, true)],
    ),
    // A line is added before line 101, and one after line 104. The first query begins at the start of line 101, and the
    // other ends at the end of line 104.
    ((&[101, 102, 103, 104], 0, 0), &[(0, 2, true), (3, 4, true)]),
];

#[test]
fn known_queries_on_a_grid(rt: HostRuntime) {
    let map = grid_map(&rt, rt.alloc());
    for (plain, wanted) in ON_GRID {
        expect_again(&rt, rt.alloc(), &map, *plain, wanted);
    }
}
