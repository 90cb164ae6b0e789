//! Traversed nodes and coverage queries of encodings, worked out by hand, and the footprints that they make up.

use super::maps::{
    BARE, FIRST, LONG, LONG_BARE, PASSING, PLACES, Place, PlainPath, Plan, SECOND, SIDE, STRAIGHT,
    THIRD, WORKED, edit, map_of, new_node, path_of, plain_line,
};
use olr_map::{Edit, Footprint, RoadMap};
use olr_refs::{Answer, Encoding, Margin, Path, encode, refer_with};
use olr_route::{Dijkstra, Direction, GREATEST_LIMIT, Work, settled_search};
use std::alloc::{AllocError, Global};
use std::process::Abort;

/// A coverage query: the node where it begins, that of the last position that it tested, and what the path between
/// counts, in decimetres.
pub type Seen = (u32, u32, u32);

/// What is expected of an encoding: its traversed nodes, and its coverage queries.
type Wanted = (&'static [u32], &'static [Seen]);

/// The traversed nodes, and those that a route of at most the length of a coverage query reaches from its start; and how
/// many the latter are for all queries in total.
fn seen(rt: &impl Abort, alloc: Global, map: &RoadMap, encoding: &Encoding) -> (Footprint, u64) {
    let mut nodes = Footprint::new(alloc);
    let mut reached_by_all: u64 = 0;
    let noted = nodes.note_all(encoding.traversed.as_slice());
    noted.expect(rt, "memory");
    for query in &encoding.queries {
        let begin = [(query.from, 0)];
        let within = query.within.min(GREATEST_LIMIT);
        let search = settled_search(alloc, map, Direction::Along, &begin, within);
        let reached = search.expect(rt, "memory").nodes(alloc, map);
        for node in &reached.expect(rt, "memory") {
            nodes.note(*node).expect(rt, "memory");
            reached_by_all = reached_by_all.saturating_add(1);
        }
    }
    (nodes, reached_by_all)
}

/// The answer of a path with a margin, by `refer_with`. Asserts that the traversed nodes of its encoding and its queries make
/// up the footprint, which a search for each of these finds.
pub fn expect_footprint(
    rt: &impl Abort,
    alloc: Global,
    map: &RoadMap,
    path: &Path,
    margin: Margin,
    encoding: &Encoding,
) -> Answer {
    let (wanted, settled) = seen(rt, alloc, map, encoding);
    let mut work = Work::default();
    let referred = refer_with(alloc, map, path, margin, &mut work);
    let (answer, found) = referred.expect(rt, "memory");
    assert_eq!(rt; found.as_slice(), wanted.as_slice(), "the footprint");
    let searches = encoding.queries.len() as u64;
    let counted = (work.encodings, work.searches, work.settled);
    assert_eq!(rt; counted, (1, searches, settled), "the work");
    answer
}

/// The numbers of the traversed nodes of an encoding.
fn traversed_of(alloc: Global, encoding: &Encoding) -> Result<Vec<u32>, AllocError> {
    let mut traversed = Vec::new(alloc);
    for node in encoding.traversed.as_slice() {
        traversed.push(node.number())?;
    }
    Ok(traversed)
}

/// The coverage queries of an encoding.
pub fn queries_of(alloc: Global, encoding: &Encoding) -> Result<Vec<Seen>, AllocError> {
    let mut queries = Vec::new(alloc);
    for query in &encoding.queries {
        queries.push((query.from.number(), query.to.number(), query.within))?;
    }
    Ok(queries)
}

/// Asserts the traversed nodes and the coverage queries of the encoding of a path.
fn expect_seen(
    rt: &impl Abort,
    alloc: Global,
    encoding: &Encoding,
    wanted: Wanted,
    plain: PlainPath,
) {
    let traversed = traversed_of(alloc, encoding).expect(rt, "memory");
    let queries = queries_of(alloc, encoding).expect(rt, "memory");
    assert_eq!(rt;
        (traversed.as_slice(), queries.as_slice()),
        wanted,
        "of {plain:?}"
    );
}

/// Asserts the traversed nodes and coverage queries of a path on a map, and that they make up its footprint.
fn expect_queries(rt: &impl Abort, alloc: Global, map: &RoadMap, plain: PlainPath, wanted: Wanted) {
    let path = path_of(rt, alloc, plain);
    let mut search = Dijkstra::new(alloc);
    let encoding = encode(alloc, map, &path, Margin::none(), &mut search).expect(rt, "memory");
    expect_seen(rt, alloc, &encoding, wanted, plain);
    let _ = expect_footprint(rt, alloc, map, &path, Margin::none(), &encoding);
}

/// The worked map with a side road as long as the line beside it.
pub const EQUAL: Plan = (
    PLACES,
    &[FIRST, SECOND, THIRD, (99, 2, 3, 4, 3, 2000, STRAIGHT)],
);

/// The worked map without its second line.
const BROKEN: Plan = (PLACES, &[FIRST, THIRD, SIDE]);

/// The worked map without its side road, with a detour around the second line by nodes 6 and 7.
pub const DETOUR: Plan = (
    &[
        (1, 612_683, 4_960_852),
        (2, 612_838, 4_960_399),
        (3, 612_790, 4_960_350),
        (4, 612_817, 4_960_306),
        (6, 612_900, 4_960_400),
        (7, 612_900, 4_960_350),
    ],
    &[
        FIRST,
        SECOND,
        THIRD,
        (60, 2, 6, 4, 3, 700, STRAIGHT),
        (61, 6, 7, 4, 3, 600, STRAIGHT),
        (62, 7, 3, 4, 3, 700, STRAIGHT),
    ],
);

/// Nodes in a row.
const ROW: &[Place] = &[(1, 0, 0), (2, 0, 10_000), (3, 0, 11_000), (4, 0, 12_000)];

/// A line as long as two LRPs may be apart, one a decimetre longer, and that one with two lines after it.
const LONGEST: Plan = (ROW, &[(10, 1, 2, 0, 1, 150_000, STRAIGHT)]);

const TOO_LONG: Plan = (ROW, &[(10, 1, 2, 0, 1, 150_001, STRAIGHT)]);

pub const TOO_LONG_FIRST: Plan = (
    ROW,
    &[
        (10, 1, 2, 0, 1, 150_001, STRAIGHT),
        (20, 2, 3, 0, 1, 1000, STRAIGHT),
        (30, 3, 4, 0, 1, 1000, STRAIGHT),
    ],
);

/// A loop from node 2 to node 2.
pub const ROUND: Plan = (
    &[
        (1, 0, 0),
        (2, 100, 0),
        (3, 200, 100),
        (4, 200, -100),
        (5, 100, -100),
    ],
    &[
        (10, 1, 2, 4, 3, 1200, STRAIGHT),
        (20, 2, 3, 5, 3, 1500, STRAIGHT),
        (30, 3, 4, 6, 2, 2000, STRAIGHT),
        (40, 4, 2, 5, 3, 1500, STRAIGHT),
        (50, 2, 5, 4, 3, 1000, STRAIGHT),
    ],
);

pub const WHOLE: PlainPath = (&[10, 20, 30], 1500, 0);

pub const ROAD: PlainPath = (&[10, 20, 30], 0, 0);

const FOUR: &[u32] = &[1, 2, 3, 4];

const CASES: &[(Plan, PlainPath, Wanted)] = &[
    // From node 2, where line 10 ends, to node 3 the path has 2000 dm by line 20, and the side road has 1500 dm. Only
    // line 30 follows line 20, so there is no coverage query from there.
    (WORKED, WHOLE, (FOUR, &[(2, 3, 2000)])),
    // of two equally long routes neither is the unique shortest path
    (EQUAL, WHOLE, (FOUR, &[(2, 3, 2000)])),
    // without the side road position 2 is covered, and it is the last that is tested
    (BARE, WHOLE, (FOUR, &[(2, 3, 2000)])),
    // nodes 6 and 7 of the detour are not traversed
    (DETOUR, ROAD, (FOUR, &[(2, 3, 2000)])),
    // line 10 is added at the start, so node 1 is a traversed node; two lines need no coverage query
    (PASSING, (&[20], 0, 0), (&[1, 2, 3], &[])),
    // one decimetre more, and there is no next LRP after the start
    (LONGEST, (&[10], 0, 0), (&[1, 2], &[])),
    (TOO_LONG, (&[10], 0, 0), (&[1, 2], &[])),
    // no position is within the limit, so none is tested: the coverage query ends where it begins
    (TOO_LONG_FIRST, ROAD, (FOUR, &[(2, 2, 0)])),
    // Position 2, at 140,000 dm, is covered, and it is the last before the end. Node 5 is on the side road.
    (LONG, ROAD, (FOUR, &[(2, 3, 40_000)])),
    (LONG_BARE, ROAD, (FOUR, &[(2, 3, 40_000)])),
    // From node 2 the loop to node 2 is not the shortest path: its length is 5000 dm, and that of staying there is 0.
    // Node 2 is the next LRP, and from the end of line 20 all is covered as far as line 50: 3500 dm.
    (
        ROUND,
        (&[10, 20, 30, 40, 50], 300, 250),
        (&[1, 2, 3, 4, 5], &[(2, 2, 5000), (3, 2, 3500)]),
    ),
    // a line of the path is not on the map
    (BROKEN, WHOLE, (&[], &[])),
];

#[test]
fn traversed_nodes_and_queries(rt: HostRuntime) {
    for (plan, plain, wanted) in CASES {
        let map = map_of(rt.alloc(), *plan).expect(&rt, "a map");
        expect_queries(&rt, rt.alloc(), &map, *plain, *wanted);
    }
}

/// The edit that adds a line between two neighbours of the grid.
fn road(alloc: Global, number: u32, from: u32, to: u32) -> Edit {
    plain_line(alloc, (number, from, to, 40_000))
}

/// A grid of five by five nodes, row by row, with a line each way between neighbours, so long that at most three in a
/// row are within 150,000 dm. From node n lines 100 + n, 200 + n, 300 + n and 400 + n lead east, west, north and south.
pub fn grid_map(rt: &impl Abort, alloc: Global) -> RoadMap {
    let mut map = RoadMap::new(alloc);
    for node in 0..25 {
        let (column, row) = ((node % 5) as i32, (node / 5) as i32);
        edit(
            rt,
            &mut map,
            new_node((node + 1, 1000 * column, 1000 * row)),
        );
    }
    for node in 1..26 {
        if node % 5 != 0 {
            edit(rt, &mut map, road(alloc, 100 + node, node, node + 1));
            edit(rt, &mut map, road(alloc, 201 + node, node + 1, node));
        }
        if node <= 20 {
            edit(rt, &mut map, road(alloc, 300 + node, node, node + 5));
            edit(rt, &mut map, road(alloc, 405 + node, node + 5, node));
        }
    }
    map
}

const ON_GRID: &[(PlainPath, Wanted)] = &[
    // No route is as short as straight on. From node 11 three lines are within the limit, so the coverage query ends
    // where the fourth begins. That node is the next LRP, and only one line is after it.
    (
        (&[111, 112, 113, 114], 0, 0),
        (&[11, 12, 13, 14, 15], &[(12, 14, 80_000)]),
    ),
    // From node 12 to node 18 around the corner there are two equally long routes, so node 13 is an LRP. From node 18,
    // the end of line 313, it is straight on to node 23, where the last line begins.
    (
        (&[111, 112, 313, 318, 123], 0, 0),
        (
            &[11, 12, 13, 18, 23, 24],
            &[(12, 18, 80_000), (18, 23, 40_000)],
        ),
    ),
    // Nodes 1 and 5 are degree-two nodes, so line 406 from node 6 is added at the start, and line 305 to node 10 at the
    // end. From node 1 three lines are within the limit for a coverage query as far as node 3, which is the next LRP;
    // from node 4 only line 104 is tested.
    (
        (&[101, 102, 103, 104], 0, 0),
        (&[1, 2, 3, 4, 5, 6, 10], &[(1, 3, 80_000), (4, 5, 40_000)]),
    ),
];

#[test]
fn queries_on_a_grid(rt: HostRuntime) {
    let map = grid_map(&rt, rt.alloc());
    for (plain, wanted) in ON_GRID {
        expect_queries(&rt, rt.alloc(), &map, *plain, *wanted);
    }
}
