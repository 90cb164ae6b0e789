//! Encodings with a margin, worked out by hand.

use super::maps::{FIRST, PLACES, PlainPath, Plan, SECOND, STRAIGHT, THIRD, map_of, path_of};
use super::queries::{ROAD, Seen, expect_footprint, queries_of};
use olr_binary::to_text;
use olr_refs::{Answer, Margin, encode};
use olr_route::Dijkstra;
use std::alloc::Global;
use std::process::Abort;

/// What is expected of the encoding of a path with a margin of so many thousandths and classes: its reference as text,
/// and its coverage queries.
type Wanted = ((u32, u8), &'static str, &'static [Seen]);

/// The worked map with a side road that is longer than the line beside it, by 5 per cent.
const CLOSE: Plan = (
    PLACES,
    &[FIRST, SECOND, THIRD, (99, 2, 3, 4, 3, 2100, STRAIGHT)],
);

/// And by one decimetre more.
const APART: Plan = (
    PLACES,
    &[FIRST, SECOND, THIRD, (99, 2, 3, 4, 3, 2101, STRAIGHT)],
);

/// A loop by nodes 2 and 3, which the path passes twice, by line 11 and by lines 14 and 15. Its end, node 6, is a
/// degree-two node, so that line 25 is added.
const LOOP: Plan = (
    &[
        (1, 1_000_000, 5_000_000),
        (2, 1_000_100, 5_000_000),
        (3, 1_000_200, 5_000_000),
        (4, 1_000_100, 5_000_100),
        (5, 1_000_150, 4_999_900),
        (6, 1_000_300, 5_000_000),
        (7, 1_000_100, 5_000_300),
        (8, 1_000_200, 5_000_300),
        (9, 1_000_150, 4_999_700),
        (10, 1_000_000, 5_000_300),
        (11, 1_000_300, 5_000_300),
    ],
    &[
        (10, 1, 2, 3, 3, 100, STRAIGHT),
        (11, 2, 3, 3, 3, 100, STRAIGHT),
        (12, 3, 4, 3, 3, 300, STRAIGHT),
        (13, 4, 2, 3, 3, 300, STRAIGHT),
        (14, 2, 5, 3, 3, 49, STRAIGHT),
        (15, 5, 3, 3, 3, 51, STRAIGHT),
        (16, 3, 6, 3, 3, 200, STRAIGHT),
        (20, 2, 7, 3, 3, 500, STRAIGHT),
        (21, 3, 8, 3, 3, 500, STRAIGHT),
        (22, 5, 9, 3, 3, 500, STRAIGHT),
        (23, 4, 7, 3, 3, 900, STRAIGHT),
        (24, 1, 10, 3, 3, 500, STRAIGHT),
        (25, 6, 11, 3, 3, 500, STRAIGHT),
    ],
);

const ROUND_TWICE: PlainPath = (&[10, 11, 12, 13, 14, 15, 16], 0, 0);

/// The reference of the worked map's road as one leg, of class 5; and as two, of classes 3 and 5.
const ONE_LEG: &str = "CwRbWyNG9RqsDgCG/d4rGQ==";

const CASES: &[(Plan, PlainPath, Wanted)] = &[
    (CLOSE, ROAD, ((0, 0), ONE_LEG, &[(2, 3, 2000)])),
    // line 20 counts 2098 dm
    (CLOSE, ROAD, ((49, 0), ONE_LEG, &[(2, 3, 2098)])),
    // It counts 2100 dm, as much as the side road: there is a point at node 2. The classes are 4 and 6.
    (
        CLOSE,
        ROAD,
        ((50, 1), "CwRbWyNG9RqMCQCb/jsb1AT/6/+jKxk=", &[(2, 3, 2100)]),
    ),
    // class 6, and at most class 7
    (
        CLOSE,
        ROAD,
        ((0, 1), "CwRbWyNG9RrMDgCG/d4rGQ==", &[(2, 3, 2000)]),
    ),
    (
        CLOSE,
        ROAD,
        (
            (1000, 7),
            "CwRbWyNG9RrsCQCb/jsb9AT/6/+jKxk=",
            &[(2, 3, 4000)],
        ),
    ),
    (
        APART,
        ROAD,
        ((50, 1), "CwRbWyNG9RrMDgCG/d4rGQ==", &[(2, 3, 2100)]),
    ),
    // From node 2 to node 3 line 11 isn't shorter than lines 14 and 15, which count as they are there. From node 3 on
    // each line counts 5 per cent more, rounded up: 315, 315, 52 and 54 dm, and the loop ends where it begins. From node 3
    // on again line 16 is tested.
    (
        LOOP,
        ROUND_TWICE,
        (
            (50, 0),
            "CwccciOOORtoAABkAAAbaAEAMv+cG2EBAJYBkBswqg==",
            &[(2, 3, 105), (3, 3, 736), (3, 6, 210)],
        ),
    ),
];

/// Asserts that an answer is this reference.
fn expect_text(rt: &impl Abort, alloc: Global, answer: &Answer, wanted: &'static str) {
    let Answer::Points(reference) = answer else {
        panic!(rt; "no reference, but {wanted}")
    };
    let text = to_text(alloc, reference).expect(rt, "memory");
    assert_eq!(rt; text.as_str(), wanted, "the reference");
}

/// Asserts the reference and the coverage queries of a path on the map of a plan, with a margin, and its footprint.
fn expect_with_margin(
    rt: &impl Abort,
    alloc: Global,
    plan: Plan,
    plain: PlainPath,
    wanted: Wanted,
) {
    let ((routes, classes), text, queries) = wanted;
    let map = map_of(alloc, plan).expect(rt, "a map");
    let path = path_of(rt, alloc, plain);
    let margin = Margin::new(routes, classes).expect(rt, "a margin");
    let mut search = Dijkstra::new(alloc);
    let encoding = encode(alloc, &map, &path, margin, &mut search).expect(rt, "memory");
    expect_text(rt, alloc, &encoding.answer, text);
    let found = queries_of(alloc, &encoding).expect(rt, "memory");
    assert_eq!(rt; found.as_slice(), queries, "of {routes} and {classes}");
    let answer = expect_footprint(rt, alloc, &map, &path, margin, &encoding);
    expect_text(rt, alloc, &answer, text);
}

#[test]
fn encodings_with_a_margin(rt: HostRuntime) {
    for (plan, plain, wanted) in CASES {
        expect_with_margin(&rt, rt.alloc(), *plan, *plain, *wanted);
    }
}
