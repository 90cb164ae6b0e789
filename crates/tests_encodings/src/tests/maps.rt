//! Maps on which location reference points (LRPs) and coverage queries were worked out by hand, paths on them, and short
//! functions for nodes, lines and edits.

use olr_coords::Coord;
use olr_map::{Edit, EditFault, Line, LineId, NodeId, RoadMap, Shape};
use olr_refs::Path;
use std::alloc::{AllocError, Global};
use std::process::Abort;

/// A node: its number, and its longitude and latitude in 1/100,000 degree.
pub type Place = (u32, i32, i32);

/// A shape point of a line: its distance from the start of the line, in decimetres, its longitude and latitude.
pub type Bend = (u32, i32, i32);

/// A line: its number, the nodes where it begins and ends, class, form of way, length in decimetres, and its bends.
pub type Road = (u32, u32, u32, u8, u8, u32, &'static [Bend]);

/// The nodes and the lines of a map.
pub type Plan = (&'static [Place], &'static [Road]);

/// A line without bends, of class 4 and form 3: its number, the nodes where it begins and ends, and its length.
pub type Plain = (u32, u32, u32, u32);

/// No bends.
pub const STRAIGHT: &[Bend] = &[];

/// The nodes of the worked map.
pub const PLACES: &[Place] = &[
    (1, 612_683, 4_960_852),
    (2, 612_838, 4_960_399),
    (3, 612_790, 4_960_350),
    (4, 612_817, 4_960_306),
];

/// Its first line.
pub const FIRST: Road = (
    10,
    1,
    2,
    3,
    2,
    5610,
    &[(200, 612_701, 4_960_838), (5410, 612_820, 4_960_413)],
);

/// Its second line.
pub const SECOND: Road = (20, 2, 3, 3, 3, 2000, &[(200, 612_820, 4_960_389)]);

/// Its third line.
pub const THIRD: Road = (30, 3, 4, 5, 3, 740, &[(540, 612_792, 4_960_311)]);

/// The side road beside the second line, which is shorter than it.
pub const SIDE: Road = (99, 2, 3, 4, 3, 1500, STRAIGHT);

/// The worked map: a road of three lines from node 1 to node 4, and the side road, which is added first.
pub const WORKED: Plan = (PLACES, &[SIDE, FIRST, SECOND, THIRD]);

/// A path: its lines, and the positive and the negative offset in decimetres.
pub type PlainPath = (&'static [u32], u32, u32);

/// The worked map without its side road.
pub const BARE: Plan = (PLACES, &[FIRST, SECOND, THIRD]);

/// A road of two lines each way over a degree-two node, node 2.
pub const PASSING: Plan = (
    &[(1, 0, 0), (2, 100, 0), (3, 200, 0)],
    &[
        (10, 1, 2, 4, 3, 1000, STRAIGHT),
        (11, 2, 1, 4, 3, 1000, STRAIGHT),
        (20, 2, 3, 4, 3, 1000, STRAIGHT),
        (21, 3, 2, 4, 3, 1000, STRAIGHT),
    ],
);

/// The nodes of a road that is longer than two LRPs may be apart, and of a side road at node 2.
pub const LONG_PLACES: &[Place] = &[
    (1, 0, 0),
    (2, 0, 9000),
    (3, 0, 12_600),
    (4, 0, 16_200),
    (5, 1000, 9000),
];

/// Its three lines and the side road.
pub const LONG: Plan = (
    LONG_PLACES,
    &[
        (10, 1, 2, 2, 3, 100_000, STRAIGHT),
        (20, 2, 3, 2, 3, 40_000, STRAIGHT),
        (30, 3, 4, 2, 3, 40_000, STRAIGHT),
        (40, 2, 5, 2, 3, 10_000, STRAIGHT),
    ],
);

/// The long road without the side road.
pub const LONG_BARE: Plan = (
    LONG_PLACES,
    &[
        (10, 1, 2, 2, 3, 100_000, STRAIGHT),
        (20, 2, 3, 2, 3, 40_000, STRAIGHT),
        (30, 3, 4, 2, 3, 40_000, STRAIGHT),
    ],
);

/// The node with this number; node 1 for the number 0.
pub fn node(number: u32) -> NodeId {
    NodeId::new(number).unwrap_or_default()
}

/// The line with this number; line 1 for the number 0.
pub fn line(number: u32) -> LineId {
    LineId::new(number).unwrap_or_default()
}

/// The coordinate with this longitude and latitude, in 1/100,000 degree; (0, 0) if it is out of range.
pub fn place(lon: i32, lat: i32) -> Coord {
    match Coord::new(i64::from(lon) * 3_276_800, i64::from(lat) * 3_276_800) {
        Some(place) => place,
        None => Coord::new(0, 0).unwrap(),
    }
}

/// The lines with these numbers.
pub fn lines(alloc: Global, numbers: &[u32]) -> Result<Vec<LineId>, AllocError> {
    let mut ids = Vec::new(alloc);
    for number in numbers {
        ids.push(line(*number))?;
    }
    Ok(ids)
}

/// The edit that adds a node.
pub fn new_node(place_of: Place) -> Edit {
    let (number, lon, lat) = place_of;
    Edit::AddNode(node(number), place(lon, lat))
}

/// The shape of a line with these bends.
pub fn shape(alloc: Global, bends: &[Bend]) -> Result<Vec<Shape>, AllocError> {
    let mut shape = Vec::new(alloc);
    for (at, lon, lat) in bends {
        shape.push(Shape {
            at: *at,
            place: place(*lon, *lat),
        })?;
    }
    Ok(shape)
}

/// The edit that adds a line.
pub fn new_line(alloc: Global, road: Road) -> Result<Edit, AllocError> {
    let (number, from, to, frc, fow, len, bends) = road;
    let record = Line {
        from: node(from),
        to: node(to),
        frc,
        fow,
        len,
        shape: shape(alloc, bends)?,
    };
    Ok(Edit::AddLine(line(number), record))
}

/// The edit that adds a line without bends, of class 4 and form 3.
pub fn plain_line(alloc: Global, plain: Plain) -> Edit {
    let (number, from, to, len) = plain;
    let record = Line {
        from: node(from),
        to: node(to),
        frc: 4,
        fow: 3,
        len,
        shape: Vec::new(alloc),
    };
    Edit::AddLine(line(number), record)
}

/// Makes an edit, and discards its undo record.
pub fn make(map: &mut RoadMap, edit: Edit) -> Result<(), EditFault> {
    let undo = map.apply(edit)?;
    map.keep(undo);
    Ok(())
}

/// The edits that make a map: its nodes, and then its lines.
pub fn edits_of(alloc: Global, plan: Plan) -> Result<Vec<Edit>, AllocError> {
    let (places, roads) = plan;
    let mut edits = Vec::new(alloc);
    for place in places {
        edits.push(new_node(*place))?;
    }
    for road in roads {
        edits.push(new_line(alloc, *road)?)?;
    }
    Ok(edits)
}

/// The map of these nodes and lines.
pub fn map_of(alloc: Global, plan: Plan) -> Result<RoadMap, EditFault> {
    let edits = edits_of(alloc, plan).or(Err(EditFault::Memory))?;
    let mut map = RoadMap::new(alloc);
    for edit in edits {
        make(&mut map, edit)?;
    }
    Ok(map)
}

/// A path with these lines and offsets.
pub fn path_of(rt: &impl Abort, alloc: Global, plain: PlainPath) -> Path {
    let (numbers, pos, neg) = plain;
    let lines = lines(alloc, numbers).expect(rt, "memory");
    Path::new(alloc, lines, pos, neg).expect(rt, "a path")
}

/// Makes an edit, which the map must accept, and discards its undo record.
pub fn edit(rt: &impl Abort, map: &mut RoadMap, edit: Edit) {
    make(map, edit).expect(rt, "an edit that is taken");
}
