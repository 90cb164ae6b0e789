//! The 32 sectors of the compass, of 11.25 degrees each, clockwise from north.
ghost use Rattle.std.specs.Prelude.{◌≡◌, ◌<◌, ◌≤◌, ◌^◌, pos};
ghost use Rattle.olr_spec.specs.Bearings.{sector, IsSector};
ghost use Rattle.olr_bearing.specs.Ranges.{IsPart};

/// One, in millionths.
const ONE: u128 = 1_000_000;
/// The tangent of 11.25 degrees, in millionths.
const TANGENT_11: u128 = 198_912;
/// The tangent of 22.5 degrees, in millionths.
const TANGENT_22: u128 = 414_214;
/// The tangent of 33.75 degrees, in millionths.
const TANGENT_33: u128 = 668_179;

/// The sector of a direction, from its parts to the east and to the north: 0 to 31, clockwise from north. Both parts
/// are at most 10^31 either way.
///
/// A direction on a boundary belongs to the sector that starts there, and (0, 0) to sector 0 (profile).
pub fn sector(east: i128, north: i128) -> u8
    requires east { IsPart east }
    requires north { IsPart north }
    ensures value { result ≡ sector east north }
    ensures between { ¬ ((east ≡ pos 0) × (north ≡ pos 0)) → IsSector east north result }
    ensures below { result < 32 }
{
    let east_west = east.unsigned_abs();
    let north_south = north.unsigned_abs();
    if east == 0 && north == 0 {
        0
    } else if east >= 0 && north > 0 {
        quarter_sector(east_west, north_south)
    } else if east > 0 {
        8 + quarter_sector(north_south, east_west)
    } else if north < 0 {
        16 + quarter_sector(east_west, north_south)
    } else {
        24 + quarter_sector(north_south, east_west)
    }
}

/// The sector of a direction in the first quarter, from north to before east.
fn quarter_sector(east: u128, north: u128) -> u8
    requires east { east ≤ 10 ^ 31 }
    requires north { north ≤ 10 ^ 31 }
    requires northward { 0 < north }
    ensures below { result < 8 }
    ensures between { IsSector (pos east) (pos north) result }
{
    let across = east * ONE;
    let up = north * ONE;
    if across < north * TANGENT_22 {
        if across < north * TANGENT_11 { 0 } else { 1 }
    } else if east < north {
        if across < north * TANGENT_33 { 2 } else { 3 }
    } else if east * TANGENT_22 < up {
        if east * TANGENT_33 < up { 4 } else { 5 }
    } else if east * TANGENT_11 < up {
        6
    } else {
        7
    }
}
