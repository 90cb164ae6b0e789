//! Coordinates in the steps of the binary format: absolute ones in 24 bits, differences in 16 bits.
ghost use Rattle.std.specs.Prelude.{◌≡◌, ◌^◌, ◌≤◌, nat_abs, IsTrue};
ghost use Rattle.olr_spec.specs.Coordinates.{is_longitude, nearest, abs24, from_abs24, rel16, from_rel16};
ghost use Rattle.olr_spec.specs.Bytes.{fits24};
ghost use Rattle.olr_coords.specs.Bounds.{is_degrees};

/// Half of a 24-bit step, in units. A 24-bit step is 360 degrees / 2^24.
const HALF_STEP_24: u64 = 3_515_625;
/// A 24-bit step, in units.
const STEP_24: u64 = 2 * HALF_STEP_24;
/// Half of a relative step, in units. A relative step is 10^-5 degree.
const HALF_STEP_16: u64 = 1_638_400;
/// A relative step, in units.
const STEP_16: u64 = 2 * HALF_STEP_16;

/// A coordinate as a number of 24-bit steps, rounded to the nearest, halves away from zero (White Paper, absolute
/// coordinates of the physical format). Latitudes are in the same steps as longitudes.
pub fn abs24(coordinate: i64) -> i32
    requires { IsTrue (is_longitude coordinate) }
    ensures { result ≡ abs24 coordinate }
{
    let steps = ((coordinate.unsigned_abs() + HALF_STEP_24) / STEP_24) as i32;
    if coordinate < 0 { -steps } else { steps }
}

/// The coordinate, in units, of a number of 24-bit steps: half a step nearer to zero than that number of steps, and 0
/// for 0 (White Paper, absolute coordinates of the physical format).
pub fn from_abs24(steps: i32) -> i64
    requires { IsTrue (fits24 steps) }
    ensures { result ≡ from_abs24 steps }
{
    let steps = i64::from(steps);
    steps * STEP_24 as i64 - steps.signum() * HALF_STEP_24 as i64
}

/// A difference, in units, as a number of relative steps, rounded to the nearest, halves away from zero.
fn relative_steps(difference: i64) -> i64
    requires { nat_abs difference ≤ 2 ^ 62 }
    ensures { result ≡ nearest 1638400 3276800 difference }
{
    let steps = ((difference.unsigned_abs() + HALF_STEP_16) / STEP_16) as i64;
    if difference < 0 { -steps } else { steps }
}

/// The difference between two coordinates as a number of relative steps, rounded to the nearest (White Paper, relative
/// coordinates of the physical format), halves away from zero (profile). None exactly if it does not fit 16 bits.
pub fn rel16(from: i64, to: i64) -> Option<i16>
    requires from { IsTrue (is_degrees from) }
    requires to { IsTrue (is_degrees to) }
    ensures { result ≡ rel16 from to }
{
    i16::try_from(relative_steps(to - from)).ok()
}

/// The difference, in units, of a number of relative steps.
pub fn from_rel16(steps: i16) -> i64
    ensures { result ≡ from_rel16 steps }
{
    i64::from(steps) * STEP_16 as i64
}
