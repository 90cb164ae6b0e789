//! Degrees as text: reading.
ghost use Rattle.std.specs.Prelude.{◌≡◌, ◌^◌, ◌<◌, length, IfSome, IfOk, IfErr};
ghost use Rattle.olr_spec.specs.Degrees.{before_point, whole, fraction, unsigned_degrees, degrees, read_degrees};
ghost use Rattle.olr_coords.specs.Faults.{coord_fault_of};

use crate::digits::read_digits;
use crate::text::{GREATEST, STEP, STEPS};

/// The greatest number of digits of the whole degrees.
const WHOLE_DIGITS: usize = 3;
/// The greatest number of digits in the fraction of a degree.
const FRACTION_DIGITS: usize = 7;

/// Why a text is not read as degrees.
#[derive(Clone, Copy, Debug, PartialEq, Eq, thiserror::Error)]
pub enum CoordFault {
    /// The text does not have the form of degrees.
    #[error("not a number of degrees")]
    Text,
    /// The degrees are more than 180 either way.
    #[error("more than 180 degrees")]
    Range,
}

/// The whole degrees, in the finest steps.
fn whole(digits: &[u8]) -> Option<u64>
    ensures value { result ≡ whole digits.now }
    ensures bound { IfSome result (λ n. n < 10 ^ 10) }
{
    read_digits(digits, WHOLE_DIGITS).map(|degrees| degrees * STEPS)
}

/// What follows the whole degrees, in the finest steps: nothing, or a decimal point and digits.
#[tactic(auto, using(crate::proofs::DigitLemmas::digit_bounds))]
fn fraction(text: &[u8]) -> Option<u64>
    ensures value { result ≡ fraction text.now }
    ensures bound { IfSome result (λ n. n < 10 ^ 7) }
{
    let Some((first, digits)) = text.split_first() else {
        return Some(0);
    };
    if *first != b'.' {
        return None;
    }
    let value = read_digits(digits, FRACTION_DIGITS)?;
    let scale = FRACTION_DIGITS - digits.len();
    Some(value * 10_u64.pow(scale as u32))
}

/// The number of bytes before the first decimal point.
fn point(text: &[u8]) -> usize
    ensures { result ≡ length (before_point text.now) }
{
    text.iter().take_while(|byte| **byte != b'.').count()
}

/// Degrees without a sign, in units.
fn without_sign(text: &[u8]) -> Option<u64>
    ensures value { result ≡ unsigned_degrees text.now }
    ensures bound { IfSome result (λ n. n < 2 ^ 60) }
{
    let (before, rest) = text.split_at(point(text));
    let whole = whole(before)?;
    fraction(rest).map(|fraction| (whole + fraction) * STEP)
}

/// Degrees with an optional sign, in units.
fn degrees(text: &[u8]) -> Option<i64>
    ensures { result ≡ degrees text.now }
{
    if let [b'-', rest @ ..] = text {
        without_sign(rest).map(|units| -(units as i64))
    } else {
        without_sign(text).map(|units| units as i64)
    }
}

/// The coordinate, in units, of a text of degrees: an optional `-`, 1 to 3 digits, and optionally `.` with 1 to 7
/// digits (profile). A text of another form is the fault `Text`; degrees beyond 180 either way are `Range`.
pub fn read_degrees(text: &[u8]) -> Result<i64, CoordFault>
    ensures ok { IfOk result (λ units. read_degrees text.now ≡ Ok units) }
    ensures fault { IfErr result (λ fault. read_degrees text.now ≡ Err (coord_fault_of fault)) }
{
    let units = degrees(text).ok_or(CoordFault::Text)?;
    let in_range = (-GREATEST..=GREATEST).contains(&units);
    in_range.then_some(units).ok_or(CoordFault::Range)
}
