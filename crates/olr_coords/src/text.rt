//! Degrees as text: writing.
ghost use Rattle.std.specs.Prelude.{◌≡◌, ◌<◌, ◌^◌, ◌++◌, IsTrue, Ok, OnOk};
ghost use Rattle.olr_spec.specs.Degrees.{read_degrees};
ghost use Rattle.olr_coords.specs.DegreesText.{decimals, after_point, degrees_text, has_degrees_text};

use itoa::Buffer;
use std::alloc::AllocError;

/// The greatest number of digits in the fraction of a degree.
const FRACTION_DIGITS: u32 = 7;
/// The number of finest steps, of 10^-7 degree, in a degree.
pub(crate) const STEPS: u64 = 10_000_000;
/// A finest step, 10^-7 degree, in units.
pub(crate) const STEP: u64 = 32_768;
/// The greatest coordinate that is read or written, 180 degrees, in units; the least is its negative.
pub(crate) const GREATEST: i64 = 58_982_400_000_000;

/// Whether a coordinate, in units, can be written in degrees: it is a whole number of 10^-7 degrees, at most 180
/// degrees either way.
pub fn has_degrees_text(units: i64) -> bool
    ensures { result ≡ has_degrees_text units }
{
    (-GREATEST..=GREATEST).contains(&units) && units.unsigned_abs() % STEP == 0
}

/// Appends a coordinate, in units, as degrees: with as many decimals as are needed, at most seven, and with `-` only if
/// it is less than zero. Fails if an allocation fails.
#[tactic(auto, using(crate::proofs::DegreesTextLemmas::read_back))]
pub fn push_degrees(text: &mut Vec<u8>, units: i64) -> Result<(), AllocError>
    requires { IsTrue (has_degrees_text units) }
    ensures text { OnOk result (text.new.items ≡ text.old.items ++ degrees_text units) }
    ensures read { read_degrees (degrees_text units) ≡ Ok units }
{
    if units < 0 {
        text.push(b'-')?;
    }
    let steps = units.unsigned_abs() / STEP;
    text.extend_from_slice(Buffer::new().format(steps / STEPS).as_bytes())?;
    push_fraction(text, steps % STEPS)
}

/// Appends a decimal point and the digits of a fraction, in 10^-7 degrees, up to the last that isn't zero; nothing if the
/// fraction is zero.
#[tactic(auto, using(crate::proofs::DegreesTextLemmas::digit_steps))]
fn push_fraction(text: &mut Vec<u8>, fraction: u64) -> Result<(), AllocError>
    requires { fraction < 10 ^ 7 }
    ensures { OnOk result (text.new.items ≡ text.old.items ++ after_point (decimals 7 fraction)) }
{
    if fraction == 0 {
        return Ok(());
    }
    text.push(b'.')?;
    let mut rest = fraction;
    let mut places = FRACTION_DIGITS;
    while rest > 0 {
        places -= 1;
        let scale = 10_u64.pow(places);
        text.push(b'0' + (rest / scale) as u8)?;
        rest %= scale;
    }
    Ok(())
}
