//! Decimal digits: reading.
ghost use Rattle.std.specs.Prelude.{◌≡◌, ◌^◌, ◌<◌, ◌≤◌, ◌&&◌, length, nat_le, if◌then◌else◌, IfSome};
ghost use Rattle.olr_spec.specs.Degrees.{are_digits, digits_value};

/// The value of decimal digits. None if there are no digits, more than `most`, or another byte among them.
#[inline]
#[tactic(auto, using(crate::proofs::DigitLemmas::digit_bounds))]
pub fn read_digits(digits: &[u8], most: usize) -> Option<u64>
    requires { most ≤ 18 }
    ensures value { result
        ≡ (if are_digits digits.now && nat_le (length digits.now) most
        then Some (digits_value digits.now)
        else None) }
    ensures bound { IfSome result (λ n. n < 10 ^ length digits.now) }
{
    if digits.is_empty() || digits.len() > most {
        return None;
    }
    let mut value: u64 = 0;
    for byte in digits {
        if !byte.is_ascii_digit() {
            return None;
        }
        value = 10 * value + u64::from(*byte - b'0');
    }
    Some(value)
}
