//! The size of a log at which it is compacted.

ghost use Rattle.std.specs.Prelude.{◌≡◌, ◌-◌, ◌<◌, ◌==◌, true, false, take, length, option_map, MatchOption};
ghost use Rattle.olr_run.specs.Sizes.{NoSize, IsSize, IsLength, last_byte, unit_of, digits_of};

/// The text before this letter, if a text ends with it.
fn before(text: &str, letter: char) -> Option<&str>
    requires { (0 < letter) × (letter < 128) }
    ensures { MatchOption result ((last_byte text.now == letter) ≡ false)
        (λ front. ((last_byte text.now == letter) ≡ true) × (front.now ≡ take (length text.now - 1) text.now)) }
{
    text.strip_suffix(letter)
}

/// The text before a unit, and the number of bytes that the unit stands for: one if there is none.
fn split_unit(text: &str) -> (&str, usize)
    ensures digits { result.0.now ≡ digits_of text.now }
    ensures unit { result.1 ≡ unit_of text.now }
{
    if let Some(digits) = before(text, 'K') {
        return (digits, 1 << 10);
    }
    if let Some(digits) = before(text, 'M') {
        return (digits, 1 << 20);
    }
    if let Some(digits) = before(text, 'G') {
        return (digits, 1 << 30);
    }
    (text, 1)
}

/// The number of bytes that a size names, from 1 on: K, M and G are powers of 1,024. None if the text is no size, or the number
/// has more than 64 bits.
fn size(text: &str) -> Option<usize>
    ensures { MatchOption result (NoSize text.now) (IsSize text.now) }
{
    let (digits, unit) = split_unit(text);
    let count = digits.parse::<usize>().ok()?;
    if count == 0 {
        return None;
    }
    count.checked_mul(unit)
}

/// The least length of a log that is compacted; none is if no size is given. None if what is given is no size.
pub fn compaction_length(chosen: Option<&str>) -> Option<usize>
    ensures { IsLength (option_map (λ text. text.now) chosen.entry) result }
{
    match chosen {
        Some(text) => size(text),
        None => Some(usize::MAX),
    }
}
