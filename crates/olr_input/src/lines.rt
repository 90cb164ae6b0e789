//! Lines in bytes.

ghost use Rattle.std.specs.Prelude.{◌≡◌, ◌≤◌, length, drop, true, false};
ghost use Rattle.olr_input.specs.Lines.{has_line, is_line_end, HasLinesUpTo};

use memchr::{memchr, memchr2, memchr3, memrchr2};

/// Whether a byte ends a record outside of quotes.
pub fn ends_line(byte: u8) -> bool
    ensures { result ≡ is_line_end byte }
{
    byte == b'\n' || byte == b'\r'
}

/// The number of bytes before the first that ends no line.
fn empty_lines_length(bytes: &[u8]) -> usize
    ensures within { result ≤ length bytes.now }
    ensures line { has_line false bytes.now ≡ has_line true (drop result bytes.now) }
{
    for i in 0..bytes.len() {
        if !ends_line(bytes[i]) {
            return i;
        }
    }
    bytes.len()
}

/// Whether a line that isn't empty ends in bytes.
pub(crate) fn ends_any(bytes: &[u8]) -> bool {
    memchr2(b'\n', b'\r', &bytes[empty_lines_length(bytes)..]).is_some()
}

/// The index of the last byte that ends a line before the first quote, or 0.
#[tactic(auto, using(crate::proofs::WholeLines::last_end))]
pub(crate) fn last_plain_end(bytes: &[u8]) -> usize
    ensures { HasLinesUpTo result bytes.now }
{
    let len = memchr(b'"', bytes).unwrap_or(bytes.len());
    memrchr2(b'\n', b'\r', &bytes[..len]).unwrap_or(0)
}

/// Whether bytes from an index on begin with a line that ends and has no quote, after empty lines: csv reads a whole record
/// from them. So they do if the line begins before `last`.
pub(crate) fn begins_with_line(bytes: &[u8], start: usize, last: usize) -> bool
    requires known { HasLinesUpTo last bytes.now }
    requires within { start ≤ length bytes.now }
    ensures { result ≡ has_line false (drop start bytes.now) }
{
    let count = empty_lines_length(&bytes[start..]);
    let begin = start + count;
    if begin < last {
        return true;
    }
    let line = &bytes[begin..];
    match memchr3(b'\n', b'\r', b'"', line) {
        Some(i) => line[i] != b'"',
        None => false,
    }
}
