//! The lines of counts and of LRPs, whose numbers are written backwards from the end.
ghost use Rattle.std.specs.Prelude.{◌≡◌, ◌≤◌, ◌+◌, ◌++◌, ◌∷◌, [], decimal, drop, length, map, OnOk};
ghost use Rattle.std.specs.Fmt.{signed_decimal};
ghost use Rattle.olr_commands.specs.RecordText.{after_commas, fields_line};
ghost use Rattle.olr_records.specs.ReplyText.{StandsBefore};

use itoa::write_digits;
use olr_commands::push_number;
use std::alloc::AllocError;

/// The size of the buffer for the end of a line: an LRP has two coordinates of at most 11 bytes, five numbers of at
/// most 3, their commas, and a line feed.
const ROOM: usize = 64;

/// Writes a byte before index `end`, and returns its index.
fn put_byte(line: &mut [u8], end: usize, byte: u8) -> usize
    requires within { end ≤ length line.old }
    requires room { 1 ≤ end }
    ensures start { result + 1 ≡ end }
    ensures written { drop result line.new ≡ byte ∷ drop end line.old }
    ensures size { length line.new ≡ length line.old }
{
    line[end - 1] = byte;
    end - 1
}

/// Writes a number before index `end`, and returns the index where it starts. Most numbers of an LRP have one digit. Of the
/// others three digits are written in any case, also a zero that isn't part of the number, since a choice costs more.
#[tactic(auto, using(crate::proofs::TextLemmas::two_digits, crate::proofs::TextLemmas::three_digits, crate::proofs::TextLemmas::after_first, std::proofs::lemmas::Fmt::decimal_digit))]
fn put_byte_number(line: &mut [u8], end: usize, number: u8) -> usize
    requires within { end ≤ length line.old }
    requires room { 3 ≤ end }
    ensures start { result + length (decimal number) ≡ end }
    ensures written { drop result line.new ≡ decimal number ++ drop end line.old }
    ensures size { length line.new ≡ length line.old }
{
    if number < 10 {
        return put_byte(line, end, b'0' + number);
    }
    let rest = number / 10;
    let ones = put_byte(line, end, b'0' + number % 10);
    let tens = put_byte(line, ones, b'0' + rest % 10);
    let hundreds = put_byte(line, tens, b'0' + rest / 10);
    if number < 100 {
        return tens;
    }
    hundreds
}

/// Writes a comma and a number before index `end`, and returns the index where they start.
#[tactic(auto, using(crate::proofs::TextLemmas::byte_digits))]
fn put_number(line: &mut [u8], end: usize, number: u8) -> usize
    requires within { end ≤ length line.old }
    requires room { 4 ≤ end }
    ensures { StandsBefore (44 ∷ decimal number) end 4 line.old result line.new }
{
    let start = put_byte_number(line, end, number);
    put_byte(line, start, b',')
}

/// Writes a comma and a coordinate before index `end`, and returns the index where they start. A minus sign is written in
/// any case, and replaced by the comma if the coordinate has none.
#[tactic(auto, using(crate::proofs::TextLemmas::word_digits, crate::proofs::TextLemmas::after_first))]
fn put_coordinate(line: &mut [u8], end: usize, coordinate: i32) -> usize
    requires within { end ≤ length line.old }
    requires room { 12 ≤ end }
    ensures { StandsBefore (44 ∷ signed_decimal coordinate) end 12 line.old result line.new }
{
    let digits = write_digits(u64::from(coordinate.unsigned_abs()), line, end);
    let mut start = put_byte(line, digits, b'-');
    if coordinate >= 0 {
        start = digits;
    }
    put_byte(line, start, b',')
}

/// Writes these numbers before index `end`, each after a comma, and returns the index where they start.
fn put_numbers(line: &mut [u8], end: usize, numbers: &[u8]) -> usize
    requires within { end ≤ length line.old }
    requires few { length numbers.now ≤ 5 }
    requires room { 20 ≤ end }
    ensures { StandsBefore (after_commas (map decimal numbers.now)) end 20 line.old result line.new }
{
    let mut start = end;
    let mut k = numbers.len();
    while k > 0 {
        k -= 1;
        start = put_number(line, start, numbers[k]);
    }
    start
}

/// The line of a word and a count. One function for each length of a word, which is copied without a call.
pub(crate) fn push_count<const N: usize>(
    text: &mut Vec<u8>,
    word: &[u8; N],
    count: usize,
) -> Result<(), AllocError>
    ensures { OnOk result (text.new.items ≡ text.old.items ++ fields_line (word.now ∷ decimal count ∷ [])) }
{
    text.extend_from_slice(word)?;
    if count < 256 {
        let mut end = [b'\n'; 5];
        let start = put_number(&mut end, 4, count as u8);
        return text.extend_from_slice(&end[start..]);
    }
    push_number(text, count)?;
    text.extend_from_slice(b"\n")
}

/// The line of an LRP: a word, two coordinates and numbers. One function for each length of a word, which is copied without
/// a call.
pub(crate) fn push_point<const N: usize>(
    text: &mut Vec<u8>,
    word: &[u8; N],
    lon: i32,
    lat: i32,
    numbers: &[u8],
) -> Result<(), AllocError>
    requires few { length numbers.now ≤ 5 }
    ensures { OnOk result (text.new.items ≡ text.old.items
        ++ fields_line (word.now ∷ signed_decimal lon ∷ signed_decimal lat ∷ map decimal numbers.now)) }
{
    let mut end = [b'\n'; ROOM];
    let start = put_numbers(&mut end, ROOM - 1, numbers);
    let start = put_coordinate(&mut end, start, lat);
    let start = put_coordinate(&mut end, start, lon);
    text.extend_from_slice(word)?;
    text.extend_from_slice(&end[start..])
}
