//! The texts of replies.
ghost use Rattle.std.specs.Prelude.{◌≡◌, ◌≤◌, ◌++◌, ◌∷◌, [], ℕ, List, decimal, drop, length, map, string_bytes, IfOk, OnOk};
ghost use Rattle.std.specs.List.{concat};
ghost use Rattle.std.specs.Result.{result_map_both};
ghost use Rattle.olr_answers.specs.Ambiguities.{obstacle_of};
ghost use Rattle.olr_answers.specs.Answers.{refusal_of};
ghost use Rattle.olr_commands.specs.RecordText.{after_commas};
ghost use Rattle.olr_commands.specs.Reply.{Dumped};
ghost use Rattle.olr_commands.specs.Words.{reply_of, entry_of, named_obstacle_of};
ghost use Rattle.olr_records.specs.ReplyText as texts;

use crate::texts::{push_count, push_point};
use olr_answers::{Obstacle, Refusal};
use olr_binary::{Attrs, First, Last, Middle, Reference};
use olr_commands::{Dump, Entry, NamedObstacle, Reply, push_field, push_number};
use std::alloc::{AllocError, Global};

/// The lines of a reply to an accepted command. It fails if an allocation fails.
pub fn reply_text(alloc: Global, reply: &Reply) -> Result<Vec<u8>, AllocError>
    ensures { IfOk result (λ text. text.items ≡ texts.reply_text (reply_of reply.now)) }
{
    let mut text = Vec::new(alloc);
    append_reply(&mut text, reply)?;
    Ok(text)
}

/// Appends the lines of a reply to an accepted command to a text. It fails if an allocation fails.
pub fn append_reply(text: &mut Vec<u8>, reply: &Reply) -> Result<(), AllocError>
    ensures { OnOk result (text.new.items ≡ text.old.items ++ texts.reply_text (reply_of reply.now)) }
{
    match reply {
        Reply::Paths(entries) => push_paths(text, entries),
        Reply::Fields(reference) => push_reference(text, reference),
        Reply::Held(count) => push_count(text, b"held", *count as usize),
        Reply::Dump(records) | Reply::Records(records) => push_dump(text, records),
        Reply::Names(names) => push_names(text, names),
        Reply::Obstacles(found) => push_obstacles(text, found),
    }
}

/// Appends the first line of a reply to an accepted command, with the number of lines after it. It fails if an allocation
/// fails.
pub fn append_count(text: &mut Vec<u8>, count: usize) -> Result<(), AllocError>
    ensures { OnOk result (text.new.items ≡ text.old.items ++ texts.count_line count) }
{
    push_count(text, b"ok", count)
}

/// The number of paths, and each path with its string or the reason why it has none.
fn push_paths(text: &mut Vec<u8>, entries: &[Entry]) -> Result<(), AllocError>
    ensures { OnOk result (text.new.items ≡ text.old.items
        ++ texts.accepted_text (map (λ e. texts.entry_line (entry_of e)) entries.now)) }
{
    // Most replies name no path.
    if entries.is_empty() {
        return text.extend_from_slice(b"ok,0\n");
    }
    append_count(text, entries.len())?;
    for entry in entries {
        append_entry(text, entry.name.as_str(), entry.published.as_deref())?;
    }
    Ok(())
}

/// Appends the line of the path of that name: its string, or the reason why it has none. It fails if an allocation fails.
pub fn append_entry(
    text: &mut Vec<u8>,
    name: &str,
    published: Result<&str, &Refusal>,
) -> Result<(), AllocError>
    ensures { OnOk result (text.new.items ≡ text.old.items ++ texts.entry_line (record {
      name = name.now;
      published = result_map_both (λ s. s.now) (λ r. refusal_of r.now) published.entry;
    })) }
{
    text.extend_from_slice(name.as_bytes())?;
    match published {
        Ok(string) => {
            push_field(text, b"text")?;
            push_field(text, string.as_bytes())?;
        }
        Err(refusal) => {
            push_field(text, b"refused")?;
            push_refusal(text, *refusal)?;
        }
    }
    text.extend_from_slice(b"\n")
}

/// The number of a reason, and what it names.
fn push_refusal(text: &mut Vec<u8>, refusal: Refusal) -> Result<(), AllocError>
    ensures { OnOk result (text.new.items
        ≡ text.old.items ++ after_commas (texts.refusal_fields (refusal_of refusal))) }
{
    let (reason, named) = match refusal {
        Refusal::UnknownLine(line) => (b"1", Some(line.number() as usize)),
        Refusal::Broken(k) => (b"2", Some(k)),
        Refusal::OffsetTooLong => (b"3", None),
        Refusal::NoNextPoint(k) => (b"4", Some(k)),
    };
    push_field(text, reason)?;
    match named {
        Some(number) => push_number(text, number),
        None => Ok(()),
    }
}

/// The number of lines, and the fields of a reference, LRP by LRP.
#[tactic(auto, using(crate::proofs::TextLemmas::reference_text))]
fn push_reference(text: &mut Vec<u8>, reference: &Reference) -> Result<(), AllocError>
    ensures { OnOk result (text.new.items
        ≡ text.old.items ++ texts.accepted_text (texts.reference_lines reference.now)) }
{
    let points = reference.middle.as_slice();
    let offsets = offset_count(reference.pos) + offset_count(reference.neg);
    append_count(text, points.len() + 2 + offsets)?;
    push_first(text, reference.first)?;
    push_points(text, points)?;
    push_last(text, reference.last)?;
    push_offset(text, b"positive", reference.pos)?;
    push_offset(text, b"negative", reference.neg)
}

/// The number of records, and the records as they are.
fn push_dump(text: &mut Vec<u8>, dump: &Dump) -> Result<(), AllocError>
    ensures { OnOk result (text.new.items
        ≡ text.old.items ++ texts.reply_text (Dumped dump.now.count dump.now.text.items)) }
{
    append_count(text, dump.count)?;
    text.extend_from_slice(&dump.text)
}

/// Writes bytes over the first of others.
fn overwrite(bytes: &mut [u8], front: &[u8])
    requires { length front.now ≤ length bytes.old }
    ensures written { bytes.new ≡ front.now ++ drop (length front.now) bytes.old }
    ensures size { length bytes.new ≡ length bytes.old }
{
    bytes[..front.len()].copy_from_slice(front);
}

/// Puts bytes before those of a text.
fn put_front(text: &mut Vec<u8>, front: &[u8]) -> Result<(), AllocError>
    ensures { OnOk result (text.new.items ≡ front.now ++ text.old.items) }
{
    let len = text.len();
    text.extend_from_slice(front)?;
    text.copy_within(0..len, front.len());
    overwrite(text.as_mut_slice(), front);
    Ok(())
}

/// The lines of the reply to `dump`, made in the buffer of its records, so that these are in memory once.
pub fn dump_text(alloc: Global, dump: Dump) -> Result<Vec<u8>, AllocError>
    ensures { IfOk result (λ text. text.items ≡ texts.reply_text (Dumped dump.count dump.text.items)) }
{
    let mut head = Vec::new(alloc);
    append_count(&mut head, dump.count)?;
    let mut text = dump.text;
    put_front(&mut text, &head)?;
    Ok(text)
}

/// The number of names, and the names.
fn push_names(text: &mut Vec<u8>, names: &[String]) -> Result<(), AllocError>
    ensures { OnOk result (text.new.items ≡ text.old.items
        ++ texts.accepted_text (map (λ n. texts.name_line (string_bytes n)) names.now)) }
{
    append_count(text, names.len())?;
    for name in names {
        text.extend_from_slice(name.as_bytes())?;
        text.extend_from_slice(b"\n")?;
    }
    Ok(())
}

/// The number of ambiguities, and a line for each.
fn push_obstacles(text: &mut Vec<u8>, found: &[NamedObstacle]) -> Result<(), AllocError>
    ensures { OnOk result (text.new.items ≡ text.old.items
        ++ texts.accepted_text (map (λ e. texts.obstacle_line (named_obstacle_of e)) found.now)) }
{
    append_count(text, found.len())?;
    for obstacle in found {
        push_obstacle(text, obstacle)?;
    }
    Ok(())
}

/// The path's name, the number of the LRP, and the kind and the number of the ambiguity there.
fn push_obstacle(text: &mut Vec<u8>, named: &NamedObstacle) -> Result<(), AllocError>
    ensures { OnOk result (text.new.items ≡ text.old.items ++ texts.obstacle_line (named_obstacle_of named.now)) }
{
    let (kind, number) = match named.found.obstacle {
        Obstacle::SameSector(line) => (b"sector".as_slice(), line.number()),
        Obstacle::OtherBearing(line) => (b"bearing".as_slice(), line.number()),
        Obstacle::OtherNode(node) => (b"node".as_slice(), node.number()),
    };
    text.extend_from_slice(named.name.as_bytes())?;
    push_number(text, named.found.lrp)?;
    push_field(text, kind)?;
    push_number(text, number)?;
    text.extend_from_slice(b"\n")
}

/// The number of lines of an offset.
fn offset_count(offset: Option<u8>) -> usize
    ensures lines { (word : List ℕ) → length (texts.offset_lines word offset) ≡ result }
    ensures one { result ≤ 1 }
{
    usize::from(offset.is_some())
}

/// The lines of the LRPs between the first and the last.
fn push_points(text: &mut Vec<u8>, points: &[Middle]) -> Result<(), AllocError>
    ensures { OnOk result (text.new.items
        ≡ text.old.items ++ concat (map texts.middle_line points.now)) }
{
    for point in points {
        push_middle(text, *point)?;
    }
    Ok(())
}

/// The attributes of each LRP but the last, in the order of its line.
fn attr_numbers(attrs: Attrs) -> [u8; 5]
    ensures { map decimal result ≡ texts.attr_fields attrs }
{
    [attrs.frc, attrs.fow, attrs.lfrc, attrs.bearing, attrs.dnp]
}

/// The line of the first LRP.
fn push_first(text: &mut Vec<u8>, point: First) -> Result<(), AllocError>
    ensures { OnOk result (text.new.items ≡ text.old.items ++ texts.first_line point) }
{
    let numbers = attr_numbers(point.attrs);
    push_point(text, b"first", point.lon, point.lat, &numbers)
}

/// The line of an LRP between the first and the last.
fn push_middle(text: &mut Vec<u8>, point: Middle) -> Result<(), AllocError>
    ensures { OnOk result (text.new.items ≡ text.old.items ++ texts.middle_line point) }
{
    let numbers = attr_numbers(point.attrs);
    let (lon, lat) = (i32::from(point.dlon), i32::from(point.dlat));
    push_point(text, b"middle", lon, lat, &numbers)
}

/// The line of the last LRP.
fn push_last(text: &mut Vec<u8>, point: Last) -> Result<(), AllocError>
    ensures { OnOk result (text.new.items ≡ text.old.items ++ texts.last_line point) }
{
    let numbers = [point.frc, point.fow, point.bearing];
    let (lon, lat) = (i32::from(point.dlon), i32::from(point.dlat));
    push_point(text, b"last", lon, lat, &numbers)
}

/// The line of an offset, if there is one.
fn push_offset<const N: usize>(
    text: &mut Vec<u8>,
    word: &[u8; N],
    offset: Option<u8>,
) -> Result<(), AllocError>
    ensures { OnOk result (text.new.items
        ≡ text.old.items ++ concat (texts.offset_lines word.now offset)) }
{
    match offset {
        Some(byte) => push_count(text, word, usize::from(byte)),
        None => Ok(()),
    }
}
