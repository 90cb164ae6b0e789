//! Up to four lines of a node, each with its far end, in the value itself.
ghost use Rattle.std.specs.Prelude.{◌≡◌, ◌+◌, ◌-◌, ◌<◌, ◌≤◌, length, take, insert, remove};

use olr_model::{LineEnd, LineId, NodeLines};

/// How many lines fit in the value.
pub const INLINE: usize = 4;

/// The numbers of up to four lines, and the far end of each.
#[derive(Drop)]
pub struct Inline {
    pub count: u32,
    pub ends: [LineEnd; INLINE],
    pub lines: [LineId; INLINE],
    ghost within: { count ≤ 4 },
    ghost ends_len: { length ends ≡ 4 },
    ghost lines_len: { length lines ≡ 4 },
}

impl Inline {
    /// No lines.
    pub fn new() -> Inline
        ensures { result.count ≡ 0 }
    {
        Inline {
            count: 0,
            ends: [LineEnd::default(); INLINE],
            lines: [LineId::default(); INLINE],
        }
    }

    /// The lines, with their far ends.
    pub fn as_slices(&self) -> NodeLines<'_>
        ensures lines { result.lines.now ≡ take self.now.count self.now.lines }
        ensures ends { result.ends.now ≡ take self.now.count self.now.ends }
    {
        let count = self.count as usize;
        NodeLines {
            lines: &self.lines[..count],
            ends: &self.ends[..count],
        }
    }

    /// Inserts a line at this position. There are fewer than four lines.
    pub fn insert(&mut self, at: usize, id: LineId, end: LineEnd)
        requires within { at ≤ self.old.count }
        requires room { self.old.count < 4 }
        ensures count { self.new.count ≡ self.old.count + 1 }
        ensures lines { take self.new.count self.new.lines ≡ insert (take self.old.count self.old.lines) at id }
        ensures ends { take self.new.count self.new.ends ≡ insert (take self.old.count self.old.ends) at end }
    {
        let count = self.count as usize;
        put_in(&mut self.lines, count, at, id);
        put_in(&mut self.ends, count, at, end);
        self.count += 1;
    }

    /// Removes the line at this position.
    pub fn remove(&mut self, at: usize)
        requires { at < self.old.count }
        ensures count { self.new.count + 1 ≡ self.old.count }
        ensures lines { take self.new.count self.new.lines ≡ remove (take self.old.count self.old.lines) at }
        ensures ends { take self.new.count self.new.ends ≡ remove (take self.old.count self.old.ends) at }
    {
        let count = self.count as usize;
        take_out(&mut self.lines, count, at);
        take_out(&mut self.ends, count, at);
        self.count -= 1;
    }
}

/// Inserts a value at a position among the first `count` values. The slice is longer than `count`.
fn put_in<T: Copy>(values: &mut [T], count: usize, at: usize, value: T)
    requires within { at ≤ count }
    requires room { count < length values.old }
    ensures len { length values.new ≡ length values.old }
    ensures put { take (count + 1) values.new ≡ insert (take count values.old) at value }
{
    values[count] = value;
    values[at..count + 1].rotate_right(1);
}

/// Removes the value at a position among the first `count` values.
fn take_out<T>(values: &mut [T], count: usize, at: usize)
    requires within { at < count }
    requires few { count ≤ length values.old }
    ensures len { length values.new ≡ length values.old }
    ensures taken { take (count - 1) values.new ≡ remove (take count values.old) at }
{
    values[at..count].rotate_left(1);
}
