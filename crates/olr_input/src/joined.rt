//! Two sources of records, one after the other.

ghost use Rattle.std.specs.Prelude.{◌≡◌, ◌||◌, None, false};
ghost use Rattle.std.specs.Option.{option_map_or};
ghost use Rattle.olr_input.specs.Sessions.{JoinedLeft};

use crate::ends::RunFault;
use crate::sources::Source;
use csv::ByteRecord;

/// The records of a source, if there is one, and then those of another.
#[derive(Drop)]
pub struct Joined<A: Drop, B: Drop> {
    first: Option<A>,
    second: B,
}

impl<A: Source + Drop, B: Source + Drop> Joined<A, B> {
    /// The records of both.
    pub fn new(first: Option<A>, second: B) -> Joined<A, B>
        ensures first { result.first ≡ first }
        ensures second { result.second ≡ second }
    {
        Joined { first, second }
    }

    /// The first source has ended. Not inlined: the source that is dropped would take room in each call of `next`.
    #[inline(never)]
    fn end_first(&mut self)
        ensures first { self.new.first ≡ None }
        ensures second { self.new.second ≡ self.old.second }
    {
        self.first = None;
    }
}

impl<A: Source + Drop, B: Source + Drop> Source for Joined<A, B> {
    ghost left = { λ s. JoinedLeft A.left B.left s.first s.second };

    ghost failed = { λ s. option_map_or A.failed s.first false || B.failed s.second };

    fn next(&mut self, fields: &mut ByteRecord) -> Result<bool, RunFault> {
        let Some(first) = &mut self.first else {
            return self.second.next(fields);
        };
        match first.next(fields) {
            Ok(false) => {
                self.end_first();
                self.second.next(fields)
            }
            taken => taken,
        }
    }

    fn may_wait(&self) -> bool {
        match &self.first {
            Some(first) => first.may_wait(),
            None => self.second.may_wait(),
        }
    }
}
