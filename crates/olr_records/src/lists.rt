//! Lists of items, one of each field.
ghost use Rattle.std.specs.Prelude.{drop, ⊤};
ghost use Rattle.std.specs.Fn.{FnReturnsAt};
ghost use Rattle.csv.specs.Records.{fields_of};
ghost use Rattle.olr_records.specs.Records.{Field, Read};
ghost use Rattle.olr_records.specs.Records as records;
ghost use Rattle.olr_records.specs.Words.{Gathers, ReadsBy};

use crate::faults::ReadFault;
use crate::parts::{room, with_item};
use csv::ByteRecord;
use olr_input::field;
use std::alloc::Global;

/// The items of the fields from index `start` on, each read from one field.
pub(crate) fn items_from<T: Drop, F: Fn(&[u8]) -> Result<T, ReadFault>>(
    alloc: Global,
    fields: &ByteRecord,
    start: usize,
    read: F,
) -> Result<Vec<T>, ReadFault>
    requires { F.IsAlwaysCallable read }
    ensures { (one : Field → Read T) → ReadsBy (FnReturnsAt F.Fn read) one
        → Gathers (λ _. ⊤) (λ v. v.items) (records.items one (drop start (fields_of fields.now))) result }
{
    let mut items = room(alloc, fields.len().saturating_sub(start));
    for k in start..fields.len() {
        items = with_item(items, read(field(fields, k)));
    }
    items
}
