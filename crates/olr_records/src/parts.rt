//! Parts of one record, read one by one and combined.
ghost use Rattle.std.specs.Prelude.{◌≡◌, ◌∷◌, ◌++◌, [], List, Ok, ⊤};
ghost use Rattle.olr_records.specs.Records.{Read, ◌⊛◌};
ghost use Rattle.olr_records.specs.Words.{Gathers, Reads, both, worse_fault};

use crate::faults::ReadFault;
use std::alloc::Global;

/// Of two faults of one record, the one that takes precedence: `Syntax` before `Range`, and out of memory after both.
fn worse(first: ReadFault, second: ReadFault) -> ReadFault
    ensures { result ≡ worse_fault first second }
{
    match (first, second) {
        (ReadFault::Syntax, _) | (_, ReadFault::Syntax) => ReadFault::Syntax,
        (ReadFault::Memory, ReadFault::Memory) => ReadFault::Memory,
        _ => ReadFault::Range,
    }
}

/// Two parts of one record.
pub(crate) fn both<A: Drop, B: Drop>(
    first: Result<A, ReadFault>,
    second: Result<B, ReadFault>,
) -> Result<(A, B), ReadFault>
    ensures { result ≡ both first second }
{
    match (first, second) {
        (Ok(a), Ok(b)) => Ok((a, b)),
        (Err(fault), Ok(_)) | (Ok(_), Err(fault)) => Err(fault),
        (Err(first), Err(second)) => Err(worse(first, second)),
    }
}

/// No items yet, with capacity for `count` of them.
pub(crate) fn room<T: Drop>(alloc: Global, count: usize) -> Result<Vec<T>, ReadFault>
    ensures { Gathers (λ _. ⊤) (λ v. v.items) (Ok []) result }
{
    Vec::with_capacity(alloc, count).or(Err(ReadFault::Memory))
}

/// The items read so far, with one more.
pub(crate) fn with_item<T: Drop>(
    items: Result<Vec<T>, ReadFault>,
    item: Result<T, ReadFault>,
) -> Result<Vec<T>, ReadFault>
    ensures { (xs : Read (List T)) (x : Read T) → Gathers (λ _. ⊤) (λ v. v.items) xs items
        → Reads (λ t. t) x item
        → Gathers (λ _. ⊤) (λ v. v.items) (Ok (λ ts t. ts ++ t ∷ []) ⊛ xs ⊛ x) result }
{
    let (mut items, item) = both(items, item)?;
    items.push(item).or(Err(ReadFault::Memory))?;
    Ok(items)
}
