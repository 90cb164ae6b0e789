//! Paths that are added or replaced one at a time, and encoded at once.
ghost use Rattle.std.specs.Prelude.{◌≡◌, is_some, false, string_bytes, IfOk, OnErr, Some, []};
ghost use Rattle.olr_commands.specs.State.{path_named};
ghost use Rattle.olr_paths.specs.Items.{items, all_named, results_of, results_of_named};
ghost use Rattle.olr_renewal.specs.Encoded.{IsAdded, IsSet};

use crate::encoding::encode;
use crate::renewal::{Renewed, push_if_changed};
use olr_commands::Entry;
use olr_model::MapRead;
use olr_paths::{NamedPath, PathList, Published};
use olr_refs::{Margin, Path};
use olr_search::{Dijkstra, Work};
use std::alloc::{AllocError, Global};
use std::rc::Rc;

/// What is reported of one path that was encoded.
fn renewed_alone(
    alloc: Global,
    entries: Vec<Entry>,
    published: &Published,
) -> Result<Renewed, AllocError>
    ensures entries { IfOk result (λ r. r.entries ≡ entries) }
    ensures counted { IfOk result (λ r. r.work.encodings ≡ 1) }
    ensures queries { IfOk result (λ r. r.queries.items ≡ (results_of published.now).queries) }
{
    let queries = Vec::from_slice(alloc, published.queries())?;
    Ok(Renewed {
        entries,
        work: Work::none().encoded(),
        queries,
        wasted_labels: 0,
    })
}

/// The path with what is published of it.
fn named(alloc: Global, path: Path, published: Rc<Published>) -> Result<NamedPath, AllocError>
    ensures path { IfOk result (λ n. n.path.value ≡ path) }
    ensures results { IfOk result (λ n. results_of_named n ≡ Some (results_of published.value)) }
{
    Ok(NamedPath {
        path: Rc::new(alloc, path)?,
        published: Some(published),
    })
}

/// Encodes a path from scratch and appends it. Returns the entries of the reply, which names it, the work and its coverage
/// queries. If an allocation fails, the list is unchanged.
pub fn add<M: MapRead>(
    list: &mut PathList,
    alloc: Global,
    name: String,
    path: Path,
    map: &M,
    margin: Margin,
    query: &mut Dijkstra,
) -> Result<Renewed, AllocError>
    requires { is_some (path_named (all_named (items list.old)) (string_bytes name)) ≡ false }
    ensures added { IfOk result (IsAdded margin (M.map map.now) (items list.old) (items list.new) (string_bytes name) path) }
    ensures err { OnErr result (items list.new ≡ items list.old) }
{
    let published = encode(alloc, map, &path, margin, &[], query)?;
    let entries = published.entry_alone(alloc, name.as_str())?;
    let renewed = renewed_alone(alloc, entries, &published)?;
    list.push(name, named(alloc, path, published)?)?;
    Ok(renewed)
}

/// Encodes another path for a name from scratch; it keeps its position. Returns the entries of the reply, which has the
/// name if the answer changed, the work and the path's coverage queries. If an allocation fails, the list is unchanged.
pub fn set<M: MapRead>(
    list: &mut PathList,
    alloc: Global,
    name: &str,
    path: Path,
    map: &M,
    margin: Margin,
    query: &mut Dijkstra,
) -> Result<Renewed, AllocError>
    ensures set { IfOk result (IsSet margin (M.map map.now) (items list.old) (items list.new) name.now path) }
    ensures err { OnErr result (items list.new ≡ items list.old) }
{
    let published = encode(alloc, map, &path, margin, &[], query)?;
    let mut entries = Vec::new(alloc);
    push_if_changed(alloc, list, name, &published, &mut entries)?;
    let renewed = renewed_alone(alloc, entries, &published)?;
    list.replace(name, named(alloc, path, published)?)?;
    Ok(renewed)
}
