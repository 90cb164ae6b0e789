//! A list of named paths, in order.
ghost use Rattle.std.specs.Prelude.{◌≡◌, IfOk, option_map, ◌<◌, ℕ, None, length, get_or, IsFalse, [], ◌∷◌, ◌++◌, true, false};
ghost use Rattle.std.specs.Prelude.{not, map, filter, take, is_some, slice_get, string_bytes, OnOk, OnErr};
ghost use Rattle.std.specs.List.Sorted.{IsStrictlyIncreasing};
ghost use Rattle.std.proofs.Props.{props};
ghost use Rattle.olr_paths.specs.Finders.{AreNoted, ArePublished, keys_in, named_keys};

use crate::finder::Finder;
use crate::keys::Keys;
use crate::published::Published;
use indexmap::IndexMap;
use olr_answers::Path;
use std::alloc::{AllocError, Global};
use std::rc::Rc;

/// A path and, if it was encoded, what is published of it.
#[derive(Drop)]
pub struct NamedPath {
    /// The path.
    pub path: Rc<Path>,
    /// What is published of it. None if it is not encoded yet.
    pub published: Option<Rc<Published>>,
}

impl NamedPath {
    ghost use Rattle.olr_paths.specs.Items.{results_of, results_of_named};

    /// What the path is found by.
    pub(crate) fn keys(&self) -> Keys<'_>
        ensures { keys_in result ≡ named_keys self.now }
    {
        let Some(published) = &self.published else {
            return Keys::none();
        };
        Keys {
            lines: self.path.lines(),
            traversed: published.traversed.as_slice(),
            queries: published.queries.as_slice(),
        }
    }

    /// What is published of the path. None if it is not encoded yet.
    pub(crate) fn published(&self) -> Option<&Published>
        ensures { option_map (λ p. results_of p.now) result ≡ results_of_named self.now }
    {
        match &self.published {
            Some(published) => Some(&**published),
            None => None,
        }
    }

    /// A second value that shares the path and what is published of it.
    pub(crate) fn share(&self) -> Result<NamedPath, AllocError>
        ensures path { IfOk result (λ n. n.path.value ≡ self.now.path.value) }
        ensures results { IfOk result (λ n. results_of_named n ≡ results_of_named self.now) }
    {
        let path = self.path.clone()?;
        let published = match &self.published {
            Some(published) => Some(published.clone()?),
            None => None,
        };
        Ok(NamedPath { path, published })
    }
}

/// Paths by name, in the order of their registration.
pub struct PathList {
    /// The paths by their names, in order.
    pub paths: IndexMap<String, NamedPath>,
    /// The ids of the paths, in ascending order. A path keeps its id when others are dropped.
    pub path_ids: Vec<u64>,
    /// Finds the ids of the paths that were encoded.
    pub finder: Finder,
    /// Whether there may be a path that is not encoded yet.
    pub held: bool,
    ghost long: { length path_ids.items ≡ length paths.entries },
    ghost ascend: { IsStrictlyIncreasing path_ids.items },
    ghost noted: { AreNoted paths.entries path_ids.items finder } by { Prim.hlevel props },
    ghost encoded: { IsFalse held → ArePublished paths.entries } by { Prim.hlevel props },
}

// Written out: a derived drop is proved again in each crate that ends a list.
impl Drop for PathList {
    fn drop(self) {
        let PathList {
            paths,
            path_ids,
            finder,
            held: _,
        } = self;
        drop(paths);
        drop(path_ids);
        drop(finder);
    }
}

impl PathList {
    ghost use Rattle.olr_commands.specs.State.{NamesDiffer, path_named, same_name};
    ghost use Rattle.olr_paths.specs.Items.{items, item_of, results_of, results_of_named, all_named, results_in};
    ghost use Rattle.olr_paths.specs.Changes.{AreEncoded, set_item};

    /// The list without paths. Takes no memory.
    pub fn new(alloc: Global) -> PathList
        ensures { items result ≡ [] }
    {
        PathList {
            paths: IndexMap::new(alloc),
            path_ids: Vec::new(alloc),
            finder: Finder::new(alloc),
            held: false,
        }
    }

    /// The number of paths. No name occurs twice.
    #[tactic(auto, using(crate::proofs::NamedEntries::names_differ))]
    pub fn len(&self) -> usize
        ensures len { result ≡ length (items self.now) }
        ensures names { NamesDiffer (all_named (items self.now)) }
    {
        self.paths.len()
    }

    /// The name of path k, counted from 0. None past the last.
    pub fn name_at(&self, k: usize) -> Option<&str>
        ensures { option_map (λ n. n.now) result ≡ slice_get (map (λ i. i.name) (items self.now)) k }
    {
        let (name, _) = self.paths.get_index(k)?;
        Some(name.as_str())
    }

    /// The name of path k, counted from 0, and the path. None past the last.
    pub fn path_at(&self, k: usize) -> Option<(&str, &Path)>
        ensures { option_map (λ p. record { name = p.0.now; path = p.1.now }) result
            ≡ slice_get (all_named (items self.now)) k }
    {
        let (name, named) = self.paths.get_index(k)?;
        Some((name.as_str(), &*named.path))
    }

    /// The name of path k, counted from 0, the path, and what is published of it, if it is encoded. None past the last.
    pub fn item_at(&self, k: usize) -> Option<(&str, &Path, Option<&Published>)>
        ensures { option_map (λ p. record {
          name = p.0.now;
          path = p.1.now;
          results = option_map (λ q. results_of q.now) p.2;
        }) result ≡ slice_get (items self.now) k }
    {
        let (name, named) = self.paths.get_index(k)?;
        Some((name.as_str(), &*named.path, named.published()))
    }

    /// Whether a path has the name.
    pub fn has(&self, name: &str) -> bool
        ensures { result ≡ is_some (path_named (all_named (items self.now)) name.now) }
    {
        self.paths.contains_key(name)
    }

    /// What is published of the path of that name. None if there is none, or if it is not encoded yet.
    #[tactic(auto, using(crate::proofs::NamedEntries::looked_up))]
    pub fn published_of(&self, name: &str) -> Option<&Published>
        ensures { option_map (λ p. results_of p.now) result ≡ results_in (items self.now) name.now }
    {
        self.paths.get(name)?.published()
    }

    /// The path of that name. None if there is none.
    #[tactic(auto, using(crate::proofs::NamedEntries::paths_named))]
    pub fn path(&self, name: &str) -> Option<&Path>
        ensures { option_map (λ p. p.now) result ≡ path_named (all_named (items self.now)) name.now }
    {
        let named = self.paths.get(name)?;
        Some(&*named.path)
    }

    /// Appends a path, not encoded yet. If an allocation fails, the list is unchanged.
    pub fn hold(&mut self, alloc: Global, name: String, path: Path) -> Result<(), AllocError>
        requires { is_some (path_named (all_named (items self.old)) (string_bytes name)) ≡ false }
        ensures ok { OnOk result (items self.new ≡ items self.old
            ++ record { name = string_bytes name; path = path; results = None } ∷ []) }
        ensures err { OnErr result (items self.new ≡ items self.old) }
    {
        let named = NamedPath {
            path: Rc::new(alloc, path)?,
            published: None,
        };
        self.push(name, named)
    }

    /// Replaces the path of a name by one that is not encoded yet. It keeps its position. If an allocation fails, the
    /// list is unchanged.
    pub fn hold_other(&mut self, alloc: Global, name: &str, path: Path) -> Result<(), AllocError>
        requires { is_some (path_named (all_named (items self.old)) name.now) ≡ true }
        ensures ok { OnOk result (items self.new ≡ map (set_item name.now path None) (items self.old)) }
        ensures err { OnErr result (items self.new ≡ items self.old) }
    {
        let named = NamedPath {
            path: Rc::new(alloc, path)?,
            published: None,
        };
        self.replace(name, named)
    }

    /// Removes the path of that name; the paths after it move up. Takes no memory.
    pub fn drop_path(&mut self, name: &str)
        ensures { items self.new ≡ filter (λ i. not (same_name i.name name.now)) (items self.old) }
    {
        let Some(position) = self.paths.get_index_of(name) else {
            return;
        };
        let (_, named) = self.paths.shift_remove_index(position).unwrap();
        let path_id = self.path_ids.remove(position);
        self.finder.forget(path_id, named.keys(), Keys::none());
    }

    /// Appends a path. If an allocation fails, the list is unchanged.
    pub fn push(&mut self, name: String, named: NamedPath) -> Result<(), AllocError>
        requires { is_some (path_named (all_named (items self.old)) (string_bytes name)) ≡ false }
        ensures ok { OnOk result (items self.new ≡ items self.old ++ item_of (string_bytes name) named ∷ []) }
        ensures err { OnErr result (items self.new ≡ items self.old) }
    {
        let path_id = next_path_id(&self.path_ids)?;
        self.paths.reserve(1)?;
        self.path_ids.reserve(1)?;
        self.finder.replace(path_id, Keys::none(), named.keys())?;
        self.held |= named.published.is_none();
        match self.paths.insert(name, named) {
            Ok(_) => (),
            Err(_) => unreachable!(),
        }
        self.path_ids.push_reserved(path_id);
        Ok(())
    }

    /// Removes the paths from a position on, none of which was encoded. Takes no memory.
    pub(crate) fn truncate(&mut self, count: usize)
        ensures { items self.new ≡ take count (items self.old) }
    {
        self.paths.truncate(count);
        self.path_ids.truncate(count);
    }

    /// Replaces the path of a name. It keeps its position. If an allocation fails, the list is unchanged.
    pub fn replace(&mut self, name: &str, named: NamedPath) -> Result<(), AllocError>
        ensures ok { OnOk result (items self.new
            ≡ map (set_item name.now named.path.value (results_of_named named)) (items self.old)) }
        ensures err { OnErr result (items self.new ≡ items self.old) }
    {
        let Some((position, _, current)) = self.paths.get_full(name) else {
            return Ok(());
        };
        let path_id = self.path_ids[position];
        self.finder.replace(path_id, current.keys(), named.keys())?;
        self.held |= named.published.is_none();
        let place = self.paths.get_index_mut(position).unwrap();
        *place = named;
        Ok(())
    }

    /// Records that all paths are encoded.
    #[tactic(auto, using(crate::proofs::NotedPositions::all_published))]
    pub fn note_encoded(&mut self)
        requires { AreEncoded (items self.old) }
        ensures { items self.new ≡ items self.old }
    {
        self.held = false;
    }
}

/// The id for one more path, greater than all others.
fn next_path_id(path_ids: &[u64]) -> Result<u64, AllocError>
    requires { IsStrictlyIncreasing path_ids.now }
    ensures { IfOk result (λ path_id. (k : ℕ) → k < length path_ids.now → get_or path_ids.now k 0 < path_id) }
{
    let Some(last) = path_ids.last() else {
        return Ok(0);
    };
    let path_id = last.checked_add(1).ok_or(AllocError)?;
    Ok(path_id)
}
