//! The ambiguities of strings.
ghost use Rattle.std.specs.Prelude.{◌≡◌, ◌++◌, ◌+◌, ℕ, List, option_map, IfOk, IfSome, IsTrue, OnOk, map as list_map};
ghost use Rattle.olr_ambiguity.specs.Grids.{IsGrid};
ghost use Rattle.olr_answers.specs.Ambiguities.{found_of};
ghost use Rattle.olr_answers.specs.Answers.{answer_of};
ghost use Rattle.olr_commands.specs.Ambiguities.{Ambiguities, Ambiguity, named, obstacles_of};
ghost use Rattle.olr_commands.specs.Words.{named_obstacle_of};
ghost use Rattle.olr_map.specs.RoadMaps.{map_of};
ghost use Rattle.olr_paths.specs.Items.{AreEncodings, all_named, items, known_in, results_of};
ghost use Rattle.olr_refs.specs.Referring.{IsEncoding};
ghost use Rattle.olr_spec.specs.Ambiguity.{obstacles};
ghost use Rattle.olr_spec.specs.Extension.{Path, is_path};
ghost use Rattle.olr_spec.specs.Margins.{Margin};
ghost use Rattle.olr_spec.specs.Queries.{AreKnownWith};

use crate::register::Register;
use olr_ambiguity::{Grid, obstacles, obstacles_near};
use olr_answers::{Answer, Found, KnownQuery, Path};
use olr_binary::Reference;
use olr_commands::{CommandFault, NamedObstacle, Reply};
use olr_map::RoadMap;
use olr_paths::{PathList, Published};
use olr_refs::{Encoding, Margin, encode_again};
use olr_search::Dijkstra;
use std::alloc::{AllocError, Global};

/// Appends what was found at the LRPs of the path of this name.
fn push_found(
    alloc: Global,
    all: &mut Vec<NamedObstacle>,
    name: &str,
    found: &[Found],
) -> Result<(), AllocError>
    ensures { OnOk result (list_map named_obstacle_of all.new.items ≡ list_map named_obstacle_of all.old.items
        ++ list_map (named name.now) (list_map found_of found.now)) }
{
    for one in found {
        all.push(NamedObstacle {
            name: String::from_str(alloc, name)?,
            found: *one,
        })?;
    }
    Ok(())
}

/// The ambiguities of the string of an encoded path, by the grid of the map, or if there is none by one pass over its
/// nodes. Without a string there are none.
fn found_in(
    alloc: Global,
    roads: &RoadMap,
    grid: Option<&Grid>,
    encoding: &Encoding,
) -> Result<Vec<Found>, AllocError>
    requires grid { IfSome grid (λ g. IsGrid (map_of roads.now) g.now.nodes.items) }
    requires encoding { (g : Margin) × (P : Path) × IsTrue (is_path P.lines) × IsEncoding g (map_of roads.now) P encoding.now }
    ensures { IfOk result (λ found. list_map found_of found.items
        ≡ obstacles_of (map_of roads.now) (answer_of encoding.now.answer) encoding.now.own.items) }
{
    let own = encoding.own.as_slice();
    match &encoding.answer {
        Answer::Refused(_) => Ok(Vec::new(alloc)),
        Answer::Points(reference) => match grid {
            Some(grid) => obstacles(alloc, roads, grid, reference, own),
            None => {
                let nodes = roads.node_places();
                obstacles_near(alloc, roads, nodes.ids, nodes.places, reference, own)
            }
        },
    }
}

/// What is found at the LRPs of the string of a path, which is encoded again, without searches for the coverage queries
/// that are known.
fn found_on(
    alloc: Global,
    roads: &RoadMap,
    grid: Option<&Grid>,
    path: &Path,
    margin: Margin,
    known: &[KnownQuery],
    search: &mut Dijkstra,
) -> Result<Vec<Found>, AllocError>
    requires grid { IfSome grid (λ g. IsGrid (map_of roads.now) g.now.nodes.items) }
    requires known { AreKnownWith margin (map_of roads.now) path.now.lines known.now }
    ensures { IfOk result (λ found. (name : List ℕ) → Ambiguity margin (map_of roads.now)
        (record { name = name; path = path.now }) (list_map (named name) (list_map found_of found.items))) }
{
    let encoding = encode_again(alloc, roads, path, margin, known, search)?;
    let found = found_in(alloc, roads, grid, &encoding);
    drop(encoding);
    found
}

/// The known coverage queries of what is published; none if nothing is.
fn known_of(published: Option<&Published>) -> &[KnownQuery]
    ensures { result.now ≡ known_in (option_map (λ p. results_of p.now) published.entry) }
{
    match published {
        Some(published) => published.known(),
        None => &[],
    }
}

/// The ambiguities of the strings of all paths of a list, in order. They are encoded again, without searches for
/// the coverage queries that are known.
fn all_ambiguities(
    alloc: Global,
    roads: &RoadMap,
    grid: &Grid,
    paths: &PathList,
    margin: Margin,
    search: &mut Dijkstra,
) -> Result<Vec<NamedObstacle>, AllocError>
    requires grid { IsGrid (map_of roads.now) grid.now.nodes.items }
    requires encoded { AreEncodings margin (map_of roads.now) (items paths.now) }
    ensures { IfOk result (λ all. Ambiguities margin (map_of roads.now) (all_named (items paths.now))
        (list_map named_obstacle_of all.items)) }
{
    let mut all = Vec::new(alloc);
    for k in 0..paths.len() {
        let Some((name, path, published)) = paths.item_at(k) else {
            unreachable!()
        };
        let known = known_of(published);
        let found = found_on(alloc, roads, Some(grid), path, margin, known, search)?;
        push_found(alloc, &mut all, name, &found)?;
    }
    Ok(all)
}

impl Register {
    ghost use Rattle.std.specs.Prelude.{Some, None, string_bytes};
    ghost use Rattle.olr_commands.specs.State.{Ambiguous};
    ghost use Rattle.olr_register.specs.Answered.{Answered};

    /// The ambiguities of strings: those of the path of the name, or of all paths.
    pub(crate) fn ambiguous(&mut self, name: Option<String>) -> Result<Reply, CommandFault>
        ensures { Answered self.old (Ambiguous (option_map string_bytes name)) result self.new }
    {
        match &name {
            Some(name) => self.ambiguity(name),
            None => self.ambiguities(),
        }
    }

    /// The ambiguities of the strings of the paths, in order. Nothing changes, not even a
    /// count. The faults are `BatchOpen` and `Memory`, in this order of precedence.
    #[inline(never)]
    pub fn ambiguities(&mut self) -> Result<Reply, CommandFault>
        ensures { Answered self.old (Ambiguous None) result self.new }
    {
        if self.batch.is_some() {
            return Err(CommandFault::BatchOpen);
        }
        let nodes = self.roads.node_ids(self.alloc)?;
        let grid = Grid::new(self.alloc, &self.roads, &nodes)?;
        let search = &mut self.searches.query;
        let margin = self.margin;
        let all = all_ambiguities(self.alloc, &self.roads, &grid, &self.paths, margin, search)?;
        Ok(Reply::Obstacles(all))
    }

    /// The ambiguities of the string of the path of that name: none if the path is not
    /// encodable. Nothing changes, not even a count. The faults are `BatchOpen`, `NoPath` and `Memory`, in this order of
    /// precedence.
    #[inline(never)]
    pub fn ambiguity(&mut self, name: &str) -> Result<Reply, CommandFault>
        ensures { Answered self.old (Ambiguous (Some name.now)) result self.new }
    {
        if self.batch.is_some() {
            return Err(CommandFault::BatchOpen);
        }
        let Some(path) = self.paths.path(name) else {
            return Err(CommandFault::NoPath);
        };
        let (alloc, roads, margin) = (self.alloc, &self.roads, self.margin);
        let search = &mut self.searches.query;
        let found = found_on(alloc, roads, None, path, margin, &[], search)?;
        let mut own = Vec::new(alloc);
        push_found(alloc, &mut own, name, &found)?;
        Ok(Reply::Obstacles(own))
    }
}
