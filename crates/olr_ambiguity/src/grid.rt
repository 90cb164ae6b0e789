//! The nodes of a map by the cell of a grid in which they are.
ghost use Rattle.std.specs.Prelude.{◌≡◌, ◌≤◌, ◌<◌, ◌*◌, ◌^◌, ◌-ℤ◌, ◌≤ℤ◌, ℤ, pos, nat_abs, All, Contains, IfOk, IsTrue};
ghost use Rattle.std.specs.List.Sorted.{IsNonDecreasingBy};
ghost use Rattle.olr_spec.specs.Ambiguity.{all_nodes};
ghost use Rattle.olr_spec.specs.Map.{has_node};
ghost use Rattle.olr_bearing.specs.Ranges.{degree_units};
ghost use Rattle.olr_ambiguity.specs.Grids.{IsGrid, IsGridOf, cell_at, cell_of, cells_from, last_cell};

use crate::own_line::coord_of;
use olr_coords::Coord;
use olr_model::{MapRead, NodeId};
use std::alloc::{AllocError, Global};

/// The width of a cell, in units: 23 m of latitude.
const CELL: u64 = 67_108_864;
/// The number of cells in a row.
const COLUMNS: u64 = 2_097_152;
/// The lowest latitude, -90 degrees.
pub(crate) const LOWEST_LAT: i64 = -29_491_200_000_000;
/// The lowest longitude, -180 degrees.
pub(crate) const LOWEST_LON: i64 = -58_982_400_000_000;

/// A node in its cell.
#[derive(Clone, Copy)]
pub(crate) struct Placed {
    /// The number of the cell, row by row.
    pub cell: u64,
    /// The node.
    pub node: NodeId,
    /// Its coordinate.
    pub place: Coord,
}

/// Nodes of a map, in ascending order of their cells.
#[derive(Drop)]
pub struct Grid {
    pub(crate) nodes: Vec<Placed>,
}

/// The number of cells from `low` up to `z`.
pub(crate) fn cells_from(low: i64, z: i64) -> u64
    requires low { nat_abs low ≤ degree_units 180 }
    requires z { nat_abs z ≤ nat_abs low }
    ensures value { result ≡ cells_from low z }
    ensures few { result ≤ last_cell }
{
    z.abs_diff(low) / CELL
}

/// Of the values from `low` to `-low` the one nearest to `z`.
fn clamped(low: i64, z: i128) -> i64
    requires low { nat_abs low ≤ degree_units 180 }
    requires below { low ≤ℤ pos 0 }
    ensures least { (d : ℤ) → nat_abs d ≤ nat_abs low → d ≤ℤ z → d ≤ℤ result }
    ensures greatest { (d : ℤ) → nat_abs d ≤ nat_abs low → z ≤ℤ d → result ≤ℤ d }
    ensures within { nat_abs result ≤ nat_abs low }
{
    let low = i128::from(low);
    z.clamp(low, -low) as i64
}

/// The least and the greatest of the values within `reach` of `z`, among those from `low` to `-low`.
pub(crate) fn around(low: i64, z: i128, reach: u128) -> (i64, i64)
    requires low { nat_abs low ≤ degree_units 180 }
    requires below { low ≤ℤ pos 0 }
    requires z { nat_abs z ≤ 10 ^ 31 }
    requires reach { reach ≤ 5 * 10 ^ 37 }
    ensures around { (d : ℤ) → nat_abs d ≤ nat_abs low → nat_abs (z -ℤ d) ≤ reach → (result.0 ≤ℤ d) × (d ≤ℤ result.1) }
    ensures within { (nat_abs result.0 ≤ nat_abs low) × (nat_abs result.1 ≤ nat_abs low) }
{
    let reach = reach as i128;
    (clamped(low, z - reach), clamped(low, z + reach))
}

/// The number of a cell.
pub(crate) fn cell_at(row: u64, column: u64) -> u64
    requires row { row ≤ last_cell }
    requires column { column ≤ last_cell }
    ensures { result ≡ cell_at row column }
{
    row * COLUMNS + column
}

/// The number of a coordinate's cell.
fn cell_of(place: Coord) -> u64
    ensures { result ≡ cell_of place }
{
    let row = cells_from(LOWEST_LAT, place.lat());
    let column = cells_from(LOWEST_LON, place.lon());
    cell_at(row, column)
}

impl Grid {
    /// The grid of a map, by the numbers of all its nodes in ascending order.
    pub fn new<M: MapRead>(alloc: Global, map: &M, ids: &[NodeId]) -> Result<Grid, AllocError>
        requires { ids.now ≡ all_nodes (M.map map.now) }
        ensures { IfOk result (λ grid. IsGrid (M.map map.now) grid.nodes.items) }
    {
        Grid::of(alloc, map, ids)
    }

    /// The grid of these nodes of a map.
    pub(crate) fn of<M: MapRead>(alloc: Global, map: &M, ids: &[NodeId]) -> Result<Grid, AllocError>
        requires { All (λ v. IsTrue (has_node (M.map map.now) v)) ids.now }
        ensures { IfOk result (λ grid. IsGridOf (M.map map.now) (Contains ids.now) grid.nodes.items) }
    {
        let mut nodes = Vec::with_capacity(alloc, ids.len())?;
        for id in ids {
            let node = *id;
            let place = coord_of(map, node);
            let cell = cell_of(place);
            nodes.push(Placed { cell, node, place })?;
        }
        nodes.sort_unstable_by_key(|node| node.cell);
        Ok(Grid { nodes })
    }

    /// The nodes whose cells are from `first` on and before `end`.
    pub(crate) fn within(&self, first: u64, end: u64) -> &[Placed]
        requires { IsNonDecreasingBy (λ e. e.cell) self.now.nodes.items }
        ensures some { (e : Placed) → Contains result.now e → Contains self.now.nodes.items e }
        ensures all { (e : Placed) → Contains self.now.nodes.items e → first ≤ e.cell → e.cell < end → Contains result.now e }
    {
        let nodes = self.nodes.as_slice();
        let start = nodes.partition_point(|node| node.cell < first);
        let end = nodes.partition_point(|node| node.cell < end);
        &nodes[start.min(end)..end]
    }
}
