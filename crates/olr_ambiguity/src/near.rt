//! The nodes near the LRPs of one reference.
ghost use Rattle.std.specs.Prelude.{◌≡◌, ◌≤ℤ◌, ◌+◌, ◌⊎◌, ◌↔◌, ℕ, length, slice_get, All, Contains, IfOk, IsTrue, OnOk, Some};
ghost use Rattle.std.specs.List.{list_any};
ghost use Rattle.olr_spec.specs.Coordinates.{Coord as Place, within};
ghost use Rattle.olr_spec.specs.Map.{has_line};
ghost use Rattle.olr_spec.specs.Receiver.{last_number};
ghost use Rattle.olr_ambiguity.specs.Grids.{AreWindows, Covers, is_in};

use crate::own_line::own_line;
use crate::rivals::{Window, window_of};
use olr_binary::Reference;
use olr_coords::Coord;
use olr_model::{LineId, MapRead, NodeId};
use std::alloc::{AllocError, Global};

/// The windows of the path's own lines at the LRPs.
pub(crate) fn windows<M: MapRead>(
    alloc: Global,
    map: &M,
    reference: &Reference,
    own: &[LineId],
) -> Result<Vec<Window>, AllocError>
    requires own { All (λ x. IsTrue (has_line (M.map map.now) x)) own.now }
    requires count { length own.now ≡ last_number reference.now + 1 }
    ensures { IfOk result (λ windows. AreWindows (M.map map.now) reference.now own.now windows.items) }
{
    let mut windows = Vec::with_capacity(alloc, own.len())?;
    for k in 0..own.len() {
        let own = own_line(map, reference, own, k);
        windows.push(window_of(own.place, own.here))?;
    }
    Ok(windows)
}

/// Whether a latitude or longitude is within bounds.
fn is_within(bounds: (i64, i64), z: i64) -> bool
    ensures { result ≡ within bounds.0 bounds.1 z }
{
    bounds.0 <= z && z <= bounds.1
}

/// The least bounds that have these bounds within.
fn widened(bounds: (i64, i64), others: (i64, i64)) -> (i64, i64)
    ensures least { (result.0 ≤ℤ bounds.0) × (result.0 ≤ℤ others.0) }
    ensures greatest { (bounds.1 ≤ℤ result.1) × (others.1 ≤ℤ result.1) }
{
    (bounds.0.min(others.0), bounds.1.max(others.1))
}

/// Bounds of the latitudes of these windows.
fn latitudes(windows: &[Window]) -> (i64, i64)
    ensures { Covers result windows.now }
{
    let mut bounds = (i64::MAX, i64::MIN);
    for window in windows {
        bounds = widened(bounds, window.lat);
    }
    bounds
}

/// Whether a coordinate is in one of these windows. Most are out of the bounds of all latitudes.
fn is_in_any(windows: &[Window], latitudes: (i64, i64), place: Coord) -> bool
    requires { Covers latitudes windows.now }
    ensures { result ≡ list_any (λ w. is_in w place) windows.now }
{
    if !is_within(latitudes, place.lat()) {
        return false;
    }
    windows.iter().any(|it| is_within(it.lat, place.lat()) && is_within(it.lon, place.lon()))
}

/// Appends the node in a slot, if there is one and its coordinate is in one of these windows.
fn push_near(
    found: &mut Vec<NodeId>,
    id: Option<NodeId>,
    place: Coord,
    windows: &[Window],
    latitudes: (i64, i64),
) -> Result<(), AllocError>
    requires { Covers latitudes windows.now }
    ensures { OnOk result ((v : ℕ) → Contains found.new.items v
        ↔ (Contains found.old.items v ⊎ ((id ≡ Some v) × IsTrue (list_any (λ w. is_in w place) windows.now)))) }
{
    if is_in_any(windows, latitudes, place) {
        if let Some(id) = id {
            found.push(id)?;
        }
    }
    Ok(())
}

/// The nodes whose coordinates are in one of these windows.
pub(crate) fn nodes_in(
    alloc: Global,
    ids: &[Option<NodeId>],
    places: &[Coord],
    windows: &[Window],
) -> Result<Vec<NodeId>, AllocError>
    requires { length ids.now ≡ length places.now }
    ensures right { IfOk result (λ found. (v : ℕ) → Contains found.items v → (k : ℕ) × (slice_get ids.now k ≡ Some (Some v))) }
    ensures whole { IfOk result (λ found. (k v : ℕ) (c : Place) → slice_get ids.now k ≡ Some (Some v) →
        slice_get places.now k ≡ Some c → IsTrue (list_any (λ w. is_in w c) windows.now) → Contains found.items v) }
{
    let mut found = Vec::new(alloc);
    let latitudes = latitudes(windows);
    for k in 0..ids.len() {
        push_near(&mut found, ids[k], places[k], windows, latitudes)?;
    }
    Ok(found)
}
