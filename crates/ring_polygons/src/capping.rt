//! Caps: a ring is cut into triangles, one ear after another.
ghost use Rattle.std.specs.Prelude.{◌≡◌, ℕ, ◌+◌, ◌<◌, ◌≤◌, List, [], ◌∷◌, length, All, IfOk, if◌then◌else◌, int_le, pos};
ghost use Rattle.fku_types.specs.declared.points.Point.{Point};
ghost use Rattle.fku_types.specs.Points.{IsInRange};
ghost use Rattle.plane_geom.specs.Rings.{origin, IsRing, LeavesOver};
ghost use Rattle.plane_geom.specs.Planes.{turns};
ghost use Rattle.plane_geom.specs.RingViews.{IsContour};
ghost use Rattle.ring_polygons.specs.Caps.{cap_by, folded_by, top_cap, turned_over, faced, cap_on, LeavesRing, folded, corner, sign, sign_of, is_folded, points_at, area_of};
ghost use Rattle.ring_polygons.specs.Ears.{IsCutBy, IsCutInto};

use crate::ears::{after_place, before_place, corner_side, ear_place};
use crate::faces::Face;
use crate::states::{EarState, forget};
use crate::twins::Twins;
use fku_types::limits::MAX_COMPOSITE_VERTICES;
use fku_types::{NoMemory, Point};
use plane_geom::{Ring, turns};
use std::alloc::Global;

/// The triangles of a cap, each by the mesh numbers of its three vertices, and how many of them do not turn as the ring
/// does.
#[derive(Drop)]
pub struct CapList {
    pub triangles: Vec<[u32; 3]>,
    pub folded: u32,
}

/// A corner of a ring of ids with its neighbours.
fn corner(ids: &[u32], place: usize) -> [u32; 3]
    requires { place < length ids.now }
    ensures { result ≡ corner 0 ids.now place }
{
    let before = before_place(ids.len(), place);
    let after = after_place(ids.len(), place);
    [ids[before], ids[place], ids[after]]
}

/// 1 if a corner of a ring is folded, else 0.
fn count_folded(left: bool, points: &[Point], place: usize) -> u32
    requires place { place < length points.now }
    requires range { All IsInRange points.now }
    ensures { result ≡ (if is_folded (sign left) (corner origin points.now place) then 1 else 0) }
{
    if corner_side(left, points, place) <= 0 {
        1
    } else {
        0
    }
}

/// Whether a ring turns counterclockwise, or not at all.
fn turns_left(points: &[Point]) -> bool
    requires few { length points.now ≤ MAX_COMPOSITE_VERTICES }
    requires range { All IsInRange points.now }
    ensures { result ≡ int_le (pos 0) (turns points.now) }
{
    turns(points) >= 0
}

/// The cap of a ring as a top. While more than three vertices are left, the first ear is cut off, or the corner at
/// place 0 if there is no ear; the last three vertices are the last triangle. An ear is a corner that turns as the ring
/// does, with no other vertex in its closed triangle that blocks it; `twins` decides whether a vertex at a point of the
/// corner's own vertices blocks it. The ring has 3 to `MAX_COMPOSITE_VERTICES` points in range. Or `NoMemory`.
pub fn cap_by(alloc: Global, ring: &Ring, twins: Twins) -> Result<CapList, NoMemory>
    requires { IsRing ring.now.points.items }
    ensures triangles { IfOk result (λ l. l.triangles.items ≡ cap_by twins ring.now.points.items ring.now.ids.items) }
    ensures ears { IfOk result (λ l.
        IsCutBy twins (sign_of ring.now.points.items) ring.now.points.items ring.now.ids.items l.triangles.items) }
    ensures folded { IfOk result (λ l. l.folded ≡ folded_by twins ring.now.points.items) }
    ensures count { IfOk result (λ l. length l.triangles.items + 2 ≡ length ring.now.points.items) }
    ensures left_over { IfOk result (λ l. LeavesOver l.triangles.items (ring.now.ids.items ∷ []) []) }
    ensures vertices { IfOk result (λ l.
        (n : ℕ) → All (λ v. v < n) ring.now.ids.items → All (λ t. All (λ v. v < n) t) l.triangles.items) }
    // If ids are numbers of vertices, the signed areas of the triangles add up to that of the ring.
    ensures area { IfOk result (λ l.
        (vertices : List Point) → points_at vertices ring.now.ids.items ≡ ring.now.points.items
        → area_of vertices l.triangles.items ≡ turns ring.now.points.items) }
{
    let left = turns_left(&ring.points);
    let mut points = ring.points.to_vec(alloc)?;
    let mut ids = ring.ids.to_vec(alloc)?;
    let mut states = vec![in alloc; EarState::Open(0); points.len()]?;
    let mut triangles = Vec::with_capacity(alloc, points.len() - 2)?;
    let mut folded = 0;
    'cutting: while points.len() > 3 {
        let place = ear_place(twins, left, &points, &mut states);
        folded += count_folded(left, &points, place);
        triangles.push(corner(&ids, place))?;
        forget(&mut states, place);
        points.remove(place);
        ids.remove(place);
        states.remove(place);
    }
    folded += count_folded(left, &points, 1);
    triangles.push(corner(&ids, 1))?;
    Ok(CapList { triangles, folded })
}

/// The cap of a ring as a top. While more than three vertices are left, the first ear is cut off, or the corner at
/// place 0 if there is no ear; the last three vertices are the last triangle. An ear is a corner that turns as the ring
/// does, with no other vertex in its closed triangle. The ring has 3 to `MAX_CONTOUR_VERTICES` points in range. Or
/// `NoMemory`.
pub fn cap(alloc: Global, ring: &Ring) -> Result<CapList, NoMemory>
    requires { IsContour ring.now }
    ensures triangles { IfOk result (λ l. l.triangles.items ≡ top_cap ring.now.points.items ring.now.ids.items) }
    ensures ears { IfOk result (λ l.
        IsCutInto (sign_of ring.now.points.items) ring.now.points.items ring.now.ids.items l.triangles.items) }
    ensures folded { IfOk result (λ l. l.folded ≡ folded ring.now.points.items) }
    ensures count { IfOk result (λ l. length l.triangles.items + 2 ≡ length ring.now.points.items) }
    ensures left_over { IfOk result (λ l. LeavesOver l.triangles.items (ring.now.ids.items ∷ []) []) }
    ensures vertices { IfOk result (λ l.
        (n : ℕ) → All (λ v. v < n) ring.now.ids.items → All (λ t. All (λ v. v < n) t) l.triangles.items) }
{
    cap_by(alloc, ring, Twins::Hinder)
}

// Exchanges the last two vertices of each triangle.
fn exchange(triangles: &mut [[u32; 3]])
    ensures { triangles.new ≡ turned_over triangles.old }
{
    for triangle in triangles.iter_mut() {
        let [a, b, c] = *triangle;
        *triangle = [a, c, b];
    }
}

/// Turns the triangles of tops for a face: above they stay as they are, below the last two vertices of each are
/// exchanged.
pub fn turn_to(triangles: &mut [[u32; 3]], face: Face)
    ensures { triangles.new ≡ faced face triangles.old }
{
    match face {
        Face::Below => exchange(triangles),
        Face::Above => {}
    }
}

/// The cap of a ring on a face of its section: above, the triangles of `cap`; below, the same with the last two
/// vertices of each exchanged. The ring has 3 to `MAX_CONTOUR_VERTICES` points in range. Or `NoMemory`.
pub fn cap_on(alloc: Global, ring: &Ring, face: Face) -> Result<CapList, NoMemory>
    requires { IsContour ring.now }
    ensures triangles { IfOk result (λ l. l.triangles.items ≡ cap_on face ring.now.points.items ring.now.ids.items) }
    ensures folded { IfOk result (λ l. l.folded ≡ folded ring.now.points.items) }
    ensures count { IfOk result (λ l. length l.triangles.items + 2 ≡ length ring.now.points.items) }
    ensures left_over { IfOk result (λ l. LeavesRing face l.triangles.items ring.now.ids.items) }
    ensures vertices { IfOk result (λ l.
        (n : ℕ) → All (λ v. v < n) ring.now.ids.items → All (λ t. All (λ v. v < n) t) l.triangles.items) }
{
    let mut list = cap(alloc, ring)?;
    turn_to(&mut list.triangles, face);
    Ok(list)
}
