//! Laws: what the cutting rule determines, and what it keeps.
ghost use Rattle.std.specs.Prelude.{◌≡◌, ◌≤◌, ℕ, ℤ, List, length};
ghost use Rattle.fku_types.specs.declared.points.Point.{Point};
ghost use Rattle.plane_geom.specs.Planes.{turns, signed_sum, side_of};
ghost use Rattle.plane_geom.specs.Rings.{origin};
ghost use Rattle.ring_polygons.specs.declared.twins.Twins.{Twins};
ghost use Rattle.ring_polygons.specs.Caps.{cut, places_by, cap_by, points_at, area_of};
ghost use Rattle.ring_polygons.specs.Ears.{IsCutBy};

/// A law: the rule cuts a ring into only one list of triangles.
pub fn cuts_are_determined()
    ensures { (twins : Twins) (sign : ℤ) (ring : List Point) (ids : List ℕ) (one other : List (List ℕ))
        → IsCutBy twins sign ring ids one
        → IsCutBy twins sign ring ids other
        → one ≡ other }
{}

/// A law: the signed areas of a cap's triangles add up to that of its ring, as lists of points and as lists of vertex
/// numbers.
pub fn caps_keep_area()
    ensures points { (twins : Twins) (ring : List Point) → 3 ≤ length ring
        → signed_sum side_of (cut origin (places_by twins ring) ring) ≡ turns ring }
    ensures numbers { (twins : Twins) (vertices ring : List Point) (ids : List ℕ) → 3 ≤ length ring
        → points_at vertices ids ≡ ring
        → area_of vertices (cap_by twins ring ids) ≡ turns ring }
{}
