//! Twins: vertices of a ring that coincide with another one.

ghost use Rattle.std.specs.Prelude.{◌≡◌};
ghost use Rattle.ring_polygons.specs.Caps.{pass};

/// Whether a vertex at the point of one of a corner's three vertices blocks the corner's ear. The ring of a simple
/// contour has no such vertices. A composite has some at the ends of each bridge, since it passes them twice.
#[derive(Clone, Copy)]
pub enum Twins {
    /// They block it, as any vertex in its triangle does.
    Hinder,
    /// They do not block it.
    Pass,
}

/// Whether twins do not block ears.
pub fn are_passed(twins: Twins) -> bool
    ensures { result ≡ pass twins }
{
    match twins {
        Twins::Hinder => false,
        Twins::Pass => true,
    }
}
