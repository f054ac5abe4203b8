//! Ways to cap what no pair joins.
ghost use Rattle.surface_core.specs.Surfaces.{Capping, by_contour};

/// A way to cap the contours of sections that are in no pair. Only contracts speak of it: it says which triangles the
/// caps have.
pub trait CapRule {
    ghost capping: { Capping };
}

/// One cap for each contour.
pub struct ByContour {}

impl CapRule for ByContour {
    ghost capping = { by_contour };
}
