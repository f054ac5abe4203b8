//! A law of the definition of composites.
ghost use Rattle.std.specs.Prelude.{◌≡◌, List};
ghost use Rattle.plane_geom.specs.Rings.{RingView};
ghost use Rattle.ring_polygons.specs.Bridges.{IsCompositeOf};

/// A law: rings have only one composite.
pub fn composites_are_one()
    ensures { (rings : List RingView) (a b : RingView) → IsCompositeOf rings a → IsCompositeOf rings b → a ≡ b }
{}
