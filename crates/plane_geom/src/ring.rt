//! Rings.

ghost use Rattle.std.specs.Prelude.{◌≡◌, IfOk, length};

use fku_types::{NoMemory, Point};
use std::alloc::Global;

/// A closed contour: its points in order, and the mesh number of each vertex, from 0.
#[derive(Drop)]
pub struct Ring {
    pub points: Vec<Point>,
    pub ids: Vec<u32>,
    ghost one_id_each: { length points.items ≡ length ids.items },
}

impl Ring {
    ghost use Rattle.plane_geom.specs.RingViews.{ring_view};

    /// An equal ring, or `NoMemory`.
    pub fn copy(&self, alloc: Global) -> Result<Ring, NoMemory>
        ensures { IfOk result (λ r. ring_view r ≡ ring_view self.now) }
    {
        Ok(Ring {
            points: self.points.to_vec(alloc)?,
            ids: self.ids.to_vec(alloc)?,
        })
    }
}
