//! Rings joined by a bridge.

ghost use Rattle.std.specs.Prelude.{◌≡◌, ◌+◌, ◌<◌, length, IfOk};
ghost use Rattle.plane_geom.specs.RingViews.{ring_view};
ghost use Rattle.ring_polygons.specs.Composites.{join, bridged};

use fku_types::NoMemory;
use plane_geom::Ring;
use std::alloc::Global;

/// A list up to a place, then once round another list from one of its places and back to it, then on from the first
/// place.
fn join<T: Copy + Drop>(
    alloc: Global,
    ring: &[T],
    other: &[T],
    place: usize,
    vertex: usize,
) -> Result<Vec<T>, NoMemory>
    requires place { place < length ring.now }
    requires vertex { vertex < length other.now }
    ensures { IfOk result (λ l. l.items ≡ join ring.now other.now place vertex) }
{
    let mut list = Vec::new(alloc);
    list.extend_from_slice(&ring[..place + 1])?;
    list.extend_from_slice(&other[vertex..])?;
    list.extend_from_slice(&other[..vertex + 1])?;
    list.extend_from_slice(&ring[place..])?;
    Ok(list)
}

/// Two rings joined by a bridge; or `NoMemory`.
pub fn joined(
    alloc: Global,
    ring: &Ring,
    other: &Ring,
    place: usize,
    vertex: usize,
) -> Result<Ring, NoMemory>
    requires place { place < length ring.now.points.items }
    requires vertex { vertex < length other.now.points.items }
    ensures { IfOk result (λ r. ring_view r ≡ bridged (ring_view ring.now) (ring_view other.now) place vertex) }
{
    let points = join(alloc, &ring.points, &other.points, place, vertex)?;
    let ids = join(alloc, &ring.ids, &other.ids, place, vertex)?;
    Ok(Ring { points, ids })
}
