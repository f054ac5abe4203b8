//! One number for each edge.
ghost use Rattle.std.specs.Prelude.{◌≡◌};
ghost use Rattle.triangle_meshes.specs.Keys.{key, side_key};

/// One number for two ids, in order.
pub(crate) fn key(first: u32, second: u32) -> u64
    ensures { result ≡ key (first, second) }
{
    4294967296 * u64::from(first) + u64::from(second)
}

/// One number for the two ids of an edge, in either direction. Takes no memory.
pub fn side_key(from: u32, to: u32) -> u64
    ensures { result ≡ side_key (from, to) }
{
    if from <= to {
        key(from, to)
    } else {
        key(to, from)
    }
}
