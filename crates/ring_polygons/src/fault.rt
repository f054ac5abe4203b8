//! Why rings are not joined.

ghost use Rattle.std.specs.Prelude.{◌≡◌};

use fku_types::limits::MAX_COMPOSITE_VERTICES;
use thiserror::Error;

/// Why rings are not joined.
#[derive(Debug, Drop, Error)]
pub enum ComposeFault {
    /// The composite would have more than `MAX_COMPOSITE_VERTICES` vertices: `count` of them.
    #[error("the composite would have {count} vertices, and may have {most}", most = MAX_COMPOSITE_VERTICES)]
    TooLong { count: u32 },
    #[error("out of memory")]
    NoMemory,
}

impl From<fku_types::NoMemory> for ComposeFault {
    ghost use Rattle.ring_polygons.specs.declared.fault.ComposeFault.TheVariants as fault;

    ghost from_gives = { λ _ f. f ≡ fault.NoMemory };

    fn from(_error: fku_types::NoMemory) -> ComposeFault {
        ComposeFault::NoMemory
    }
}
