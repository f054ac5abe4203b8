//! Marked spans, and what is wrong with a list of them.
ghost use Rattle.std.specs.Prelude.{◌≡◌};

use thiserror::Error;

/// A span that a tiling has to contain, by its row and column, both from 0.
#[derive(Clone, Copy, PartialEq, Eq, Debug)]
pub struct Mark {
    pub row: u32,
    pub col: u32,
}

/// What is wrong with a list of marks: the index, from 0, of the first mark with a fault, and the first fault of that
/// mark, in this order; or that memory ran out.
#[derive(Debug, Drop, Error)]
pub enum MarkFault {
    /// The pair has no such row, or no such column.
    #[error("mark {mark} has no span")]
    NoSpan { mark: u32 },
    /// An earlier mark has the same row or the same column.
    #[error("mark {mark} repeats a row or a column")]
    Repeated { mark: u32 },
    /// Seen from the list's first mark, an earlier mark has a smaller row and a larger column than this one, or the
    /// reverse, so no tiling contains this mark and all earlier ones.
    #[error("mark {mark} crosses an earlier one")]
    Cross { mark: u32 },
    #[error("out of memory")]
    NoMemory,
}

impl From<fku_types::NoMemory> for MarkFault {
    ghost use Rattle.landmarks.specs.declared.marks.MarkFault.TheVariants as fault;

    ghost from_gives = { λ _ f. f ≡ fault.NoMemory };

    fn from(_error: fku_types::NoMemory) -> MarkFault {
        MarkFault::NoMemory
    }
}
