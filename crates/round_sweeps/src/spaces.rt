//! The memory of sweeps, which later strips use again.
ghost use Rattle.std.specs.Prelude.{◌+◌, ◌*◌, ◌≤◌, OnOk, length};

use fku_types::NoMemory;
use fku_types::limits::MAX_COMPOSITE_VERTICES;
use std::alloc::Global;

/// The table of a potential and the ways of a search, as long as the largest strip so far needed. No result depends on
/// what stands there.
#[derive(Drop)]
pub struct SweepSpace {
    pub(crate) table: Vec<i64>,
    pub(crate) ways: Vec<bool>,
}

// The most numbers of a table that are kept although it was of no use. To make a longer one again takes little of the
// time that its strip takes.
const KEPT: usize = 4_000_000;

impl SweepSpace {
    /// A space that keeps nothing yet. Takes no memory.
    pub fn new(alloc: Global) -> SweepSpace {
        SweepSpace {
            table: Vec::new(alloc),
            ways: Vec::new(alloc),
        }
    }

    /// Lets go of the memory if it is much, since another solver needs memory too.
    pub fn let_go(&mut self, alloc: Global) {
        if self.table.len() > KEPT {
            self.table = Vec::new(alloc);
            self.ways = Vec::new(alloc);
        }
    }
}

// Makes a list at least so long.
fn lengthen<T: Copy + Drop>(list: &mut Vec<T>, size: usize, value: T) -> Result<(), NoMemory>
    ensures { OnOk result (size ≤ length list.new.items) }
{
    if list.len() < size {
        list.reserve_exact(size - list.len())?;
        list.resize(size, value)?;
    }
    Ok(())
}

/// Makes a space long enough for a strip.
pub(crate) fn fit_space(space: &mut SweepSpace, rows: usize, cols: usize) -> Result<(), NoMemory>
    requires rows { rows ≤ MAX_COMPOSITE_VERTICES }
    requires cols { cols ≤ MAX_COMPOSITE_VERTICES }
    ensures table { OnOk result ((cols + 1) * rows ≤ length space.new.table.items) }
    ensures ways { OnOk result ((cols + 1) * (rows + 1) ≤ length space.new.ways.items) }
{
    lengthen(&mut space.table, (cols + 1) * rows, 0)?;
    lengthen(&mut space.ways, (cols + 1) * (rows + 1), false)?;
    Ok(())
}
