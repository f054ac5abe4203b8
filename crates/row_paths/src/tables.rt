ghost use Rattle.std.specs.Prelude.{◌≤◌, OnOk, length};
ghost use Rattle.row_paths.specs.Tables.{IsTableOf};

use crate::amounts::{Amount, Cost};
use crate::strip_costs::StripCosts;
use fku_types::NoMemory;
use std::alloc::Global;

/// What a search writes, and each later search uses again: the least costs from the places of one row; for each place
/// of a strip, whether its word goes on by V; and the costs between a place and the starts and ends of words.
#[derive(Drop)]
pub(crate) struct Table<C> {
    pub sums: Vec<C>,
    pub ways: Vec<bool>,
    pub starts: Vec<C>,
    pub ends: Vec<C>,
}

impl<C> Table<C> {
    /// A table for no strip. Takes no memory.
    pub fn empty(alloc: Global) -> Table<C> {
        Table {
            sums: Vec::new(alloc),
            ways: Vec::new(alloc),
            starts: Vec::new(alloc),
            ends: Vec::new(alloc),
        }
    }
}

// Makes a list at least so long. Its old items stay.
fn lengthen<T: Copy + Drop>(list: &mut Vec<T>, size: usize, value: T) -> Result<(), NoMemory>
    ensures { OnOk result (size ≤ length list.new.items) }
{
    if list.len() < size {
        list.reserve_exact(size - list.len())?;
        list.resize(size, value)?;
    }
    Ok(())
}

/// Makes a table long enough for the searches of a strip.
pub(crate) fn fit_table<C: Cost>(
    strip: &StripCosts<'_, C>,
    table: &mut Table<C::Sum>,
) -> Result<(), NoMemory>
    ensures { OnOk result (IsTableOf strip.now table.new) }
{
    let rows = strip.rows() as usize;
    let width = strip.cols() as usize;
    lengthen(&mut table.sums, width + 1, C::Sum::none())?;
    lengthen(&mut table.ways, 2 * rows * (width + 1), false)?;
    lengthen(&mut table.starts, 2 * rows, C::Sum::none())?;
    lengthen(&mut table.ends, 2 * rows, C::Sum::none())?;
    Ok(())
}
