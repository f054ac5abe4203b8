use crate::strip_costs::CostLists;
use crate::tables::Table;
use round_sweeps::SweepSpace;
use std::alloc::Global;

/// The memory of a solve, kept for the next one: as much as the largest pair so far needed, for sweeps and for costs of
/// each width. The result of a solve never depends on what is in it.
#[derive(Drop)]
pub struct Workspace {
    pub(crate) sweeps: SweepSpace,
    pub(crate) small_costs: CostLists<u32>,
    pub(crate) medium_costs: CostLists<u64>,
    pub(crate) large_costs: CostLists<u128>,
    pub(crate) narrow_table: Table<u64>,
    pub(crate) wide_table: Table<u128>,
}

impl Workspace {
    /// A workspace that keeps nothing yet. Takes no memory.
    pub fn new(alloc: Global) -> Workspace {
        Workspace {
            sweeps: SweepSpace::new(alloc),
            small_costs: CostLists::empty(alloc),
            medium_costs: CostLists::empty(alloc),
            large_costs: CostLists::empty(alloc),
            narrow_table: Table::empty(alloc),
            wide_table: Table::empty(alloc),
        }
    }
}
