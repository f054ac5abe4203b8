ghost use Rattle.std.specs.Prelude.{◌≡◌, ◌≤◌, ◌^◌, IfOk, pos};
ghost use Rattle.row_paths.specs.Solutions.{Solution};

use fku_types::NoMemory;
use std::alloc::Global;
use std::marker::Model;
use strip_graph::{Step, Tiling};

/// The chosen tiling of a pair, and its cost. Only the solving calls and `copy` make one.
#[derive(Drop)]
pub struct Solved {
    tiling: Tiling,
    cost: i128,
}

impl Model for Solved {
    ghost use Rattle.row_paths.specs.Solutions.{Solution};

    ghost Value = { Solution };

    ghost view = { λ s. record { row = s.tiling.row; word = s.tiling.word.items; cost = s.cost } };
}

impl Solved {
    // A solution of these parts.
    pub(crate) fn of(row: u32, word: Vec<Step>, cost: u128) -> Solved
        requires { cost ≤ 2 ^ 120 }
        ensures row { result.row ≡ row }
        ensures word { result.word ≡ word.items }
        ensures cost { result.cost ≡ pos cost }
    {
        Solved {
            tiling: Tiling { row, word },
            cost: cost as i128,
        }
    }

    /// The chosen tiling. Takes no memory.
    pub fn tiling(&self) -> &Tiling
        ensures row { result.now.row ≡ self.now.row }
        ensures word { result.now.word.items ≡ self.now.word }
    {
        &self.tiling
    }

    /// The cost of the tiling. Takes no memory.
    pub fn cost(&self) -> i128
        ensures { result ≡ self.now.cost }
    {
        self.cost
    }

    /// The tiling; the rest is dropped. Takes no memory.
    pub fn into_tiling(self) -> Tiling
        ensures row { result.row ≡ self.row }
        ensures word { result.word.items ≡ self.word }
    {
        let Solved { tiling, cost: _ } = self;
        tiling
    }

    /// An equal solution; or `NoMemory`.
    pub fn copy(&self, alloc: Global) -> Result<Solved, NoMemory>
        ensures { IfOk result (λ s. s ≡ self.now) }
    {
        Ok(Solved {
            tiling: Tiling {
                row: self.tiling.row,
                word: self.tiling.word.to_vec(alloc)?,
            },
            cost: self.cost,
        })
    }
}
