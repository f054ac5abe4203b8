//! Laws on lists of solutions.
ghost use Rattle.std.specs.Prelude.{◌≡◌, ◌≤◌, ◌<◌, ◌^◌, List, All, length, unsigned_abs};
ghost use Rattle.plane_geom.specs.Planes.{signed_sum};
ghost use Rattle.strip_graph.specs.Strips.{Strip, IsStrip};
ghost use Rattle.row_paths.specs.Solutions.{Solution};
ghost use Rattle.pair_pool.specs.Solvers.{SolvesEach};

use fku_types::limits::MAX_PAIRS;

/// Pairs have only one list of solutions: each pair has one chosen tiling.
pub fn solutions_are_one()
    ensures { (pairs : List Strip) (xs ys : List Solution) → SolvesEach pairs xs → SolvesEach pairs ys → xs ≡ ys }
{}

/// The costs of the solutions of at most `MAX_PAIRS` pairs add up to a number of 128 bits.
pub fn sums_are_bounded()
    ensures { (pairs : List Strip) (xs : List Solution) → All IsStrip pairs
        → SolvesEach pairs xs
        → length pairs ≤ MAX_PAIRS
        → unsigned_abs (signed_sum (λ x. x.cost) xs) < 2 ^ 127 }
{}
