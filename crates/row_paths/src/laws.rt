//! Laws: how large solutions become, how few costs a solve reads, and that solutions may be shared between threads.
ghost use Rattle.std.specs.Prelude.{◌≡◌, ℕ, ◌^◌, ◌<◌, ◌≤◌, ℤ, List, All, unsigned_abs};
ghost use Rattle.strip_graph.specs.Strips.{Strip, IsStrip, arcs, rows, cols};
ghost use Rattle.row_paths.specs.Counts.{most_readings, plain_readings};
ghost use Rattle.row_paths.specs.Solutions.{AreOffsets, Solution, Solves};

use crate::solved::Solved;
use crate::workspace::Workspace;

/// A law: the cost of a solution is below 10^34 in absolute value, and each offset of a strip below 10^35.
pub fn solutions_are_bounded()
    ensures cost { (s : Strip) (x : Solution) → IsStrip s → Solves s x → unsigned_abs x.cost < 10 ^ 34 }
    ensures offsets { (s : Strip) (xs : List ℤ) → IsStrip s
        → AreOffsets (arcs s) (rows s) (cols s) (rows s) xs
        → All (λ v. unsigned_abs v < 10 ^ 35) xs }
{}

/// A law: the bound on the readings of `solve` in numbers. With 1,024 points below and above it is 88,256,600. With as
/// many points below as above, and at least 32, it is less than what the plain program reads (`solve_plainly` of
/// `plain_tables`), which makes a table for each start row.
pub fn readings_are_few()
    ensures bound { most_readings 1024 1024 ≡ 88256600 }
    ensures plain { plain_readings 1024 1024 ≡ 2151681024 }
    ensures fewer { (n : ℕ) → 32 ≤ n → most_readings n n < plain_readings n n }
{}

fn cross_threads<T: Send + Sync>() {}

/// Solutions and workspaces may be sent to other threads and shared between them: this compiles only if they are `Send`
/// and `Sync`.
pub fn solutions_cross_threads() {
    cross_threads::<Solved>();
    cross_threads::<Workspace>();
}
