//! Laws on made stacks.
ghost use Rattle.std.specs.Prelude.{◌≡◌, ℕ, ◌+◌, ◌%◌, ◌<◌, ◌≤◌, max, ◌-ℤ◌, unsigned_abs};
ghost use Rattle.section_core.specs.Accepted.{IsAccepted};
ghost use Rattle.demo_stack.specs.Demo.{direction, demo};

use fku_types::limits::{MAX_DEMO_SECTIONS, MAX_DEMO_VERTICES};

/// A stack has no fault: its names are distinct, its heights rise, and it keeps the ranges and the limits.
pub fn stacks_are_accepted()
    ensures { (seed sections vertices : ℕ) → 1 ≤ sections
        → sections ≤ MAX_DEMO_SECTIONS
        → 3 ≤ vertices
        → vertices ≤ MAX_DEMO_VERTICES
        → IsAccepted (demo seed sections vertices) }
{}

/// The places go round the border of the square of side 2,000 about the origin, one unit from each to the next, and
/// from the last to the first.
pub fn directions_go_round()
    ensures border { (p : ℕ) → p < 8000 → max (unsigned_abs (direction p).0) (unsigned_abs (direction p).1) ≡ 1000 }
    ensures steps { (p : ℕ) → p < 8000
        → unsigned_abs ((direction ((p + 1) % 8000)).0 -ℤ (direction p).0)
        + unsigned_abs ((direction ((p + 1) % 8000)).1 -ℤ (direction p).1)
        ≡ 1 }
{}
