//! Laws: how large costs become, and that pairs may be shared between threads.
ghost use Rattle.std.specs.Prelude.{◌≡◌, ℕ, ◌*◌, ◌^◌, ◌<◌, ◌≤◌, List};
ghost use Rattle.fku_types.specs.declared.rules.CostRule.TheVariants.{Span, Area};
ghost use Rattle.strip_graph.specs.declared.tilings.Step.{Step};
ghost use Rattle.strip_graph.specs.Strips.{Strip, IsStrip, arcs, rows, cols, step_cost_limit};
ghost use Rattle.strip_graph.specs.Tilings.{IsAcceptable};
ghost use Rattle.strip_graph.specs.Words.{word_cost};

use crate::pairs::Pair;
use crate::tilings::{Step, Tiling};

/// A law: a step costs at most 1.2 * 10^13 under `Span`, less than 10^27 under `Area`, and less than 2 * 10^29 under any
/// rule.
pub fn steps_are_bounded()
    ensures span { (s : Strip) (i j : ℕ) (t : Step) → IsStrip s → s.cost ≡ Span → arcs s i j t ≤ 12 * 10 ^ 12 }
    ensures area { (s : Strip) (i j : ℕ) (t : Step) → IsStrip s → s.cost ≡ Area → arcs s i j t < 10 ^ 27 }
    ensures any { (s : Strip) (i j : ℕ) (t : Step) → IsStrip s → arcs s i j t < step_cost_limit }
{}

/// A law: an acceptable tiling costs less than 10^34.
pub fn tilings_are_bounded()
    ensures { (s : Strip) (i j : ℕ) (w : List Step) → IsStrip s
        → IsAcceptable (rows s) (cols s) i j w
        → word_cost (arcs s) i j w < 10 ^ 34 }
{}

fn cross_threads<T: Send + Sync>() {}

/// Pairs, steps and tilings may be sent to other threads and shared between them: this compiles only if they are `Send`
/// and `Sync`.
pub fn pairs_cross_threads() {
    cross_threads::<Pair>();
    cross_threads::<Step>();
    cross_threads::<Tiling>();
}
