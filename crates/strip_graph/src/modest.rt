//! Modest numbers, the values of certificates: at most `MAX_NUMBER` in absolute value, so that differences fit an
//! `i128`.
ghost use Rattle.std.specs.Prelude.{◌<◌, pos, ◌-ℤ◌, ◌≤ℤ◌, ◌↔◌, IsTrue, All};
ghost use Rattle.strip_graph.specs.Strips.{step_cost_limit};
ghost use Rattle.strip_graph.specs.Certificates.{IsModest};

use fku_types::limits::MAX_NUMBER;

/// Whether a number is modest: at most `MAX_NUMBER` in absolute value. Takes no memory.
pub fn is_modest(value: i128) -> bool
    ensures { IsTrue result ↔ IsModest value }
{
    value.unsigned_abs() <= MAX_NUMBER
}

/// Whether all numbers of a list are modest; true for an empty list. Takes no memory.
pub fn are_modest(values: &[i128]) -> bool
    ensures { IsTrue result ↔ All IsModest values.now }
{
    for value in values {
        if !is_modest(*value) {
            return false;
        }
    }
    true
}

/// Whether a step from one modest number to another raises it by at most a cost, which is below 2 * 10^29. Takes no memory.
pub fn rises_at_most(from: i128, to: i128, cost: u128) -> bool
    requires from { IsModest from }
    requires to { IsModest to }
    requires cost { cost < step_cost_limit }
    ensures { IsTrue result ↔ (to -ℤ from) ≤ℤ pos cost }
{
    to - from <= cost as i128
}

/// Whether a way from one modest number to another raises it by at least `least`, which may be any number. Takes no
/// memory.
pub fn rises_at_least(from: i128, to: i128, least: i128) -> bool
    requires from { IsModest from }
    requires to { IsModest to }
    ensures { IsTrue result ↔ least ≤ℤ (to -ℤ from) }
{
    least <= to - from
}
