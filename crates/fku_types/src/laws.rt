//! A law: values of this crate may be shared between threads.

use crate::memory::NoMemory;
use crate::points::Point;
use crate::rules::CostRule;

fn cross_threads<T: Send + Sync>() {}

/// Points, cost rules and the error for no memory may be sent to other threads and shared between them: this compiles
/// only if they are `Send` and `Sync`.
pub fn values_cross_threads() {
    cross_threads::<Point>();
    cross_threads::<CostRule>();
    cross_threads::<NoMemory>();
}
