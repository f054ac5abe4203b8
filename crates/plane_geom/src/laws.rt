//! A law: rings may be shared between threads.

use crate::ring::Ring;

fn cross_threads<T: Send + Sync>() {}

/// Rings may be sent to other threads and shared between them: this compiles only if `Ring` is `Send` and `Sync`.
pub fn rings_cross_threads() {
    cross_threads::<Ring>();
}
