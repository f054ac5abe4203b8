//! Batches: values made place by place, each independently.
ghost use Rattle.std.specs.Prelude.{◌≡◌, ◌<◌, All, IfOk};

use fku_types::NoMemory;
use std::alloc::Global;

/// Values made place by place, each independently, so that workers can make them side by side.
pub(crate) trait Batch: Sync {
    ghost use Rattle.std.specs.Prelude.{ℕ};

    /// What one worker uses for all its places.
    type Tools: Send + Drop;

    /// The value made at a place.
    type Made: Send + Drop;

    // how many places there are
    ghost places: { Self → ℕ };

    // the values that are right for a place
    ghost is_right: { Self → ℕ → Self.Made → Type 0 };

    /// How many places there are.
    fn places(&self) -> usize
        ensures { result ≡ places self.now };

    /// Some of the places, in the order in which workers take them. A final pass makes the values of all other places.
    fn order(&self, alloc: Global) -> Result<Vec<usize>, NoMemory>
        ensures { IfOk result (λ v. All (λ place. place < places self.now) v.items) };

    /// New tools. Takes no memory.
    fn tools(&self, alloc: Global) -> Self::Tools;

    /// The value of a place, or `NoMemory`.
    fn make(
        &self,
        alloc: Global,
        place: usize,
        tools: &mut Self::Tools,
    ) -> Result<Self::Made, NoMemory>
        requires { place < places self.now }
        ensures { IfOk result (is_right self.now place) };
}
