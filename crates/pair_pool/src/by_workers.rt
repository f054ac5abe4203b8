//! The values of a batch, made by workers side by side.
ghost use Rattle.std.specs.Prelude.{All, IfOk};
ghost use Rattle.pair_pool.specs.Batches.{IsMadeAt, AreMade};

use crate::batch::Batch;
use crate::drawing::draw_all;
use crate::placing::{in_order, in_places};
use fku_types::NoMemory;
use std::alloc::Global;
use std::sync::atomic::AtomicUsize;
use std::thread::Threads;

// The values of all places, from those that workers made.
fn put_in_places<B: Batch>(
    alloc: Global,
    batch: &B,
    drawn: Result<Vec<(usize, B::Made)>, NoMemory>,
) -> Result<Vec<B::Made>, NoMemory>
    requires { IfOk drawn (λ v. All (λ d. IsMadeAt (B.places batch.now) (B.is_right batch.now) d.0 d.1) v.items) }
    ensures { IfOk result (λ v. AreMade (B.places batch.now) (B.is_right batch.now) v.items) }
{
    in_places(alloc, batch, drawn?)
}

/// The values of all places, made by at most `workers` workers, who take the places; and the result of `beside`, which
/// the calling thread runs meanwhile. With one worker or one place the calling thread makes all values in order, and
/// then runs `beside`.
pub(crate) fn made_beside<R: Threads, B: Batch, F: FnOnce() -> A, A>(
    rt: &R,
    alloc: Global,
    batch: &B,
    workers: u32,
    beside: F,
) -> (Result<Vec<B::Made>, NoMemory>, A)
    requires { F.pre beside }
    ensures made { IfOk result.0 (λ v. AreMade (B.places batch.now) (B.is_right batch.now) v.items) }
    ensures beside { F.post beside result.1 }
{
    let busy = batch.places().min(workers as usize) as u32;
    if busy <= 1 {
        return (in_order(alloc, batch), beside());
    }
    let order = match batch.order(alloc) {
        Err(NoMemory) => return (Err(NoMemory), beside()),
        Ok(order) => order,
    };
    let next = AtomicUsize::new(0);
    let (drawn, other) = draw_all(rt, alloc, batch, &order, &next, busy, beside);
    (put_in_places(alloc, batch, drawn), other)
}

/// The values of all places, made as by `made_beside`, with nothing beside.
pub(crate) fn made_by_workers<R: Threads, B: Batch>(
    rt: &R,
    alloc: Global,
    batch: &B,
    workers: u32,
) -> Result<Vec<B::Made>, NoMemory>
    ensures { IfOk result (λ v. AreMade (B.places batch.now) (B.is_right batch.now) v.items) }
{
    made_beside(rt, alloc, batch, workers, || ()).0
}
