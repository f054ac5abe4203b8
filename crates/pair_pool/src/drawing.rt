//! Workers, who take places and make their values.
ghost use Rattle.std.specs.Prelude.{◌<◌, All, IfOk};
ghost use Rattle.std.specs.Thread.{IsSync, IsSend};
ghost use Rattle.pair_pool.specs.Batches.{IsMadeAt};

use crate::batch::Batch;
use fku_types::NoMemory;
use std::alloc::Global;
use std::sync::atomic::{AtomicUsize, Ordering};
use std::thread::{Threads, join};

// The places that one worker takes, with their values, all made with one set of tools. The worker takes the place at
// the next number of the counter, until there is none.
fn draw<B: Batch>(
    alloc: Global,
    batch: &B,
    order: &[usize],
    next: &AtomicUsize,
) -> Result<Vec<(usize, B::Made)>, NoMemory>
    requires { All (λ place. place < B.places batch.now) order.now }
    ensures { IfOk result (λ v. All (λ d. IsMadeAt (B.places batch.now) (B.is_right batch.now) d.0 d.1) v.items) }
{
    let mut drawn = Vec::new(alloc);
    let mut tools = batch.tools(alloc);
    for _ in 0..order.len() {
        let number = next.fetch_add(1, Ordering::SeqCst);
        if number >= order.len() {
            break;
        }
        let place = order[number];
        let made = batch.make(alloc, place, &mut tools)?;
        drawn.push((place, made))?;
    }
    Ok(drawn)
}

// The values that `workers` workers make, each in a thread of its own, and the result of `beside`, which the calling
// thread runs meanwhile.
pub(crate) fn draw_all<R: Threads, B: Batch, F: FnOnce() -> A, A>(
    rt: &R,
    alloc: Global,
    batch: &B,
    order: &[usize],
    next: &AtomicUsize,
    workers: u32,
    beside: F,
) -> (Result<Vec<(usize, B::Made)>, NoMemory>, A)
    requires order { All (λ place. place < B.places batch.now) order.now }
    requires beside { F.pre beside }
    ensures drawn { IfOk result.0 (λ v. All (λ d. IsMadeAt (B.places batch.now) (B.is_right batch.now) d.0 d.1) v.items) }
    ensures beside { F.post beside result.1 }
{
    if workers == 0 {
        return (Ok(Vec::new(alloc)), beside());
    }
    let others = workers - 1;
    let (one_drawn, (others_drawn, made)) = join(
        rt,
        || -> Result<Vec<(usize, B::Made)>, NoMemory>
            requires { IsSync B.row × IsSend B.Made.row × All (λ place. place < B.places batch.now) order.now }
            ensures { IfOk result (λ v. All (λ d.
                IsMadeAt (B.places batch.entry.now) (B.is_right batch.entry.now) d.0 d.1) v.items) }
        { draw(alloc, batch, order, next) },
        move || -> (Result<Vec<(usize, B::Made)>, NoMemory>, A)
            requires { IsSync B.row × IsSend B.Tools.row × IsSend B.Made.row
                × (All (λ place. place < B.places batch.now) order.now) × F.pre beside }
            ensures { (IfOk result.0 (λ v. All
                (λ d. IsMadeAt (B.places batch.entry.now) (B.is_right batch.entry.now) d.0 d.1) v.items))
                × F.post beside result.1 }
        { draw_all(rt, alloc, batch, order, next, others, beside) },
    );
    (all_drawn(batch, one_drawn, others_drawn), made)
}

// The values of one worker, and then those of others.
fn all_drawn<B: Batch>(
    batch: &B,
    one: Result<Vec<(usize, B::Made)>, NoMemory>,
    others: Result<Vec<(usize, B::Made)>, NoMemory>,
) -> Result<Vec<(usize, B::Made)>, NoMemory>
    requires one { IfOk one (λ v. All (λ d. IsMadeAt (B.places batch.now) (B.is_right batch.now) d.0 d.1) v.items) }
    requires others { IfOk others (λ v. All (λ d. IsMadeAt (B.places batch.now) (B.is_right batch.now) d.0 d.1) v.items) }
    ensures { IfOk result (λ v. All (λ d. IsMadeAt (B.places batch.now) (B.is_right batch.now) d.0 d.1) v.items) }
{
    let mut drawn = one?;
    let mut rest = others?;
    drawn.append(&mut rest)?;
    Ok(drawn)
}
