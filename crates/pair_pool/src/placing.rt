//! The values that were made, in the order of the places.
ghost use Rattle.std.specs.Prelude.{◌≡◌, ◌<◌, All, None, Some, IfOk, IfSome, IsSome, length, slice_index_or, slice_set};
ghost use Rattle.pair_pool.specs.Batches.{IsMadeAt, AreSlots, AreMade};

use crate::batch::Batch;
use fku_types::NoMemory;
use std::alloc::Global;

// Puts a value into the slot of its place. The slot's old content is dropped.
fn put<M: Drop>(slots: &mut Vec<Option<M>>, place: usize, made: M)
    requires { place < length slots.old.items }
    ensures { slots.new.items ≡ slice_set slots.old.items place (Some made) }
{
    slots[place] = Some(made);
}

// The values that were made, each in the slot of its place.
fn placed<B: Batch>(
    alloc: Global,
    batch: &B,
    drawn: Vec<(usize, B::Made)>,
) -> Result<Vec<Option<B::Made>>, NoMemory>
    requires { All (λ d. IsMadeAt (B.places batch.now) (B.is_right batch.now) d.0 d.1) drawn.items }
    ensures slots { IfOk result (λ v. AreSlots (B.places batch.now) (B.is_right batch.now) v.items) }
    ensures full { IfOk result (λ v. All (λ d. IsSome (slice_index_or v.items d.0 None)) drawn.items) }
{
    let places = batch.places();
    let mut slots = Vec::with_capacity(alloc, places)?;
    for _ in 0..places {
        slots.push(None)?;
    }
    for (place, made) in drawn {
        put(&mut slots, place, made);
    }
    Ok(slots)
}

// The value that a worker made for a place; if none did, it is made here.
fn drawn_or_made<B: Batch>(
    alloc: Global,
    batch: &B,
    place: usize,
    drawn: Option<B::Made>,
    tools: &mut B::Tools,
) -> Result<B::Made, NoMemory>
    requires there { place < B.places batch.now }
    requires drawn { IfSome drawn (B.is_right batch.now place) }
    ensures { IfOk result (B.is_right batch.now place) }
{
    match drawn {
        Some(made) => Ok(made),
        None => batch.make(alloc, place, tools),
    }
}

// The values of all places, from those that were made.
pub(crate) fn in_places<B: Batch>(
    alloc: Global,
    batch: &B,
    drawn: Vec<(usize, B::Made)>,
) -> Result<Vec<B::Made>, NoMemory>
    requires { All (λ d. IsMadeAt (B.places batch.now) (B.is_right batch.now) d.0 d.1) drawn.items }
    ensures { IfOk result (λ v. AreMade (B.places batch.now) (B.is_right batch.now) v.items) }
{
    let places = batch.places();
    let mut slots = placed(alloc, batch, drawn)?;
    let mut all = Vec::with_capacity(alloc, places)?;
    let mut tools = batch.tools(alloc);
    for place in 0..places {
        let drawn = slots[place].take();
        all.push(drawn_or_made(alloc, batch, place, drawn, &mut tools)?)?;
    }
    Ok(all)
}

// The values of all places, made in order.
pub(crate) fn in_order<B: Batch>(alloc: Global, batch: &B) -> Result<Vec<B::Made>, NoMemory>
    ensures { IfOk result (λ v. AreMade (B.places batch.now) (B.is_right batch.now) v.items) }
{
    let places = batch.places();
    let mut all = Vec::with_capacity(alloc, places)?;
    let mut tools = batch.tools(alloc);
    for place in 0..places {
        all.push(batch.make(alloc, place, &mut tools)?)?;
    }
    Ok(all)
}
