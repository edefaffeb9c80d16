//! Pieces of work that workers take in turn, each in a thread of its own, and whose results are put in order (`make_each`).

ghost use Rattle.std.specs.Prelude.{◌≡◌, ℕ, ◌<◌, All, IfOk, IfSome, None, length};
ghost use denote.Param.Send.{IsSync, IsSend};
ghost use Rattle.s66_answer.specs.Turns.{AreMade, ArePut};

use crate::observer::{Observer, Silent};
use crate::share::{Made, make_share};
use std::alloc::{AllocError, Global};
use std::sync::atomic::AtomicUsize;
use std::thread;
use std::thread::{Threads, join};

/// What is to be made for each number.
pub trait Task<T> {
    ghost accepts: { Self → ℕ → Type 0 };

    ghost gives: { Self → ℕ → T → Type 0 };

    /// `Err` is out of memory.
    fn make(&self, number: usize) -> Result<T, AllocError>
        requires { accepts self.now number }
        ensures { IfOk result (λ x. gives self.now number x) };
}

/// The shares of so many workers, each in a thread of its own if one can be made. `Err` is out of memory for what was made.
fn make_shares<R: Threads + Sync, T: Send + Drop, W: Task<T> + Sync>(
    rt: &R,
    alloc: Global,
    task: &W,
    count: usize,
    workers: usize,
    next: &AtomicUsize,
) -> Result<Vec<Vec<Made<T>>>, AllocError>
    requires { (i : ℕ) → i < count → W.accepts task.now i }
    ensures { IfOk result (λ all. All (λ s. All (λ m. (m.number < count) × W.gives task.now m.number m.value) s.items)
        all.items) }
{
    thread::map_indices(
        rt,
        alloc,
        workers,
        &|_| -> Vec<Made<T>>
            requires { (i : ℕ) → i < count → W.accepts task.now i }
            ensures { All (λ m. (m.number < count) × W.gives task.entry.now m.number m.value) result.items }
        { make_share(alloc, task, count, next, &mut Silent) },
    )
}

/// The shares of all workers, of which the calling thread is one; it alone calls the observer. Those of the others are left out if
/// memory runs out for them.
fn share_out<R: Threads + Sync, T: Send + Drop, W: Task<T> + Sync, O: Observer>(
    rt: &R,
    alloc: Global,
    task: &W,
    count: usize,
    others: usize,
    observer: &mut O,
) -> (Vec<Vec<Made<T>>>, Vec<Made<T>>)
    requires { (i : ℕ) → i < count → W.accepts task.now i }
    ensures others { All (λ s. All (λ m. (m.number < count) × W.gives task.now m.number m.value) s.items)
        result.0.items }
    ensures own { All (λ m. (m.number < count) × W.gives task.now m.number m.value) result.1.items }
{
    let counter = AtomicUsize::new(0);
    let next = &counter;
    if others == 0 {
        return (
            Vec::new(alloc),
            make_share(alloc, task, count, next, observer),
        );
    }
    let (theirs, own) = join(
        rt,
        || -> Result<Vec<Vec<Made<T>>>, AllocError>
            requires { IsSync R.row × IsSync W.row × IsSend T.row × ((i : ℕ) → i < count → W.accepts task.now i) }
            ensures { IfOk result (λ all. All (λ s. All
                (λ m. (m.number < count) × W.gives task.entry.now m.number m.value) s.items) all.items) }
        { make_shares(rt, alloc, task, count, others, next) },
        || -> Vec<Made<T>>
            requires { (i : ℕ) → i < count → W.accepts task.now i }
            ensures { All (λ m. (m.number < count) × W.gives task.entry.now m.number m.value) result.items }
        { make_share(alloc, task, count, next, observer) },
    );
    match theirs {
        Ok(theirs) => (theirs, own),
        Err(_) => (Vec::new(alloc), own),
    }
}

/// A place for each number, with nothing in it.
fn places_for<T: Drop>(alloc: Global, count: usize) -> Result<Vec<Option<T>>, AllocError>
    ensures count { IfOk result (λ places. length places.items ≡ count) }
    ensures empty { IfOk result (λ places. All (λ p. p ≡ None) places.items) }
{
    let mut places = Vec::new(alloc);
    for _ in 0..count {
        places.push(None)?;
    }
    Ok(places)
}

/// Puts what a worker made into its places.
fn put_share<T: Drop, W: Task<T>>(_task: &W, places: &mut [Option<T>], mut share: Vec<Made<T>>)
    requires within { All (λ m. (m.number < length places.old) × W.gives _task.now m.number m.value) share.items }
    requires put { ArePut (W.gives _task.now) places.old }
    ensures count { length places.new ≡ length places.old }
    ensures put { ArePut (W.gives _task.now) places.new }
{
    while let Some(made) = share.pop() {
        places[made.number] = Some(made.value);
    }
}

/// Puts what the other workers made into its places.
fn put_shares<T: Drop, W: Task<T>>(
    task: &W,
    places: &mut [Option<T>],
    mut shares: Vec<Vec<Made<T>>>,
)
    requires within { All (λ s. All (λ m. (m.number < length places.old) × W.gives task.now m.number m.value) s.items)
        shares.items }
    requires put { ArePut (W.gives task.now) places.old }
    ensures count { length places.new ≡ length places.old }
    ensures put { ArePut (W.gives task.now) places.new }
{
    while let Some(share) = shares.pop() {
        put_share(task, places, share);
    }
}

/// What is in a place, or else is made now. `Err` is out of memory.
fn made_at<T: Drop, W: Task<T>>(
    task: &W,
    place: &mut Option<T>,
    number: usize,
) -> Result<T, AllocError>
    requires accepts { W.accepts task.now number }
    requires put { IfSome place.old (W.gives task.now number) }
    ensures made { IfOk result (W.gives task.now number) }
    ensures left { place.new ≡ None }
{
    match place.take() {
        Some(value) => Ok(value),
        None => task.make(number),
    }
}

/// What is in the places, in order, and what is made now for those in which nothing is.
fn take_all<T: Drop, W: Task<T>>(
    alloc: Global,
    task: &W,
    places: &mut [Option<T>],
) -> Result<Vec<T>, AllocError>
    requires accepts { (i : ℕ) → i < length places.old → W.accepts task.now i }
    requires put { ArePut (W.gives task.now) places.old }
    ensures count { IfOk result (λ all. length all.items ≡ length places.old) }
    ensures made { IfOk result (λ all. AreMade (W.gives task.now) all.items) }
{
    let mut all = Vec::new(alloc);
    for number in 0..places.len() {
        let value = made_at(task, &mut places[number], number)?;
        all.push(value)?;
    }
    Ok(all)
}

/// Makes what is asked for each number below the count, with so many workers at a time, and gives it in order. What other workers
/// leave, since memory ran out for them, the calling thread makes at the end. `Err` is out of memory.
pub fn make_each<R: Threads + Sync, T: Send + Drop, W: Task<T> + Sync, O: Observer>(
    rt: &R,
    alloc: Global,
    task: &W,
    count: usize,
    workers: usize,
    observer: &mut O,
) -> Result<Vec<T>, AllocError>
    requires { (i : ℕ) → i < count → W.accepts task.now i }
    ensures count { IfOk result (λ all. length all.items ≡ count) }
    ensures made { IfOk result (λ all. AreMade (W.gives task.now) all.items) }
{
    let others = workers.min(count).saturating_sub(1);
    let mut empty = places_for(alloc, count)?;
    let (theirs, own) = share_out(rt, alloc, task, count, others, observer);
    let places = empty.as_mut_slice();
    put_share(task, places, own);
    put_shares(task, places, theirs);
    take_all(alloc, task, places)
}
