//! What one worker takes and makes: the next number, until all are taken.

ghost use Rattle.std.specs.Prelude.{ℕ, ◌<◌, All};

use crate::observer::Observer;
use crate::turns::Task;
use std::alloc::Global;
use std::sync::atomic::{AtomicUsize, Ordering};

/// What a worker made for a number.
#[derive(Drop)]
pub(crate) struct Made<T> {
    pub(crate) number: usize,
    pub(crate) value: T,
}

/// A worker's share: it takes the next number and makes what is asked for it, until all are taken or memory runs out.
pub(crate) fn make_share<T: Drop, W: Task<T>, O: Observer>(
    alloc: Global,
    task: &W,
    count: usize,
    next: &AtomicUsize,
    observer: &mut O,
) -> Vec<Made<T>>
    requires { (i : ℕ) → i < count → W.accepts task.now i }
    ensures { All (λ m. (m.number < count) × W.gives task.now m.number m.value) result.items }
{
    let mut share = Vec::new(alloc);
    for _ in 0..count {
        let number = next.fetch_add(1, Ordering::SeqCst);
        if count <= number {
            break;
        }
        observer.done(number, count);
        let Ok(value) = task.make(number) else {
            break;
        };
        if share.push(Made { number, value }).is_err() {
            break;
        }
    }
    share
}
