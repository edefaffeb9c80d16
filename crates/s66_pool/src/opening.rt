//! What a hub opens with, and the seats with which it closes: how many splits each worker has spent by the history of the ledger, and
//! whether all seats are there.

ghost use Rattle.std.specs.Prelude.{ℕ, [], ◌≡◌, ◌≤◌, ◌==◌, ◌-◌, ◌↔◌, length, slice_index_or, IfOk, IsTrue, if◌then◌else◌};
ghost use Rattle.s66_isa.specs.{some_of};
ghost use Rattle.s66_model.specs.{Problem, worker, spends, account_at};
ghost use Rattle.s66_ledger.specs.{entry_of, account_summary};
ghost use Rattle.s66_pool.specs.{HaveSeats};

use crate::seat::Seat;
use s66_ledger::{EventRecord, Ledger};
use std::alloc::{AllocError, Global};

/// How many splits an entry spends, if it is the worker's.
fn splits_in(entry: &EventRecord, w: u8) -> u32
    ensures { (b : Problem) → let stated = entry_of b entry.now [] [] in result ≡
        (if worker stated.0 == w then spends stated.0 stated.1 else 0) }
{
    match entry {
        EventRecord::Taken { w: by, splits, .. } => { if *by == w { *splits } else { 0 } }
        _ => 0,
    }
}

/// How many splits the worker's entries spend. In time linear in the history.
fn splits_by(ledger: &Ledger<'_>, w: u8) -> u32
    requires { (1 ≤ w) × (w ≤ ledger.now.workers) }
    ensures { result ≡ (account_at (account_summary ledger.now) w).splits }
{
    // proof only: no worker has spent more than all have
    let _spent = ledger.splits();
    let mut splits = 0;
    for entry in &ledger.history().entries {
        splits += splits_in(entry, w);
    }
    splits
}

/// The same of each worker.
pub(crate) fn splits_of_workers(alloc: Global, ledger: &Ledger<'_>) -> Result<Vec<u32>, AllocError>
    ensures { IfOk result (λ splits. (length splits.items ≡ ledger.now.workers) ×
        ((w : ℕ) → 1 ≤ w → w ≤ ledger.now.workers →
        slice_index_or splits.items (w - 1) 0 ≡ (account_at (account_summary ledger.now) w).splits)) }
{
    let mut splits = Vec::new(alloc);
    for i in 0..ledger.workers() {
        splits.push(splits_by(ledger, i + 1))?;
    }
    Ok(splits)
}

/// Whether a seat is the worker's.
fn has_seat<'a>(seats: &[Seat<'a>], w: u8) -> bool
    ensures { result ≡ some_of (λ s. s.book.who == w) seats.now }
{
    for seat in seats {
        if seat.number() == w {
            return true;
        }
    }
    false
}

/// Whether each worker from 1 to `workers` has a seat.
pub(crate) fn have_seats<'a>(workers: u8, seats: &[Seat<'a>]) -> bool
    ensures { IsTrue result ↔ HaveSeats workers seats.now }
{
    for i in 0..workers {
        if !has_seat(seats, i + 1) {
            return false;
        }
    }
    true
}
