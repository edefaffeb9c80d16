//! The hub (`Hub`): a ledger under a lock, with a seat for each worker. Its calls are in `calls.rt`.

use crate::opening::{have_seats, splits_of_workers};
use crate::seat::Seat;
use s66_ledger::Ledger;
use s66_share::Lock;
use std::alloc::{AllocError, Global};
use std::boxed::Box;
use std::marker::Model;
use thiserror::Error;

/// The ledger of a search under its lock.
#[derive(Drop)]
pub struct Hub<'a> {
    // boxed, so that a call moves a pointer
    pub(crate) lock: Lock<Box<Ledger<'a>>>,
    pub(crate) workers: u8,
}

impl<'a> Model for Hub<'a> {
    ghost use Rattle.std.specs.Prelude.{◌≡◌, ◌≤◌, length};
    ghost use Rattle.s66_ledger.specs.{account_summary};
    ghost use Rattle.s66_pool.specs.Hubs.{HubOf};

    ghost Value = { HubOf };

    ghost view = { λ h.
        record { id = h.lock.table.shared.table_id; summary = account_summary h.lock.table.shared.key.value } };

    ghost invariant = { λ h. (1 ≤ h.workers) × (length (account_summary h.lock.table.shared.key.value).accounts ≡
        h.workers) };
}

/// Some worker's seat is missing.
#[derive(Clone, Copy, Debug, Drop, Error, PartialEq, Eq)]
#[error("a worker's seat is missing")]
pub struct SeatsMissing;

impl<'a> Hub<'a> {
    ghost use Rattle.std.specs.Prelude.{◌≡◌, ◌≤◌, All, length, map, IfOk, IfErr};
    ghost use Rattle.s66_isa.specs.{weigh, rising};
    ghost use Rattle.s66_model.specs.{best_time, Agrees, opened};
    ghost use Rattle.s66_ledger.specs.{account_summary};
    ghost use Rattle.s66_pool.specs.{HaveSeats};

    /// The ledger under a lock, and a seat for each worker, in order of their numbers.
    ///
    /// In time linear in the history times the number of workers. If out of memory, the ledger is dropped.
    pub fn new(alloc: Global, ledger: Ledger<'a>) -> Result<(Hub<'a>, Vec<Seat<'a>>), AllocError>
        requires { 1 ≤ ledger.workers }
        ensures summary { IfOk result (λ r. r.0.summary ≡ account_summary ledger.entry) }
        ensures seats { IfOk result (λ r. r.1.items ≡
            map (λ w. record { hub = r.0.id; book = opened r.0.summary w }) (rising ledger.entry.workers 1)) }
        ensures here { IfOk result (λ r. All (λ s. s.hub ≡ r.0.id) r.1.items) }
    {
        let workers = ledger.workers();
        let splits = splits_of_workers(alloc, &ledger)?;
        let mut seats = Vec::with_capacity(alloc, workers as usize)?;
        let Ok(value) = Box::new(alloc, ledger) else {
            return Err(AllocError);
        };
        let (lock, mut founder) = Lock::found(alloc, value)?;
        for i in 0..workers {
            let token = lock.deal(&mut founder);
            seats.push_reserved(Seat::new(i + 1, splits[i as usize], token));
        }
        Ok((Hub { lock, workers }, seats))
    }

    /// The ledger, once the seats of all workers are back, in any order; else hub and seats are handed back.
    ///
    /// In time quadratic in the number of workers.
    pub fn close(
        self,
        mut seats: Vec<Seat<'a>>,
    ) -> Result<Ledger<'a>, (SeatsMissing, Hub<'a>, Vec<Seat<'a>>)>
        requires { All (λ s. s.hub ≡ self.id) seats.items }
        ensures rule { IfOk result (λ l. l.rule ≡ self.entry.summary.rule) }
        ensures problem { IfOk result (λ l. l.problem ≡ self.entry.summary.problem) }
        ensures budget { IfOk result (λ l. l.budget ≡ self.entry.summary.budget) }
        ensures workers { IfOk result (λ l. l.workers ≡ length self.entry.summary.accounts) }
        ensures best { IfOk result (λ l. best_time l.problem l.state ≤ self.entry.summary.best) }
        ensures agrees { IfOk result (λ l. All (λ s. Agrees (account_summary l) s.book) seats.entry.items) }
        ensures splits { IfOk result (λ l. weigh (λ s. s.book.account.splits) seats.entry.items ≡ l.state.spent) }
        ensures missing { IfErr result (λ e. (e.1 ≡ self.entry) × (e.2.items ≡ seats.entry.items) ×
            ¬ HaveSeats (length self.entry.summary.accounts) seats.entry.items) }
    {
        let Hub { lock, workers } = self;
        if !have_seats(workers, seats.as_slice()) {
            return Err((SeatsMissing, Hub { lock, workers }, seats));
        }
        let Some(last) = seats.pop() else {
            unreachable!()
        };
        let mut all = last.into_token();
        while let Some(seat) = seats.pop() {
            lock.join(&mut all, seat.into_token());
        }
        let ledger = Box::into_inner(lock.close(all));
        // proof only: all have spent what the accounts of the workers add up to
        let _spent = ledger.splits();
        Ok(ledger)
    }
}
