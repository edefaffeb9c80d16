//! A value under a lock of one word (`Lock`): a token takes it and gives it back. Each token knows, by a ghost record, what its worker
//! did to the value.

ghost use Rattle.std.specs.Prelude.{◌≡◌};

use crate::limits::SPINS;
use crate::view::View;
use atomic_table::{Join, Play, Seat, Split, Table, TableRule};
use s66_model::Summed;
use std::alloc::{AllocError, Global};
use std::hint::spin_loop;
use std::sync::Wait;
use std::thread::yield_now;

struct Locked;

impl<S: Summed> TableRule<Option<S>, View, S> for Locked {
    ghost use Rattle.s66_share.specs.Locked.{Locked};
    ghost use Rattle.s66_share.specs.SeatViews.{founding};

    ghost holds = { Locked S.summary };

    ghost first = { λ key. founding (S.summary key) };
}

/// What a worker locks with. It takes no bytes.
pub type Token<S> = Seat<Option<S>, View>;

/// A value under a lock of one word, with which the seat records of all tokens agree while it is free.
#[derive(Drop)]
pub struct Lock<S: Summed + Drop> {
    table: Table<Option<S>, View, S, Locked, Global>,
    ghost one_word: { table.shared.table_id.words ≡ 1 },
    ghost one_slot: { table.shared.table_id.slots ≡ 1 },
}

/// The token takes the value, if the lock is free.
struct Takes;

impl<S: Summed> Play<Option<S>, View> for Takes {
    ghost use Rattle.s66_share.specs.Locked.{Took};

    ghost then = { Took S.summary };
}

/// The founding token takes the empty slot.
struct Founds;

impl<S> Play<Option<S>, View> for Founds {
    ghost use Rattle.s66_share.specs.Locked.{Founded};

    ghost then = { Founded };
}

/// The founding token gives the slot back with the value.
struct Settles;

impl<S> Play<Option<S>, View> for Settles {
    ghost use Rattle.s66_share.specs.Locked.{Gave, keep_books};

    ghost then = { Gave keep_books };
}

/// The token gives the value back.
struct Gives;

impl<S: Summed> Play<Option<S>, View> for Gives {
    ghost use Rattle.s66_share.specs.Locked.{Gave, keep_least};

    ghost then = { Gave (keep_least S.summary) };
}

/// The token gives the value back, and has read the best time.
struct Reads;

impl<S: Summed> Play<Option<S>, View> for Reads {
    ghost use Rattle.s66_share.specs.Locked.{Gave, read_best};

    ghost then = { Gave (read_best S.summary) };
}

/// A new token gets the first of the seat records.
struct Deals;

impl Split<View> for Deals {
    ghost use Rattle.s66_share.specs.SeatViews.{idle, first_of, rest_of};

    ghost left = { λ v. idle (rest_of v.books) };

    ghost right = { λ v. idle (first_of v.books) };
}

/// The other's seat records go before the token's own.
struct Collects;

impl Join<View> for Collects {
    ghost use Rattle.std.specs.Prelude.{[], ◌++◌};
    ghost use Rattle.s66_share.specs.SeatViews.{idle};

    ghost both = { λ v u. idle (u.books ++ v.books) };

    ghost spent = { idle [] };
}

impl<S: Summed + Drop> Lock<S> {
    ghost use Rattle.std.specs.Prelude.{◌≡◌, ℕ, ◌<◌, ◌≤◌, [], ◌∷◌, ◌++◌, length, All, IfOk, None};
    ghost use Rattle.s66_model.specs.{Agrees, opened};
    ghost use Rattle.s66_share.specs.{SummaryGoesOn, MayBecome, all_opened, books_of, renewed, idle, holding, first_of, rest_of, first_book, book, found, IsResting, IsHolding, IsIdle, HaveEvery};

    /// Waits until the lock is free, and takes the value.
    pub fn take<R: Wait>(&self, rt: &R, token: &mut Token<S>) -> S
        requires here { token.old.table_id ≡ self.now.table.shared.table_id }
        requires resting { IsResting token.old }
        ensures here { token.new.table_id ≡ token.old.table_id }
        ensures holding { token.new.me ≡ (holding (S.summary result) (book token.old ∷ []), (0, None) ∷ []) }
        ensures agrees { Agrees (S.summary result) (book token.old) }
    {
        for _ in rt.forever() {
            if self.table.shared.compare_exchange::<Takes>(token, 0, 0, 1) == 0 {
                let Some(value) = self.table.shared.exchange(token, 0, None) else {
                    unreachable!()
                };
                return value;
            }
            self.wait();
        }
        unreachable!()
    }

    /// Waits until the lock seems to be free, for a short time on its processor; after that it lets other threads run.
    fn wait(&self) {
        for _ in 0..SPINS {
            if self.table.shared.peek(0) == 0 {
                return;
            }
            spin_loop();
        }
        yield_now();
    }

    /// Gives the value back after a call of the token's worker, which keeps the least time that it knew.
    pub fn give(&self, token: &mut Token<S>, value: S)
        requires here { token.old.table_id ≡ self.now.table.shared.table_id }
        requires holding { IsHolding token.old }
        requires agrees { Agrees (found token.old) (book token.old) }
        requires follows { MayBecome (book token.old).who (found token.old) (S.summary value) }
        ensures here { token.new.table_id ≡ token.old.table_id }
        ensures resting { token.new.me ≡ (
          idle (renewed (S.summary value) (book token.old) (book token.old).least ∷ []),
          [],
        ) }
    {
        let None = self.table.shared.exchange(token, 0, Some(value)) else {
            unreachable!()
        };
        self.table.shared.store::<Gives>(token, 0, 0);
    }

    /// Gives the value back after a call of the token's worker, which has read the best time.
    pub fn give_read(&self, token: &mut Token<S>, value: S)
        requires here { token.old.table_id ≡ self.now.table.shared.table_id }
        requires holding { IsHolding token.old }
        requires agrees { Agrees (found token.old) (book token.old) }
        requires follows { MayBecome (book token.old).who (found token.old) (S.summary value) }
        ensures here { token.new.table_id ≡ token.old.table_id }
        ensures resting { token.new.me ≡ (idle (opened (S.summary value) (book token.old).who ∷ []), []) }
    {
        let None = self.table.shared.exchange(token, 0, Some(value)) else {
            unreachable!()
        };
        self.table.shared.store::<Reads>(token, 0, 0);
    }

    /// The value under a lock, and a token with the seat records of all workers. If out of memory, the value is dropped.
    pub fn found(alloc: Global, value: S) -> Result<(Lock<S>, Token<S>), AllocError>
        requires { 0 < length (S.summary value).accounts }
        ensures key { IfOk result (λ r. r.0.table.shared.key ≡ value) }
        ensures here { IfOk result (λ r. r.1.table_id ≡ r.0.table.shared.table_id) }
        ensures books { IfOk result (λ r. r.1.me ≡ (idle (all_opened (S.summary value)), [])) }
    {
        let (table, mut founder) = Table::vacant(alloc, &[1], 1, &value)?;
        table.shared.load::<Founds>(&mut founder, 0);
        let None = table.shared.exchange(&mut founder, 0, Some(value)) else {
            unreachable!()
        };
        table.shared.store::<Settles>(&mut founder, 0, 0);
        Ok((Lock { table }, founder))
    }

    /// A token for the worker of the first seat record. It waits for nobody.
    pub fn deal(&self, founder: &mut Token<S>) -> Token<S>
        requires here { founder.old.table_id ≡ self.now.table.shared.table_id }
        requires idle { IsIdle founder.old }
        requires some_book { 0 < length founder.old.me.0.books }
        ensures here { (founder.new.table_id ≡ founder.old.table_id) × (result.table_id ≡ founder.old.table_id) }
        ensures rest { founder.new.me ≡ (idle (rest_of founder.old.me.0.books), []) }
        ensures dealt { IsResting result × (book result ≡ first_book founder.old.me.0.books) }
    {
        self.table.shared.split_seat::<Deals>(founder)
    }

    /// Puts the seat records of another token before the token's own. It waits for nobody.
    pub fn join(&self, all: &mut Token<S>, other: Token<S>)
        requires here { (all.old.table_id ≡ self.now.table.shared.table_id) ×
            (other.table_id ≡ self.now.table.shared.table_id) }
        requires idle { IsIdle all.old × IsIdle other }
        ensures here { all.new.table_id ≡ all.old.table_id }
        ensures books { all.new.me ≡ (idle (other.me.0.books ++ all.old.me.0.books), []) }
    {
        self.table.shared.join_seat::<Collects>(all, other);
    }

    /// The value, once one token has the seat records of all workers.
    pub fn close(self, all: Token<S>) -> S
        requires here { all.table_id ≡ self.table.shared.table_id }
        requires idle { IsIdle all }
        requires every { HaveEvery (length (S.summary self.table.shared.key).accounts) all.me.0.books }
        ensures search { SummaryGoesOn (S.summary self.table.shared.key) (S.summary result) }
        ensures agrees { All (Agrees (S.summary result)) all.me.0.books }
        ensures once { (w : ℕ) → books_of w all.me.0.books ≤ 1 }
    {
        let Lock { table } = self;
        let mut closed = table.close_with(all);
        let value = closed.take(0);
        closed.free();
        match value {
            Some(x) => x,
            None => unreachable!(),
        }
    }
}
