//! The best time of a search as a word that is read without the lock, and only goes down. It is the least of what the seats at it keep.

ghost use Rattle.std.specs.Prelude.{◌≡◌, ◌<◌, ◌^◌, ◌≤◌, All, length, min, IfOk};
ghost use Rattle.atomic_table.specs.Seated.{TableId};

use atomic_table::{Play, Seat, Split, Table, TableRule};
use std::alloc::{AllocError, Global};
use std::marker::Model;

/// The word is the least of what the seats keep.
struct Lowest;

impl TableRule<(), u64, u64> for Lowest {
    ghost use Rattle.s66_share.specs.Hints.{IsLowest};

    ghost holds = { λ _. IsLowest };

    ghost first = { λ word. word };
}

/// The seat keeps the word that it reads.
struct Reads;

impl Play<(), u64> for Reads {
    ghost use Rattle.s66_share.specs.Hints.{Read};

    ghost then = { Read };
}

/// The seat keeps the lesser of the word that it finds and the one to which it lowers.
struct Lowers;

impl Play<(), u64> for Lowers {
    ghost use Rattle.s66_share.specs.Hints.{Lowered};

    ghost then = { Lowered };
}

/// A new seat keeps what the seat keeps.
struct Copies;

impl Split<u64> for Copies {
    ghost left = { λ kept. kept };

    ghost right = { λ kept. kept };
}

/// A word that only goes down.
#[derive(Drop)]
pub struct Hint {
    table: Table<(), u64, u64, Lowest, Global>,
}

impl Model for Hint {
    ghost Value = { TableId };

    ghost view = { λ h. h.table.shared.table_id };

    ghost invariant = { λ h. h.table.shared.table_id.words ≡ 1 };
}

/// A worker's seat at a hint. It keeps the least word that it opened with, read or lowered to.
#[derive(Drop)]
pub struct HintSeat {
    // a value of no bytes couldn't lie in a slice
    number: usize,
    token: Seat<(), u64>,
}

impl Model for HintSeat {
    ghost use Rattle.std.specs.Prelude.{◌<◌, ◌^◌};
    ghost use Rattle.s66_share.specs.Hints.{HintSeatOf};

    ghost Value = { HintSeatOf };

    ghost view = { λ s. record { hint = s.token.table_id; kept = s.token.me.0 } };

    ghost invariant = { λ s. s.token.me.0 < 2 ^ 32 };
}

impl HintSeat {
    fn new(number: usize, token: Seat<(), u64>) -> HintSeat
        requires { token.me.0 < 2 ^ 32 }
        ensures { result ≡ record { hint = token.table_id; kept = token.me.0 } }
    {
        HintSeat { number, token }
    }
}

impl Hint {
    /// A hint, and a seat for each worker. All keep this word.
    pub fn new(
        alloc: Global,
        word: u32,
        workers: usize,
    ) -> Result<(Hint, Vec<HintSeat>), AllocError>
        ensures count { IfOk result (λ r. length r.1.items ≡ workers) }
        ensures here { IfOk result (λ r. All (λ s. s.hint ≡ r.0) r.1.items) }
        ensures kept { IfOk result (λ r. All (λ s. s.kept ≡ word) r.1.items) }
    {
        let mut seats = Vec::with_capacity(alloc, workers)?;
        let first = u64::from(word);
        let (table, mut founder) = Table::of_words(alloc, &[first], &first)?;
        for i in 0..workers {
            let token = table.shared.split_seat::<Copies>(&mut founder);
            seats.push(HintSeat::new(i, token))?;
        }
        Ok((Hint { table }, seats))
    }

    /// The word, which the seat then keeps; it isn't above what the seat kept. It waits for nobody.
    pub fn load(&self, seat: &mut HintSeat) -> u32
        requires { seat.old.hint ≡ self.now }
        ensures here { seat.new.hint ≡ seat.old.hint }
        ensures kept { seat.new.kept ≡ result }
        ensures known { result ≤ seat.old.kept }
    {
        self.table.shared.load::<Reads>(&mut seat.token, 0) as u32
    }

    /// Lowers the word to this one if it is above it, and returns what it was; that isn't above what the seat kept. The seat then
    /// keeps the lesser of the two. It waits for nobody.
    pub fn lower(&self, seat: &mut HintSeat, to: u32) -> u32
        requires { seat.old.hint ≡ self.now }
        ensures here { seat.new.hint ≡ seat.old.hint }
        ensures kept { seat.new.kept ≡ min result to }
        ensures known { result ≤ seat.old.kept }
    {
        self.table
            .shared
            .fetch_min::<Lowers>(&mut seat.token, 0, u64::from(to)) as u32
    }
}
