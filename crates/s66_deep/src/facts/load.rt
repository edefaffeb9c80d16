//! Instructions of a kind between two places, of which a load line may speak.

use crate::facts::ground::Ground;
use crate::facts::network::Paths;
use crate::facts::nodes::time_at;
use crate::facts::spans::{Spans, at_issue, at_start, node_at};
use arrayvec::ArrayVec;
use s66_isa::{BLOCK_LIMIT, Set};

/// What may be said of a load: its instructions begin so late, and so much is left after them; the wait follows.
#[derive(Clone, Copy)]
pub(crate) struct Best {
    pub(crate) after: u32,
    pub(crate) left: i64,
    pub(crate) wait: i64,
}

/// How an instruction may use its unit between two places.
#[derive(Clone, Copy)]
pub(crate) struct Way {
    pub(crate) number: u8,
    /// How long it has its unit.
    pub(crate) amount: u32,
    /// How much later than the first place this begins at least.
    pub(crate) head: u32,
    /// How much earlier than the last place this is over at least; it may be over later.
    pub(crate) left: i64,
}

/// The longest paths between two places and those that lie between them.
pub(crate) trait Reach {
    /// From the first one.
    fn head(&self, place: usize) -> Option<u32>;

    /// To the last one.
    fn tail(&self, place: usize) -> Option<u32>;
}

/// Between two places of a block.
#[derive(Clone, Copy)]
pub(crate) struct Between<'a> {
    pub(crate) spans: &'a Spans,
    pub(crate) from: usize,
    pub(crate) to: usize,
}

impl Reach for Between<'_> {
    fn head(&self, place: usize) -> Option<u32> {
        self.spans.between(self.from, place)
    }

    fn tail(&self, place: usize) -> Option<u32> {
        self.spans.between(place, self.to)
    }
}

/// Between the origin and the end.
#[derive(Clone, Copy)]
pub(crate) struct Whole<'a> {
    pub(crate) paths: &'a Paths,
}

impl Reach for Whole<'_> {
    fn head(&self, place: usize) -> Option<u32> {
        time_at(&self.paths.heads, node_at(place))
    }

    fn tail(&self, place: usize) -> Option<u32> {
        time_at(&self.paths.tails, node_at(place))
    }
}

/// Instructions that need units of a kind between two places.
#[derive(Clone, Copy)]
pub(crate) struct Load<'a, R> {
    pub(crate) ground: &'a Ground,
    pub(crate) reach: R,
    pub(crate) numbers: Set,
    /// How many units there are.
    pub(crate) copies: u32,
}

impl<R: Reach> Load<'_, R> {
    /// The way of an instruction whose use begins at a place, if there are paths to there and from there.
    pub(crate) fn way(&self, n: u8, place: usize) -> Option<Way> {
        let head = self.reach.head(place)?;
        let tail = self.reach.tail(place)?;
        let amount = self.ground.amount(n);
        Some(Way {
            number: n,
            amount,
            head,
            left: tail as i64 - amount as i64,
        })
    }

    /// Whether an instruction begins its use at a place so late, and so much is left after it.
    fn is_in(&self, n: u8, place: usize, best: &Best) -> bool {
        match self.way(n, place) {
            Some(way) => way.head >= best.after && way.left >= best.left,
            None => false,
        }
    }

    /// The numbers whose use begins so late, and after which so much is left.
    pub(crate) fn users(&self, best: &Best) -> ArrayVec<u8, BLOCK_LIMIT> {
        let mut users = ArrayVec::new();
        let mut rest = self.numbers;
        while let Some(n) = rest.pop_first() {
            let is_in = self.is_in(n, at_issue(n), best) || self.is_in(n, at_start(n), best);
            if is_in && !users.is_full() {
                users.push(n);
            }
        }
        users
    }
}
