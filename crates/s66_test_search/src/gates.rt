//! A gate at which a test counts what workers do, and may let two of them meet.

use s66_pool::Gate;
use std::process::Abort;
use std::sync::atomic::{AtomicBool, AtomicU32, Ordering};
use std::thread;
use std::time::{Clock, Duration};

/// How many turns a worker waits at a gate: in each it looks whether it may go on, and sleeps for a millisecond.
const TURNS: u32 = 10_000;

/// How often something was counted.
fn count_of(counter: &AtomicU32) -> u32 {
    counter.load(Ordering::SeqCst)
}

/// Counts it once more.
fn count(counter: &AtomicU32) {
    counter.fetch_add(1, Ordering::SeqCst);
}

/// How often a worker has reached each place of a gate.
#[derive(Drop)]
struct Counts {
    claims: AtomicU32,
    /// The claims that got a node.
    nodes: AtomicU32,
    /// Those of them that came after its first piece and before its second.
    nodes_between: AtomicU32,
    /// The pieces that it was about to graft.
    pieces: AtomicU32,
}

impl Counts {
    fn nothing() -> Counts {
        Counts {
            claims: AtomicU32::new(0),
            nodes: AtomicU32::new(0),
            nodes_between: AtomicU32::new(0),
            pieces: AtomicU32::new(0),
        }
    }

    /// The worker claimed, and got a node or none.
    fn count_claim(&self, got: bool) {
        if got {
            count(&self.nodes);
            if count_of(&self.pieces) == 1 {
                count(&self.nodes_between);
            }
        }
        count(&self.claims);
    }
}

/// Where a worker is at a gate.
#[derive(Clone, Copy)]
enum GatePoint {
    AfterClaim,
    BeforeGraft,
}

/// What the workers of a gate wait for.
#[derive(Clone, Copy)]
pub(crate) enum Meeting {
    /// None waits.
    Free,
    /// This one of two workers doesn't graft its first piece before the other has claimed.
    OneGraft { held: u8 },
    /// Neither of two goes on from its first claim before the other has claimed too.
    Claims,
    /// Each of two grafts: a worker that has got no node waits for the other's second piece, and with its own second one for the
    /// other's first.
    Grafts,
}

impl Meeting {
    /// Whether a worker may go on from where it is.
    fn lets_on(self, w: u8, place: GatePoint, own: &Counts, other: &Counts) -> bool {
        match (self, place) {
            (Meeting::OneGraft { held }, GatePoint::BeforeGraft) => {
                w != held || count_of(&own.pieces) != 1 || 0 < count_of(&other.claims)
            }
            (Meeting::Claims, GatePoint::AfterClaim) => {
                count_of(&own.claims) != 1 || 0 < count_of(&other.claims)
            }
            (Meeting::Grafts, GatePoint::AfterClaim) => {
                0 < count_of(&own.nodes) || 2 <= count_of(&other.pieces)
            }
            (Meeting::Grafts, GatePoint::BeforeGraft) => {
                count_of(&own.pieces) != 2 || 0 < count_of(&other.pieces)
            }
            _ => true,
        }
    }
}

/// A gate of up to three workers that counts what they do, and at which two may wait for one another, at most so long as its limit.
#[derive(Drop)]
pub(crate) struct Watch<'a, R> {
    rt: &'a R,
    meeting: Meeting,
    first: Counts,
    second: Counts,
    third: Counts,
    is_over: AtomicBool,
}

impl<'a, R: Clock> Watch<'a, R> {
    pub(crate) fn new(rt: &'a R, meeting: Meeting) -> Watch<'a, R> {
        Watch {
            rt,
            meeting,
            first: Counts::nothing(),
            second: Counts::nothing(),
            third: Counts::nothing(),
            is_over: AtomicBool::new(false),
        }
    }

    /// Whether a worker was let on by the limit.
    pub(crate) fn is_over(&self) -> bool {
        self.is_over.load(Ordering::SeqCst)
    }

    /// Checks that two workers claimed, that one came to graft, and that none was let on by the limit.
    pub(crate) fn check_met<A: Abort>(&self, rt: &A) {
        assert!(rt; self.claimants() == [true, true, false]);
        assert!(rt; 0 < self.pieces());
        assert!(rt; !self.is_over());
    }

    /// Whether each worker has claimed.
    pub(crate) fn claimants(&self) -> [bool; 3] {
        [
            0 < count_of(&self.first.claims),
            0 < count_of(&self.second.claims),
            0 < count_of(&self.third.claims),
        ]
    }

    /// How many pieces workers have come to graft.
    pub(crate) fn pieces(&self) -> u32 {
        let pieces = count_of(&self.first.pieces).saturating_add(count_of(&self.second.pieces));
        pieces.saturating_add(count_of(&self.third.pieces))
    }

    /// How many nodes the first worker claimed between its first piece and its second.
    pub(crate) fn nodes_between(&self) -> u32 {
        count_of(&self.first.nodes_between)
    }

    /// What a worker has done, and what the other has.
    fn sides(&self, w: u8) -> (&Counts, &Counts) {
        match w {
            1 => (&self.first, &self.second),
            2 => (&self.second, &self.first),
            _ => (&self.third, &self.first),
        }
    }

    /// Waits until the worker may go on; once the limit was met, nobody waits.
    fn hold(&self, w: u8, place: GatePoint) {
        let (own, other) = self.sides(w);
        for _ in 0..TURNS {
            if self.meeting.lets_on(w, place, own, other) || self.is_over() {
                return;
            }
            thread::sleep(self.rt, Duration::from_millis(1));
        }
        self.is_over.store(true, Ordering::SeqCst);
    }
}

impl<'a, R: Clock> Gate for Watch<'a, R> {
    fn before_graft(&self, w: u8) {
        let (own, _) = self.sides(w);
        count(&own.pieces);
        self.hold(w, GatePoint::BeforeGraft);
    }

    fn after_claim(&self, w: u8, got: bool) {
        let (own, _) = self.sides(w);
        own.count_claim(got);
        self.hold(w, GatePoint::AfterClaim);
    }
}
