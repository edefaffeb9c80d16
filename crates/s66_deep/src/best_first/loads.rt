//! Loads that close a prefix: units of one kind have so much work for what remains.
//! The work of each kind is tried after the prefix; the certificate's leaf has the numbers that show it.

use crate::best_first::begun::{Begun, Chosen, choose, numbers_of};
use crate::best_first::instructions::Instructions;
use crate::best_first::remaining::{next_issue, operands};
use crate::floors::Tails;
use arrayvec::ArrayVec;
use s66_isa::{BLOCK_LIMIT, KIND_COUNT, KINDS, Kind, Set};
use s66_time::Clock;
use std::alloc::{AllocError, Global};

/// With what an instruction begins to use its unit.
#[derive(Clone, Copy)]
enum Begin {
    Issue,
    Start,
}

/// When an instruction issues and starts if it comes next, in minor cycles.
#[derive(Clone, Copy, Default)]
struct Head {
    issue: u32,
    start: u32,
}

/// What an instruction needs of a unit, in minor cycles.
#[derive(Clone, Copy)]
struct Use {
    number: u8,
    /// For how long it has the unit.
    amount: u32,
    /// What is left at least after that.
    left: u32,
}

/// The uses of one kind of unit, those first after which most is left.
#[derive(Drop)]
struct Uses {
    kind: Kind,
    copies: u32,
    from_issue: Vec<Use>,
    from_start: Vec<Use>,
}

/// A load that closes a prefix: these numbers of one kind remain and rise, and none of them uses its unit sooner if it comes next.
#[derive(Drop)]
pub(crate) struct ClosingLoad {
    /// In minor cycles.
    pub(crate) after: u32,
    pub(crate) numbers: ArrayVec<u8, BLOCK_LIMIT>,
}

/// What the instructions of a block need of units of each kind.
#[derive(Drop)]
pub(crate) struct Loads {
    uses: Vec<Uses>,
    /// Room for the heads of what remains of a kind, that of n at place n - 1.
    heads: [Head; BLOCK_LIMIT],
    /// Room for the uses that begin.
    begun: ArrayVec<Begun, BLOCK_LIMIT>,
}

impl Head {
    /// When a use begins that begins so.
    fn at(&self, begin: Begin) -> u32 {
        match begin {
            Begin::Issue => self.issue,
            Begin::Start => self.start,
        }
    }
}

/// The use by a number that has its unit for so long, where this follows its stages.
fn use_of(n: u8, amount: u32, tails: &Tails, begin: Begin) -> Use {
    let tail = match begin {
        Begin::Issue => tails.issue,
        Begin::Start => tails.start,
    };
    Use {
        number: n,
        amount,
        left: tail.saturating_sub(amount),
    }
}

/// The uses of a kind, by what follows the stages of each number, that of n at place n - 1; those first after which most is left.
fn uses_of(
    alloc: Global,
    instructions: &Instructions<'_>,
    kind: Kind,
    tails: &[Tails; BLOCK_LIMIT],
    begin: Begin,
) -> Result<Vec<Use>, AllocError> {
    let mut uses = Vec::new(alloc);
    for n in instructions.takers(kind).numbers().as_slice() {
        if let Some(tails) = tails.get((*n as usize).saturating_sub(1)) {
            uses.push(use_of(*n, instructions.amount(*n), tails, begin))?;
        }
    }
    uses.sort_by(|a, b| b.left.cmp(&a.left))?;
    Ok(uses)
}

/// Puts those of these uses into their room whose numbers remain and come next at these heads, that of n at place n - 1.
fn put_begun(
    uses: &[Use],
    remaining: &Set,
    heads: &[Head; BLOCK_LIMIT],
    begin: Begin,
    begun: &mut ArrayVec<Begun, BLOCK_LIMIT>,
) {
    begun.clear();
    for one in uses {
        if remaining.has(one.number)
            && !begun.is_full()
            && let Some(head) = heads.get((one.number as usize).saturating_sub(1))
        {
            begun.push(Begun {
                number: one.number,
                soonest: head.at(begin),
                amount: one.amount,
                left: one.left,
            });
        }
    }
}

impl Loads {
    /// By what follows the stages of each number, that of n at place n - 1.
    ///
    /// # Errors
    ///
    /// `AllocError` if memory runs out.
    pub(crate) fn of(
        alloc: Global,
        instructions: &Instructions<'_>,
        tails: &[Tails; BLOCK_LIMIT],
    ) -> Result<Loads, AllocError> {
        let mut uses = Vec::with_capacity(alloc, KIND_COUNT)?;
        for kind in KINDS {
            uses.push(Uses {
                kind,
                copies: instructions.copies(kind),
                from_issue: uses_of(alloc, instructions, kind, tails, Begin::Issue)?,
                from_start: uses_of(alloc, instructions, kind, tails, Begin::Start)?,
            })?;
        }
        Ok(Loads {
            uses,
            heads: [Head::default(); BLOCK_LIMIT],
            begun: ArrayVec::new(),
        })
    }
}

/// Puts the heads of these numbers after the prefix of a clock into their room, where a unit of their kind is free from then on.
fn put_heads(
    instructions: &Instructions<'_>,
    clock: &Clock<'_>,
    numbers: &Set,
    free: u32,
    heads: &mut [Head; BLOCK_LIMIT],
) {
    let mut rest = *numbers;
    while let Some(n) = rest.pop_first() {
        if let Some(row) = instructions.row(n)
            && let Some(head) = heads.get_mut((n as usize).saturating_sub(1))
        {
            let issue = next_issue(clock, row, free);
            let start = issue.max(operands(clock, row));
            *head = Head { issue, start };
        }
    }
}

impl Loads {
    /// The uses of a kind that show that an order takes `low` at least if it begins with the prefix of a clock, if some do. They are in the
    /// room.
    fn choose_of(
        &mut self,
        instructions: &Instructions<'_>,
        clock: &Clock<'_>,
        low: u32,
        place: usize,
    ) -> Option<Chosen> {
        let uses = self.uses.get(place)?;
        let numbers = instructions.takers(uses.kind).without(&clock.pushed());
        // as many as there are units wait for no other
        if numbers.count() <= uses.copies {
            return None;
        }
        let free = clock.soonest_free(uses.kind);
        put_heads(instructions, clock, &numbers, free, &mut self.heads);
        for (begin, those) in [
            (Begin::Issue, &uses.from_issue),
            (Begin::Start, &uses.from_start),
        ] {
            put_begun(
                those.as_slice(),
                &numbers,
                &self.heads,
                begin,
                &mut self.begun,
            );
            if let Some(chosen) = choose(self.begun.as_slice(), uses.copies, low) {
                return Some(chosen);
            }
        }
        None
    }

    /// The same of all kinds.
    fn choose(
        &mut self,
        instructions: &Instructions<'_>,
        clock: &Clock<'_>,
        low: u32,
    ) -> Option<Chosen> {
        for place in 0..self.uses.len() {
            if let Some(chosen) = self.choose_of(instructions, clock, low, place) {
                return Some(chosen);
            }
        }
        None
    }

    /// Whether a load shows that an order takes `low` at least if it begins with the prefix of a clock: for each kind a few looks at each
    /// instruction that remains, and one more for each minor cycle at which another one begins.
    pub(crate) fn close(
        &mut self,
        instructions: &Instructions<'_>,
        clock: &Clock<'_>,
        low: u32,
    ) -> bool {
        self.choose(instructions, clock, low).is_some()
    }

    /// The load that shows it, if one does, in the same time.
    pub(crate) fn closing(
        &mut self,
        instructions: &Instructions<'_>,
        clock: &Clock<'_>,
        low: u32,
    ) -> Option<ClosingLoad> {
        let chosen = self.choose(instructions, clock, low)?;
        Some(ClosingLoad {
            after: chosen.after,
            numbers: numbers_of(self.begun.as_slice(), &chosen),
        })
    }
}
