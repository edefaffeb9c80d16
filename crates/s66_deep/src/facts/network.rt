//! The arcs between the moments of a block, without those that a longer path covers, and the longest paths by them.
//! It is a reduction of what `s66_facts` knows, in which longest paths are followed in one pass over the arcs.

use crate::classes::is_written;
use crate::facts::found::Found;
use crate::facts::ground::Ground;
use crate::facts::nodes::{
    END, NODE_COUNT, ORIGIN, Times, first, free, issue, raise, second, start, time_at,
};
use crate::facts::precedence::Precedence;
use s66_isa::{Memory, Reg, Row, Set, has_register, is_same_register};
use s66_moments::{FactLine, Moment, Stage};
use std::alloc::{AllocError, Global};

/// How much later one node comes at least than another, in minor cycles.
#[derive(Clone, Copy)]
pub(crate) struct Arc {
    pub(crate) from: usize,
    pub(crate) wait: u32,
    pub(crate) to: usize,
}

/// The arcs of a block by what is known: all that lead to a node stand before all that lead from there.
#[derive(Drop)]
pub(crate) struct Network {
    arcs: Vec<Arc>,
}

/// The longest paths from the origin to each node, and from each to the end, in minor cycles.
#[derive(Clone, Copy)]
pub(crate) struct Paths {
    pub(crate) heads: Times,
    pub(crate) tails: Times,
}

/// The last number before n that writes a register, in the block's own order; 0 if none does.
fn last_writer(ground: &Ground, n: u8, register: Reg) -> u8 {
    for back in 1..n {
        if let Some(row) = ground.row(n - back)
            && is_written(row.writes.as_slice(), register)
        {
            return n - back;
        }
    }
    0
}

/// The node of a number's result in a register, which it writes.
fn done(row: &Row, n: u8, register: Reg) -> usize {
    match row.writes.as_slice() {
        [one, ..] => {
            if is_same_register(one.reg, register) {
                first(n)
            } else {
                second(n)
            }
        }
        [] => first(n),
    }
}

/// The node of a moment of which a load line may speak.
pub(crate) fn node_of(moment: &Moment) -> usize {
    match moment {
        Moment::Origin => ORIGIN,
        Moment::At(n, Stage::Issue) => issue(*n),
        Moment::At(n, Stage::Start) => start(*n),
        Moment::At(n, Stage::Done(_) | Stage::Free) => free(*n),
        Moment::End => END,
    }
}

/// Whether a load line leads to an issue of n, or from n to the end.
fn belongs_to(from: &Moment, to: &Moment, n: u8) -> bool {
    match (from, to) {
        (_, Moment::At(m, _)) => *m == n,
        (Moment::At(m, _), Moment::End) => *m == n,
        _ => false,
    }
}

impl Network {
    /// Of a block by what is known of it, with the arcs of the load lines among what was found. `Err` is out of memory.
    pub(crate) fn of(
        alloc: Global,
        ground: &Ground,
        known: &Precedence,
        found: &[Found],
    ) -> Result<Network, AllocError> {
        let mut network = Network {
            arcs: Vec::new(alloc),
        };
        for n in known.order() {
            network.add_issue(ground, known, found, *n)?;
            network.add_start(ground, *n)?;
            network.add_results(ground, *n)?;
        }
        Ok(network)
    }

    fn add(&mut self, from: usize, wait: u32, to: usize) -> Result<(), AllocError> {
        self.arcs.push(Arc { from, wait, to })?;
        Ok(())
    }

    /// To the issue of n, and by load lines to the end.
    fn add_issue(
        &mut self,
        ground: &Ground,
        known: &Precedence,
        found: &[Found],
        n: u8,
    ) -> Result<(), AllocError> {
        let Some(row) = ground.row(n) else {
            return Ok(());
        };
        self.add(ORIGIN, 0, issue(n))?;
        self.add_parcels(ground, known, n)?;
        if ground.copies(row.kind) == 1 {
            self.add_unit(known, ground.users(row.kind).both(&known.before(n)), n)?;
        }
        for write in row.writes.as_slice() {
            self.add_writer(ground, n, write.reg, issue(n))?;
        }
        self.add_loads(found, n)
    }

    /// To the issue of n from those of the numbers right before it.
    fn add_parcels(
        &mut self,
        ground: &Ground,
        known: &Precedence,
        n: u8,
    ) -> Result<(), AllocError> {
        for m in known.before(n).numbers().as_slice() {
            if known.after(*m).both(&known.before(n)).count() == 0
                && let Some(row) = ground.row(*m)
            {
                self.add(issue(*m), row.parcels, issue(n))?;
            }
        }
        Ok(())
    }

    /// To the issue of n from the free of the only unit of its kind, by those of these numbers that are right before it.
    fn add_unit(&mut self, known: &Precedence, users: Set, n: u8) -> Result<(), AllocError> {
        for m in users.numbers().as_slice() {
            if known.after(*m).both(&users).count() == 0 {
                self.add(free(*m), 0, issue(n))?;
            }
        }
        Ok(())
    }

    /// To a node of n from the last result in a register before it.
    fn add_writer(
        &mut self,
        ground: &Ground,
        n: u8,
        register: Reg,
        to: usize,
    ) -> Result<(), AllocError> {
        let writer = last_writer(ground, n, register);
        match ground.row(writer) {
            None => Ok(()),
            Some(row) => self.add(done(row, writer, register), 0, to),
        }
    }

    /// By load lines.
    fn add_loads(&mut self, found: &[Found], n: u8) -> Result<(), AllocError> {
        for one in found {
            if let Found::ByLine(FactLine::Load(load)) = one
                && belongs_to(&load.from, &load.to, n)
            {
                self.add(node_of(&load.from), load.wait, node_of(&load.to))?;
            }
        }
        Ok(())
    }

    /// To the start of n.
    fn add_start(&mut self, ground: &Ground, n: u8) -> Result<(), AllocError> {
        let Some(row) = ground.row(n) else {
            return Ok(());
        };
        self.add(issue(n), 0, start(n))?;
        for register in row.reads.as_slice() {
            self.add_writer(ground, n, *register, start(n))?;
        }
        match row.memory {
            Memory::None => Ok(()),
            Memory::Load => self.add_memory(ground, n, false),
            Memory::Store => self.add_memory(ground, n, true),
        }
    }

    /// To the start of n from the last store before it, and from the loads since then if it is a store.
    fn add_memory(&mut self, ground: &Ground, n: u8, is_store: bool) -> Result<(), AllocError> {
        for back in 1..n {
            let memory = match ground.row(n - back) {
                None => Memory::None,
                Some(row) => row.memory,
            };
            match memory {
                Memory::Store => return self.add(start(n - back), 1, start(n)),
                Memory::Load if is_store => self.add(start(n - back), 1, start(n))?,
                _ => {}
            }
        }
        Ok(())
    }

    /// To the results of n and to the free of its unit, and from there to the end.
    fn add_results(&mut self, ground: &Ground, n: u8) -> Result<(), AllocError> {
        let Some(row) = ground.row(n) else {
            return Ok(());
        };
        self.add(start(n), row.hold.saturating_add(1), free(n))?;
        for write in row.writes.as_slice() {
            let to = done(row, n, write.reg);
            self.add(start(n), write.latency, to)?;
            self.add_readers(ground, n, write.reg, to)?;
            if write.held {
                self.add(to, 1, free(n))?;
            }
            self.add(to, 0, END)?;
        }
        self.add(free(n), 0, END)
    }

    /// To a result of n from the starts of those that read its register, since the one that wrote it.
    fn add_readers(
        &mut self,
        ground: &Ground,
        n: u8,
        register: Reg,
        to: usize,
    ) -> Result<(), AllocError> {
        for back in 1..n {
            if let Some(row) = ground.row(n - back) {
                if has_register(row.reads.as_slice(), register) {
                    self.add(start(n - back), 1, to)?;
                }
                if is_written(row.writes.as_slice(), register) {
                    return Ok(());
                }
            }
        }
        Ok(())
    }

    /// The arcs.
    pub(crate) fn arcs(&self) -> &[Arc] {
        self.arcs.as_slice()
    }

    /// The longest paths from the origin and to the end.
    pub(crate) fn paths(&self) -> Paths {
        Paths {
            heads: self.heads(ORIGIN),
            tails: self.tails(END),
        }
    }

    /// The longest paths from a node.
    pub(crate) fn heads(&self, from: usize) -> Times {
        let mut times = [None; NODE_COUNT];
        raise(&mut times, from, 0);
        for arc in self.arcs.as_slice() {
            if let Some(time) = time_at(&times, arc.from) {
                raise(&mut times, arc.to, time.saturating_add(arc.wait));
            }
        }
        times
    }

    /// The longest paths to a node.
    pub(crate) fn tails(&self, to: usize) -> Times {
        let mut times = [None; NODE_COUNT];
        raise(&mut times, to, 0);
        let arcs = self.arcs.as_slice();
        for back in 0..arcs.len() {
            let arc = arcs[arcs.len() - 1 - back];
            if let Some(time) = time_at(&times, arc.to) {
                raise(&mut times, arc.from, time.saturating_add(arc.wait));
            }
        }
        times
    }
}
