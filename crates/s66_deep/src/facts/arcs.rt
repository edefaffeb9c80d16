//! The arcs of a block, from each node and to each.

use crate::facts::network::{Arc, Network};
use crate::facts::nodes::{NODE_COUNT, Times, number_at, raise, time_at};
use s66_isa::Set;
use std::alloc::{AllocError, Global};

/// The place of no arc.
const NO_PLACE: usize = usize::MAX;

/// An arc, and the place of the next one from the same node.
#[derive(Clone, Copy)]
struct Link {
    arc: Arc,
    next: usize,
}

/// Arcs in lists, one for each node that they lead from.
#[derive(Drop)]
pub(crate) struct Fan {
    links: Vec<Link>,
    /// The place of the last arc that was added of each.
    firsts: [usize; NODE_COUNT],
}

/// The same arc, turned round.
fn turned(arc: Arc) -> Arc {
    Arc {
        from: arc.to,
        wait: arc.wait,
        to: arc.from,
    }
}

impl Fan {
    /// Without an arc.
    fn new(alloc: Global) -> Fan {
        Fan {
            links: Vec::new(alloc),
            firsts: [NO_PLACE; NODE_COUNT],
        }
    }

    /// Adds an arc. `Err` is out of memory.
    fn add(&mut self, arc: Arc) -> Result<(), AllocError> {
        if arc.from < NODE_COUNT {
            let next = self.firsts[arc.from];
            self.firsts[arc.from] = self.links.len();
            self.links.push(Link { arc, next })?;
        }
        Ok(())
    }

    /// The same. `Err` is out of memory.
    fn duplicate(&self, alloc: Global) -> Result<Fan, AllocError> {
        let mut links = Vec::new(alloc);
        links.extend_from_slice(self.links.as_slice())?;
        Ok(Fan {
            links,
            firsts: self.firsts,
        })
    }

    /// Makes times as long as the arcs from a node ask for, and returns the numbers of which some grew.
    pub(crate) fn raise_from(&self, times: &mut Times, node: usize) -> Set {
        let mut grown = Set::empty();
        let Some(time) = time_at(times, node) else {
            return grown;
        };
        if node >= NODE_COUNT {
            return grown;
        }
        let mut place = self.firsts[node];
        for _arc in 0..self.links.len() {
            let Some(link) = self.links.get(place) else {
                break;
            };
            if raise(times, link.arc.to, time.saturating_add(link.arc.wait)) {
                grown = number_at(grown, link.arc.to);
            }
            place = link.next;
        }
        grown
    }
}

/// The arcs of a block.
#[derive(Drop)]
pub(crate) struct Arcs {
    pub(crate) onward: Fan,
    /// The same, turned round.
    pub(crate) back: Fan,
}

impl Arcs {
    /// Those of a network. `Err` is out of memory.
    pub(crate) fn of(alloc: Global, network: &Network) -> Result<Arcs, AllocError> {
        let mut arcs = Arcs {
            onward: Fan::new(alloc),
            back: Fan::new(alloc),
        };
        for arc in network.arcs() {
            arcs.add(*arc)?;
        }
        Ok(arcs)
    }

    /// Adds an arc. `Err` is out of memory.
    pub(crate) fn add(&mut self, arc: Arc) -> Result<(), AllocError> {
        self.onward.add(arc)?;
        self.back.add(turned(arc))
    }

    /// The same. `Err` is out of memory.
    pub(crate) fn duplicate(&self, alloc: Global) -> Result<Arcs, AllocError> {
        Ok(Arcs {
            onward: self.onward.duplicate(alloc)?,
            back: self.back.duplicate(alloc)?,
        })
    }
}
