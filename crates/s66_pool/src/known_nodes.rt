//! Which nodes a worker may name in dominated leaves: those of its own piece, and those that all workers have grafted.

ghost use Rattle.std.specs.Prelude.{◌≡◌, []};

use crate::shared_marks::{SharedMarks, Token};
use s66_model::Rule;
use s66_node::{MarkEntry, MarkTable, Name, Naming, NodePlace, State, Walk};
use s66_time::Mark;
use std::alloc::{AllocError, Global};
use std::boxed::Box;
use std::marker::Model;
use std::sync::Wait;

/// What a worker knows of nodes that may dominate others: the lines of its own piece, and what all workers have grafted.
#[derive(Drop)]
pub(crate) struct KnownNodes<'s, 'b, R> {
    rt: &'s R,
    own: MarkTable<'b>,
    settled: &'s SharedMarks<'b>,
    token: Token<'b>,
    /// Room for the mark of a prefix that is looked for or kept.
    room: Mark,
}

impl<'s, 'b, R> Model for KnownNodes<'s, 'b, R> {
    ghost use Rattle.std.specs.Prelude.{◌≡◌};
    ghost use Rattle.s66_node.specs.{MarkTable};
    ghost use Rattle.s66_pool.specs.Parts.{IsAt};

    ghost Value = { MarkTable };

    ghost view = { λ k. k.own };

    ghost invariant = { λ k. IsAt k.settled.now.table.shared.table_id k.settled.now.table.shared.key k.token ×
        (k.settled.now.table.shared.key.problem ≡ k.own.problem) };
}

impl<'s, 'b, R: Wait> KnownNodes<'s, 'b, R> {
    /// It knows no line yet.
    pub(crate) fn new(
        alloc: Global,
        rt: &'s R,
        settled: &'s SharedMarks<'b>,
    ) -> KnownNodes<'s, 'b, R>
        ensures { result ≡ record { problem = settled.now.table.shared.key.problem; names = [] } }
    {
        KnownNodes {
            rt,
            own: MarkTable::new(alloc, settled.block(), settled.profile()),
            settled,
            token: settled.token(),
            room: Mark::blank(),
        }
    }

    /// Forgets the lines of its last piece.
    pub(crate) fn forget_lines(&mut self)
        ensures { self.new ≡ record self.old { names = [] } }
    {
        self.own.clear();
    }

    /// Lets all know the lines of its last piece, which have become nodes of the ledger: its root this one, and the others
    /// those from `first` on.
    pub(crate) fn settle(&mut self, rule: Rule, root: u32, first: u32)
        ensures { self.new.problem ≡ self.old.problem }
    {
        while let Some((entry, place)) = self.own.pop() {
            let node = NodePlace::Node(place.number(root, first));
            self.settled
                .put(self.rt, &mut self.token, entry, node, rule);
        }
    }
}

impl<R: Wait> Naming for KnownNodes<'_, '_, R> {
    ghost suits = { λ known b. known.problem ≡ b };

    ghost names = { λ known. known.names };

    fn find_or_keep(
        &mut self,
        alloc: Global,
        walk: &Walk<'_>,
        rule: Rule,
        line: usize,
        is_split: bool,
    ) -> Result<Option<Box<Name>>, AllocError> {
        let pushed = walk.pushed();
        walk.set_mark(&mut self.room);
        let own = self.own.find_name(alloc, walk, &pushed, &self.room, rule)?;
        if let Some(name) = own {
            return Ok(Some(name));
        }
        let token = &mut self.token;
        let settled = self
            .settled
            .find_name(self.rt, token, alloc, walk, &pushed, &self.room, rule)?;
        if let Some(name) = settled {
            return Ok(Some(name));
        }
        let entry = MarkEntry::of(walk, &pushed, &self.room);
        self.own.put_line(entry, line, is_split, rule);
        Ok(None)
    }

    fn keep_root(&mut self, _walk: &Walk<'_>, _rule: Rule, _state: State) {
        // it has other numbers than each prefix below it, and all know it since it was made
    }
}
