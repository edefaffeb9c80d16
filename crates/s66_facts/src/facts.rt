//! What is known of a block under a profile, with the longest paths from the origin and to the end.
//! These are the calls of the crate: a line is taken in if what is known shows it (`take_pair`, `take_load`).

ghost use Rattle.std.specs.Prelude.{ℕ, ◌≡◌, ◌≢◌, ◌≤◌, ◌<◌, ◌||◌, if◌then◌else◌, true, false, length};
ghost use Rattle.s66_isa.specs.{BLOCK_LIMIT};
ghost use Rattle.s66_facts.specs.{FACT_LIMIT};

use crate::again::{all_but, all_kept, find_again, find_all};
use crate::direction::Direction;
use crate::graph::Graph;
use crate::loads::{are_used, is_load_late, is_load_line};
use crate::times::{Times, is_same_moment, reaches_both, reaches_through, times_at};
use s66_isa::{BLOCK_LIMIT, Instr, Profile};
use s66_moments::{LoadLine, Moment};
use std::marker::Model;

/// A block under a profile, and what is known of all its legal orders that take less than a time: which number stands before which, and
/// how much later some moments come than others.
#[derive(Drop)]
pub struct Facts {
    graph: Graph,
    /// The longest paths from the origin; those of number n are at n - 1.
    heads: [Times; BLOCK_LIMIT],
    /// To the end.
    tails: [Times; BLOCK_LIMIT],
    /// A moment, and the longest paths from there: those of the last load line that was looked at.
    from: Moment,
    heads_from: [Times; BLOCK_LIMIT],
    /// Its other moment, and the longest paths up to there.
    to: Moment,
    tails_to: [Times; BLOCK_LIMIT],
}

impl Model for Facts {
    ghost use Rattle.std.specs.Prelude.{◌≡◌, true};
    ghost use Rattle.s66_moments.specs.{Origin, End, is_front, is_back};
    ghost use Rattle.s66_facts.specs.BlockGround.{Ground};
    ghost use Rattle.s66_facts.specs.declared.direction.Direction.TheVariants.{Forward, Backward};
    ghost use Rattle.s66_facts.specs.Settled.{AreAll};

    ghost Value = { Ground };

    ghost view = { λ f. f.graph };

    ghost invariant = { λ f. AreAll Forward f.graph Origin f.heads × AreAll Backward f.graph End f.tails ×
        (is_front f.from ≡ true) × AreAll Forward f.graph f.from f.heads_from × (is_back f.to ≡ true) ×
        AreAll Backward f.graph f.to f.tails_to };
}

impl Facts {
    ghost use Rattle.s66_moments.specs.{Origin, End, Pair, Load, IsNumber, known_first, with_line, arcs_of, span, is_late_by_parcels, is_late_by_unit, is_pair_taken, is_taken, is_front, is_back};
    ghost use Rattle.s66_moments.specs.{is_load_taken, is_late_through, is_late as is_too_late};
    ghost use Rattle.s66_isa.specs.{some_of, numbers};
    ghost use Rattle.s66_facts.specs.{before_in, IsAcyclic, known_of, times_at, AreTimes};

    /// What is known of a block under a profile by dependence alone. It takes the time of the longest paths from a moment and to
    /// another.
    pub fn new(block: &[Instr], profile: &Profile) -> Facts
        requires { length block.now ≤ BLOCK_LIMIT }
        ensures problem { result.problem ≡ record { block = block.now; profile = profile.now } }
        ensures known { known_of result ≡ known_first result.problem }
    {
        let graph = Graph::new(block, profile);
        // its clauses say that the block is short, and that nothing forms a ring
        let _count = graph.count();
        let heads = find_all(Direction::Forward, &graph, &Moment::Origin);
        let tails = find_all(Direction::Backward, &graph, &Moment::End);
        Facts {
            graph,
            heads,
            tails,
            from: Moment::Origin,
            heads_from: heads,
            to: Moment::End,
            tails_to: tails,
        }
    }

    /// The longest paths from the moments of all instructions to the end, by what is known; those of number n are at n - 1. They are
    /// kept.
    pub fn tails(&self) -> [Times; BLOCK_LIMIT]
        ensures { (n : ℕ) → IsNumber self.now.problem n → AreTimes self.now.problem (λ m.
            span self.now.problem (arcs_of self.now.problem (known_of self.now)) m End) n (times_at result n) }
    {
        self.tails
    }

    /// The longest paths from the origin to them.
    pub fn heads(&self) -> [Times; BLOCK_LIMIT]
        ensures { (n : ℕ) → IsNumber self.now.problem n → AreTimes self.now.problem (λ m.
            span self.now.problem (arcs_of self.now.problem (known_of self.now)) Origin m) n (times_at result n) }
    {
        self.heads
    }

    /// The longest paths from the moments of a number to the end.
    pub fn tail(&self, n: u8) -> Times
        requires { IsNumber self.now.problem n }
        ensures { AreTimes self.now.problem (λ m.
            span self.now.problem (arcs_of self.now.problem (known_of self.now)) m End) n result }
    {
        times_at(&self.tails, n)
    }

    /// The longest paths from the origin to them.
    pub fn head(&self, n: u8) -> Times
        requires { IsNumber self.now.problem n }
        ensures { AreTimes self.now.problem (λ m.
            span self.now.problem (arcs_of self.now.problem (known_of self.now)) Origin m) n result }
    {
        times_at(&self.heads, n)
    }

    /// The longest paths from the moments of all instructions to the end or to an issue or a start. Those to the end are kept, and those
    /// for the last load line; others take time quadratic in the block's length, cubic at most if many numbers are known to stand before
    /// what is written before them, and linear in the loads that say something new.
    pub fn tails_to(&self, to: &Moment) -> [Times; BLOCK_LIMIT]
        requires { is_back to.now ≡ true }
        ensures { (n : ℕ) → IsNumber self.now.problem n → AreTimes self.now.problem (λ m.
            span self.now.problem (arcs_of self.now.problem (known_of self.now)) m to.now) n (times_at result n) }
    {
        // as in `new`
        let _count = self.graph.count();
        if is_same_moment(&self.to, to) {
            return self.tails_to;
        }
        match to {
            Moment::End => self.tails,
            Moment::Origin | Moment::At(..) => find_all(Direction::Backward, &self.graph, to),
        }
    }

    /// The longest paths from the origin or from an issue or a start to them, in the same time.
    pub fn heads_from(&self, from: &Moment) -> [Times; BLOCK_LIMIT]
        requires { is_front from.now ≡ true }
        ensures { (n : ℕ) → IsNumber self.now.problem n → AreTimes self.now.problem (λ m.
            span self.now.problem (arcs_of self.now.problem (known_of self.now)) from.now m) n (times_at result n) }
    {
        // as in `new`
        let _count = self.graph.count();
        if is_same_moment(&self.from, from) {
            return self.heads_from;
        }
        match from {
            Moment::Origin => self.heads,
            Moment::At(..) | Moment::End => find_all(Direction::Forward, &self.graph, from),
        }
    }

    /// The same, in time linear in the block's length and in the loads.
    pub fn duplicate(&self) -> Facts
        ensures { result ≡ self.now }
    {
        Facts {
            graph: self.graph.duplicate(),
            heads: self.heads,
            tails: self.tails,
            from: self.from,
            heads_from: self.heads_from,
            to: self.to,
            tails_to: self.tails_to,
        }
    }

    /// How many instructions the block has.
    pub fn count(&self) -> u8
        ensures value { result ≡ length self.now.problem.block }
        ensures few { result ≤ BLOCK_LIMIT }
        ensures ordered { IsAcyclic self.now }
    {
        self.graph.count()
    }

    /// Whether m is known to stand before n.
    pub fn is_before(&self, m: u8, n: u8) -> bool
        requires m { IsNumber self.now.problem m }
        requires n { IsNumber self.now.problem n }
        ensures { result ≡ before_in self.now.marks m n }
    {
        self.graph.is_before(m, n)
    }

    /// Whether m would come too late for the bound if n stood before it: by parcels, or by the only unit of their kind.
    fn is_late(&self, bound: u32, m: u8, n: u8) -> bool
        requires m { IsNumber self.now.problem m }
        requires n { IsNumber self.now.problem n }
        ensures { result ≡ (is_late_by_parcels self.now.problem
            (arcs_of self.now.problem (known_of self.now)) bound m n || is_late_by_unit self.now.problem
            (arcs_of self.now.problem (known_of self.now)) bound m n) }
    {
        let head = self.head(n);
        let tail = self.tail(m).issue;
        let parcels = self.graph.row(n).parcels;
        let by_parcels = reaches_through(bound, head.issue, parcels, tail);
        let by_unit = self.graph.share_unit(n, m) && reaches_both(bound, head.free, tail);
        by_parcels || by_unit
    }

    /// Whether a pair is a fact of all legal orders that take less than the bound, by what is known.
    fn is_forced(&self, bound: u32, m: u8, n: u8) -> bool
        ensures { result ≡ is_pair_taken self.now.problem bound (known_of self.now) m n }
    {
        m != n
            && self.graph.is_number(m)
            && self.graph.is_number(n)
            && !self.is_before(n, m)
            && self.is_late(bound, m, n)
    }

    /// Takes a pair in, shown or supposed: m stands before n, and isn't known to stand after it.
    pub fn add_pair(&mut self, m: u8, n: u8)
        requires m { IsNumber self.old.problem m }
        requires n { IsNumber self.old.problem n }
        requires differ { m ≢ n }
        requires turned { before_in self.old.marks n m ≡ false }
        ensures problem { self.new.problem ≡ self.old.problem }
        ensures known { known_of self.new ≡ with_line (known_of self.old) (Pair m n) }
    {
        // as in `new`
        let _count = self.graph.count();
        if self.is_before(m, n) {
            return;
        }
        let same_before = all_kept(Direction::Forward, &self.graph, m, n);
        let same_after = all_kept(Direction::Backward, &self.graph, n, m);
        self.graph.add_pair(m, n);
        let _count = self.graph.count();
        find_again(
            Direction::Forward,
            &self.graph,
            &Moment::Origin,
            &mut self.heads,
            same_before,
        );
        find_again(
            Direction::Backward,
            &self.graph,
            &Moment::End,
            &mut self.tails,
            same_after,
        );
        self.from = Moment::Origin;
        self.heads_from = self.heads;
        self.to = Moment::End;
        self.tails_to = self.tails;
    }

    /// Takes a pair in if it is a fact of all legal orders that take less than the bound, by what is known, and returns whether it is: m
    /// stands before n, since in the other case the order takes the bound at least. If it isn't, nothing changes, and it takes some
    /// looks only.
    pub fn take_pair(&mut self, bound: u32, m: u8, n: u8) -> bool
        ensures taken { result ≡ is_taken self.old.problem bound (known_of self.old) (Pair m n) }
        ensures problem { self.new.problem ≡ self.old.problem }
        ensures known { known_of self.new ≡
            (if result then with_line (known_of self.old) (Pair m n) else known_of self.old) }
    {
        if !self.is_forced(bound, m, n) {
            return false;
        }
        self.add_pair(m, n);
        true
    }

    /// Whether the longest path through the issue or the start of a number takes the bound at least.
    pub fn is_late_through(&self, bound: u32, n: u8) -> bool
        requires { IsNumber self.now.problem n }
        ensures { result ≡ is_late_through self.now.problem (arcs_of self.now.problem (known_of self.now)) bound n }
    {
        let head = self.head(n);
        let tail = self.tail(n);
        reaches_both(bound, head.issue, tail.issue) || reaches_both(bound, head.start, tail.start)
    }

    /// Whether that of some number does.
    fn is_some_late(&self, bound: u32) -> bool
        ensures { result ≡ some_of (is_late_through self.now.problem (arcs_of self.now.problem (known_of self.now)) bound)
            (numbers self.now.problem.block) }
    {
        for position in 0..self.count() {
            if self.is_late_through(bound, position + 1) {
                return true;
            }
        }
        false
    }

    /// Whether by what is known every order takes the bound at least.
    pub fn is_late_for(&self, bound: u32) -> bool
        ensures { result ≡ is_too_late self.now.problem bound (known_of self.now) }
    {
        self.is_some_late(bound) || is_load_late(bound, self.graph.loads().as_slice())
    }

    /// Whether a load line is a fact of all legal orders, by what is known.
    fn is_load_taken(&self, line: &LoadLine) -> bool
        ensures { result ≡ is_load_taken self.now.problem (known_of self.now) line.now }
    {
        if !is_load_line(&self.graph, line) {
            return false;
        }
        let heads = self.heads_from(&line.from);
        let tails = self.tails_to(&line.to);
        are_used(&self.graph, line, &heads, &tails)
    }

    /// Keeps the longest paths from a moment.
    fn keep_from(&mut self, from: &Moment)
        requires { is_front from.now ≡ true }
        ensures { self.new ≡ self.old }
    {
        if !is_same_moment(&self.from, from) {
            self.heads_from = self.heads_from(from);
            self.from = *from;
        }
    }

    /// Keeps the longest paths up to a moment.
    fn keep_to(&mut self, to: &Moment)
        requires { is_back to.now ≡ true }
        ensures { self.new ≡ self.old }
    {
        if !is_same_moment(&self.to, to) {
            self.tails_to = self.tails_to(to);
            self.to = *to;
        }
    }

    /// Keeps those from the first moment of a load line and up to its last one.
    fn keep(&mut self, line: &LoadLine)
        ensures { self.new ≡ self.old }
    {
        if !is_load_line(&self.graph, line) {
            return;
        }
        self.keep_from(&line.from);
        self.keep_to(&line.to);
    }

    /// Takes a load line in if it is a fact of all legal orders, by what is known, and returns whether it is.
    fn take(&mut self, line: &LoadLine) -> bool
        requires room { length self.old.loads < FACT_LIMIT }
        ensures taken { result ≡ is_load_taken self.old.problem (known_of self.old) line.now }
        ensures problem { self.new.problem ≡ self.old.problem }
        ensures known { known_of self.new ≡
            (if result then with_line (known_of self.old) (Load line.now) else known_of self.old) }
    {
        if !self.is_load_taken(line) {
            return false;
        }
        // as in `new`
        let _count = self.graph.count();
        let not_to = all_but(&self.graph, &line.to);
        let not_from = all_but(&self.graph, &line.from);
        self.graph.add_load(&line.from, line.wait, &line.to);
        let _count = self.graph.count();
        find_again(
            Direction::Forward,
            &self.graph,
            &Moment::Origin,
            &mut self.heads,
            not_to,
        );
        find_again(
            Direction::Backward,
            &self.graph,
            &Moment::End,
            &mut self.tails,
            not_from,
        );
        find_again(
            Direction::Forward,
            &self.graph,
            &self.from,
            &mut self.heads_from,
            not_to,
        );
        find_again(
            Direction::Backward,
            &self.graph,
            &self.to,
            &mut self.tails_to,
            not_from,
        );
        true
    }

    /// Takes a load line in if it is a fact of all legal orders, by what is known, and returns whether it is: its instructions need units
    /// of one kind, begin their use of them late enough after its first moment, and have to be over before its last one, so this one
    /// comes its wait later at least. If it isn't, nothing changes. It takes the time of the longest paths from a moment and to
    /// another, but for those moments of the load line before it.
    pub fn take_load(&mut self, line: &LoadLine) -> bool
        requires room { length self.old.loads < FACT_LIMIT }
        ensures taken { result ≡ is_load_taken self.old.problem (known_of self.old) line.now }
        ensures problem { self.new.problem ≡ self.old.problem }
        ensures known { known_of self.new ≡
            (if result then with_line (known_of self.old) (Load line.now) else known_of self.old) }
    {
        self.keep(line);
        self.take(line)
    }
}
