//! Which pairs of fact lines put a number before another.

ghost use Rattle.std.specs.Prelude.{◌≡◌};
ghost use Rattle.s66_facts.specs.{before_in};
ghost use Rattle.s66_reasons.specs.{up_to};

use crate::known_paths::KnownPaths;
use crate::left::{pair_left, to_show_after};
use arrayvec::ArrayVec;
use s66_checker::fact_lines;
use s66_facts::Facts;
use s66_isa::BLOCK_LIMIT;

/// Whether m is known to stand before n; not if one of them is no number of the block.
fn is_before(facts: &Facts, m: u8, n: u8) -> bool
    ensures { result ≡ before_in facts.now.marks m n }
{
    let count = facts.count();
    if m < 1 || m > count || n < 1 || n > count {
        return false;
    }
    facts.is_before(m, n)
}

/// Whether m is n, or is known to stand before it.
fn is_up_to(facts: &Facts, m: u8, n: u8) -> bool
    ensures { result ≡ up_to (before_in facts.now.marks) m n }
{
    m == n || is_before(facts, m, n)
}

impl<'a> KnownPaths<'a> {
    ghost use Rattle.std.specs.Prelude.{◌≡◌};
    ghost use Rattle.s66_moments.specs.{precedes};
    ghost use Rattle.s66_facts.specs.{before_in};
    ghost use Rattle.s66_cert.specs.{document_of};
    ghost use Rattle.s66_checker.specs.{known_of, problem_of};
    ghost use Rattle.s66_reasons.specs.{pair_by, pair_from, pairs_of, is_some_passing, puts_before, second_of_pair, up_to};

    /// Whether m is n, or n depends on it.
    fn depends(&self, m: u8, n: u8) -> bool
        ensures { result ≡ up_to (precedes (problem_of (document_of self.now)).block) m n }
    {
        is_up_to(self.by_dependence, m, n)
    }

    /// Whether m stands before n by dependence, a pair that is there, and then what is known.
    fn puts_before(&self, known: &Facts, m: u8, n: u8, pair: Option<(u8, u8)>) -> bool
        ensures { result ≡ is_some_passing (puts_before (document_of self.now) (before_in known.now.marks) m n) pair }
    {
        match pair {
            None => false,
            Some((j, k)) => self.depends(m, j) && is_up_to(known, k, n),
        }
    }

    /// The number of the first line that leaves such a pair known; 0 if none does.
    fn pair_by(&self, known: &Facts, m: u8, n: u8) -> usize
        ensures { result ≡ pair_by (document_of self.now) (before_in known.now.marks) m n }
    {
        let lines = fact_lines(self.document);
        let mut number = 0;
        let mut to_show = None;
        for line in lines {
            number += 1;
            if self.puts_before(known, m, n, pair_left(to_show, line)) {
                return number;
            }
            to_show = to_show_after(to_show, line);
        }
        0
    }

    /// The number of the first pair by which m stands before n without another one.
    fn lone_pair(&self, m: u8, n: u8) -> usize
        ensures { result ≡ pair_by (document_of self.now) (precedes (problem_of (document_of self.now)).block) m n }
    {
        self.pair_by(self.by_dependence, m, n)
    }

    /// The number of the first pair by which m stands before n with others behind it.
    fn leading_pair(&self, m: u8, n: u8) -> usize
        ensures { result ≡ pair_by (document_of self.now) (known_of (document_of self.now)).before m n }
    {
        self.pair_by(self.by_lines, m, n)
    }

    /// The number of one pair of those by which m stands before n: the first of them. It is 0 if n depends on m.
    fn pair_from(&self, m: u8, n: u8) -> usize
        ensures { result ≡ pair_from (document_of self.now) m n }
    {
        if self.depends(m, n) {
            return 0;
        }
        let lone = self.lone_pair(m, n);
        if lone == 0 {
            self.leading_pair(m, n)
        } else {
            lone
        }
    }

    /// The second number of the pair that the line of this number leaves known.
    fn second_of(&self, number: usize) -> u8
        ensures { result ≡ second_of_pair (document_of self.now) number }
    {
        let lines = fact_lines(self.document);
        let mut before = number.saturating_sub(1);
        let mut to_show = None;
        for line in lines {
            if before == 0 {
                return pair_left(to_show, line).unwrap_or((0, 0)).1;
            }
            before -= 1;
            to_show = to_show_after(to_show, line);
        }
        0
    }

    /// The numbers of the pairs that together put m before n.
    pub(crate) fn pairs_of(&self, m: u8, n: u8) -> ArrayVec<usize, BLOCK_LIMIT>
        ensures { result.items ≡ pairs_of (document_of self.now) m n }
    {
        let mut numbers = ArrayVec::new();
        let mut from = m;
        for step in 0..self.prefix.count() {
            let number = self.pair_from(from, n);
            if number == 0 {
                return numbers;
            }
            numbers.push(number);
            from = self.second_of(number);
        }
        numbers
    }
}
