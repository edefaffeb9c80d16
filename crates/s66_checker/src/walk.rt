//! Goes over the lines of a tree in preorder: one prefix is pushed and popped, so that each line is judged at its own (`tree_verdict`).

ghost use Rattle.std.specs.Prelude.{◌≡◌, []};
ghost use Rattle.s66_model.specs.{IsNextReady, coming, later, vertex_of};
ghost use Rattle.s66_cert.specs.{document_of, tree_placed};
ghost use Rattle.s66_checker.specs.{KnowsAll, problem_of, tree_line_number, lines_verdict, coming_after, HasReady};

use crate::fault::line_fault;
use crate::known::{Known, fact_lines};
use crate::replay::Prefix;
use crate::verdict::Verdict;
use s66_cert::{Document, TreeLine};

/// The least number above another that is ready after the prefix: one look at a word for each number above it.
fn next_ready(prefix: &Prefix, n: u8) -> Option<u8>
    ensures { IsNextReady prefix.now.problem.block prefix.now.numbers n result }
{
    let count = prefix.count();
    let mut number = n;
    while number < count {
        number += 1;
        if prefix.is_ready(number) {
            return Some(number);
        }
    }
    None
}

/// Goes on to the prefix after a leaf, and returns whether there is one. The last number gives way to the next one that is ready
/// in its place; if there is none, the number before it does. Each number that gives way was pushed once.
fn advance(prefix: &mut Prefix) -> bool
    ensures next { coming prefix.old.problem.block result prefix.new.numbers ≡
        later prefix.old.problem.block [] prefix.old.numbers }
    ensures problem { prefix.new.problem ≡ prefix.old.problem }
{
    while let Some(last) = prefix.pop() {
        if let Some(next) = next_ready(prefix, last) {
            prefix.push(next);
            return true;
        }
    }
    false
}

/// Goes on to the prefix after a line, and returns whether there is one.
fn go_on(prefix: &mut Prefix, line: TreeLine<'_>) -> bool
    requires { HasReady prefix.old.problem.block prefix.old.numbers (vertex_of line) }
    ensures next { coming prefix.old.problem.block result prefix.new.numbers ≡
        coming_after prefix.old.problem.block prefix.old.numbers (vertex_of line.entry) }
    ensures problem { prefix.new.problem ≡ prefix.old.problem }
{
    if let TreeLine::Split(numbers) = line {
        if let Some(first) = numbers.first() {
            prefix.push(*first);
            return true;
        }
    }
    advance(prefix)
}

/// The verdict on the lines of a document's tree, from the empty prefix of its block on. The other prefix may be anywhere, and
/// goes to the nodes that are named.
pub(crate) fn tree_verdict(
    document: &Document,
    known: &Known,
    mut prefix: Prefix,
    mut named: Prefix,
) -> Verdict
    requires start { prefix ≡ record { problem = problem_of (document_of document.now); numbers = [] } }
    requires same { named.problem ≡ problem_of (document_of document.now) }
    requires known { KnowsAll (document_of document.now) known.now }
    ensures { result ≡ lines_verdict (document_of document.now) (tree_line_number (document_of document.now))
        (tree_placed [] (document_of document.now).tree) }
{
    let mut lines = document.tree();
    let mut number = u32::from(prefix.count()) + 7 + fact_lines(document).len() as u32;
    while let Some(line) = lines.next() {
        if let Some(reason) = line_fault(&prefix, &mut named, document, known, line) {
            return Verdict::No {
                line: number,
                reason,
            };
        }
        if !go_on(&mut prefix, line) {
            break;
        }
        number += 1;
    }
    Verdict::Yes {
        time: document.time(),
        bound: document.bound(),
    }
}
