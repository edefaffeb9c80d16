//! Documents of version 4 as texts, and what the checker says of them.

use s66_cert::{FactLeaf, FactLine, Tree, TreeLine, read};
use s66_checker::{Verdict, verify};
use s66_isa::kind_name;
use s66_moments::{FactStep, Moment, Stage};
use s66_time::Timed;
use std::process::Abort;
use std::str;

/// In place of a fact line's place: none is left out.
pub(crate) const NONE: usize = usize::MAX;

/// What a document of a block under the standard profile claims of an order and of all orders.
#[derive(Clone, Copy)]
pub(crate) struct Claimed<'a> {
    pub(crate) code: &'a str,
    pub(crate) timed: &'a Timed,
    pub(crate) bound: u32,
}

/// Appends a line: a word, and numbers, each after a blank.
fn push_line<R: Abort>(rt: &R, text: &mut String, word: &str, numbers: &[u8]) {
    text.push_str(word).expect(rt, "memory");
    for n in numbers {
        write!(text, " {n}").expect(rt, "memory");
    }
    text.push_str("\n").expect(rt, "memory");
}

/// Appends a moment after a blank.
fn push_moment<R: Abort>(rt: &R, text: &mut String, moment: &Moment) {
    let pushed = match moment {
        Moment::Origin => text.push_str(" 0"),
        Moment::At(n, Stage::Issue) => write!(text, " I{n}"),
        Moment::At(n, Stage::Start) => write!(text, " S{n}"),
        // a line may have no other
        Moment::At(_, Stage::Done(_) | Stage::Free) => text.push_str(" ?"),
        Moment::End => text.push_str(" END"),
    };
    pushed.expect(rt, "memory");
}

/// Appends a fact line.
fn push_fact<R: Abort>(rt: &R, text: &mut String, line: &FactLine) {
    match line {
        FactLine::Pair(m, n) => push_line(rt, text, "F", &[*m, *n]),
        FactLine::Load(load) => {
            text.push_str("A").expect(rt, "memory");
            push_moment(rt, text, &load.from);
            push_moment(rt, text, &load.to);
            write!(text, " {} {}", load.after, load.wait).expect(rt, "memory");
            push_line(rt, text, "", load.numbers.as_slice());
        }
    }
}

/// Appends the line of a step.
fn push_step<R: Abort>(rt: &R, text: &mut String, step: &FactStep) {
    match step {
        FactStep::Fact(line) => push_fact(rt, text, line),
        FactStep::Suppose(m, n) => push_line(rt, text, "B", &[*m, *n]),
        FactStep::Refuted => push_line(rt, text, "Q", &[]),
    }
}

/// The version of a document with these steps.
fn version_of(steps: &[FactStep]) -> u8 {
    for step in steps {
        if let FactStep::Suppose(_, _) = step {
            return 5;
        }
    }
    4
}

/// Appends the line of a leaf by facts.
fn push_fact_leaf<R: Abort>(rt: &R, text: &mut String, leaf: FactLeaf) {
    match leaf {
        FactLeaf::Next(n) => push_line(rt, text, "E", &[n]),
        FactLeaf::Turned(m, n) => push_line(rt, text, "R", &[m, n]),
        FactLeaf::AtLine(line) => writeln!(text, "N {line}").expect(rt, "memory"),
        FactLeaf::LoadFrom(after, numbers) => {
            write!(text, "L {after}").expect(rt, "memory");
            push_line(rt, text, "", numbers);
        }
    }
}

/// Appends a line of a tree.
fn push_tree_line<R: Abort>(rt: &R, text: &mut String, line: TreeLine) {
    match line {
        TreeLine::Split(numbers) => push_line(rt, text, "S", numbers),
        TreeLine::Whole => push_line(rt, text, "T", &[]),
        TreeLine::Load(kind) => {
            let name = str::from_utf8(kind_name(kind)).expect(rt, "a name");
            writeln!(text, "U {name}").expect(rt, "memory");
        }
        TreeLine::Parcels => push_line(rt, text, "P", &[]),
        TreeLine::Factual(leaf) => push_fact_leaf(rt, text, leaf),
        // a tree of version 4 has none
        TreeLine::Chain(_) | TreeLine::Dominated(_) => push_line(rt, text, "?", &[]),
    }
}

/// The lines of a tree.
pub(crate) fn tree_text<R: AllocGlobal + Abort>(rt: &R, tree: &Tree) -> String {
    let mut text = String::new(rt.alloc());
    let mut lines = tree.lines();
    while let Some(line) = lines.next() {
        push_tree_line(rt, &mut text, line);
    }
    text
}

/// Appends the lines of a document of a version up to that of its order.
fn push_claim<R: Abort>(rt: &R, text: &mut String, claimed: Claimed<'_>, version: u8) {
    let Claimed { code, timed, bound } = claimed;
    let (numbers, time) = (timed.order().numbers(), timed.total());
    let count = numbers.len();
    write!(
        text,
        "S66 CERTIFICATE {version}\nPROFILE 3 3 4 4 3 10 29 8 3 8 1 1 1 1 2 1 2\nBLOCK {count}\n"
    )
    .expect(rt, "memory");
    for line in code.lines() {
        writeln!(text, "I {}", line.trim()).expect(rt, "memory");
    }
    write!(text, "TIME {time}\nBOUND {bound}\n").expect(rt, "memory");
    push_line(rt, text, "ORDER", numbers);
}

/// The verdict on a document that claims this, with these steps, but for the one at a place if there is one, and with a tree.
pub(crate) fn verdict_on<R: AllocGlobal + Abort>(
    rt: &R,
    claimed: Claimed<'_>,
    steps: &[FactStep],
    left_out: usize,
    tree: &str,
) -> Verdict {
    let mut text = String::new(rt.alloc());
    push_claim(rt, &mut text, claimed, version_of(steps));
    for place in 0..steps.len() {
        if place != left_out {
            push_step(rt, &mut text, &steps[place]);
        }
    }
    write!(text, "{tree}END\n").expect(rt, "memory");
    let documents = read(rt.alloc(), text.as_bytes()).expect(rt, "a document");
    match documents.as_slice() {
        [document] => verify(document),
        _ => panic!(rt; "one document"),
    }
}
