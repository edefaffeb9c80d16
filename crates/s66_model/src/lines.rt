//! A line of a tree (`TreeLine`), and the lines of a tree in preorder, kept compactly: a mark of eight bytes, the place of its numbers,
//! and a byte a number. `s66_ledger` and `s66_deep` write them, `s66_cert` prints and reads them, `s66_checker` walks over them.

ghost use Rattle.std.specs.Prelude.{◌≡◌, ◌<◌, ◌+◌, ◌∷◌, drop, length};
ghost use Rattle.s66_isa.specs.{some_of};
ghost use Rattle.s66_model.specs.{vertex_of, is_dominated, vertices_of, AreKeptLines};

use s66_isa::Kind;
use std::alloc::{AllocError, Global};
use std::marker::Model;

/// What the line of a leaf by facts says.
#[derive(Clone, Copy)]
pub enum FactLeaf<'a> {
    /// The instruction of this number came too late if it came next.
    Next(u8),
    /// The second is placed and the first is not, which stands before it.
    Turned(u8, u8),
    /// The node of this line of the document, from 1, dominates the prefix.
    AtLine(u32),
    /// Units of one kind do all that these numbers need of them, from this minor cycle on at the soonest.
    LoadFrom(u32, &'a [u8]),
}

/// What a line of a tree says.
#[derive(Clone, Copy)]
pub enum TreeLine<'a> {
    /// The prefix is split, and goes on with each of these numbers.
    Split(&'a [u8]),
    /// The prefix is a whole order.
    Whole,
    /// Instructions that wait for one another.
    Chain(&'a [u8]),
    /// The work that remains for a kind of unit.
    Load(Kind),
    /// The parcels that remain.
    Parcels,
    /// The node of this name dominates the prefix.
    Dominated(&'a [u8]),
    /// Fact lines of the document, or its lines, close the prefix.
    Factual(FactLeaf<'a>),
}

/// What a line of a tree says except its numbers, with how many it has.
#[derive(Clone, Copy)]
pub(crate) enum Mark {
    Split(u8),
    Whole,
    Chain(u8),
    Load(Kind),
    Parcels,
    Dominated(u8),
    Next(u8),
    Turned(u8, u8),
    AtLine(u32),
    // the short one first, so that a mark takes eight bytes
    LoadFrom(u8, u32),
}

impl Mark {
    ghost use Rattle.std.specs.Prelude.{◌≡◌, length};
    ghost use Rattle.s66_model.specs.{vertex_of, number_count, is_dominated, marked};

    /// How many numbers its line has.
    fn number_count(self) -> usize
        ensures { result ≡ number_count self }
    {
        match self {
            Mark::Split(count)
            | Mark::Chain(count)
            | Mark::Dominated(count)
            | Mark::LoadFrom(count, _) => count as usize,
            _ => 0,
        }
    }

    fn is_dominated(self) -> bool
        ensures { result ≡ is_dominated self }
    {
        matches!(self, Mark::Dominated(_))
    }

    /// Its line with these numbers.
    fn with(self, numbers: &[u8]) -> TreeLine<'_>
        requires { number_count self ≡ length numbers.now }
        ensures { vertex_of result ≡ marked self numbers.now }
    {
        match self {
            Mark::Split(_) => TreeLine::Split(numbers),
            Mark::Whole => TreeLine::Whole,
            Mark::Chain(_) => TreeLine::Chain(numbers),
            Mark::Load(kind) => TreeLine::Load(kind),
            Mark::Parcels => TreeLine::Parcels,
            Mark::Dominated(_) => TreeLine::Dominated(numbers),
            Mark::Next(number) => TreeLine::Factual(FactLeaf::Next(number)),
            Mark::Turned(first, second) => TreeLine::Factual(FactLeaf::Turned(first, second)),
            Mark::AtLine(line) => TreeLine::Factual(FactLeaf::AtLine(line)),
            Mark::LoadFrom(_, after) => TreeLine::Factual(FactLeaf::LoadFrom(after, numbers)),
        }
    }
}

/// Whether one of these is of a dominated leaf.
fn some_dominated(marks: &[Mark]) -> bool
    ensures { result ≡ some_of is_dominated marks.now }
{
    for mark in marks {
        if mark.is_dominated() {
            return true;
        }
    }
    false
}

/// The line at a place.
#[tactic(auto, using(crate::proofs::Marks::kept_count))]
fn line_at<'a>(marks: &[Mark], numbers: &'a [u8], begins: &[usize], place: usize) -> TreeLine<'a>
    requires kept { AreKeptLines marks.now numbers.now begins.now }
    requires within { place < length marks.now }
    ensures { drop place (vertices_of marks.now numbers.now) ≡ vertex_of result ∷
        drop (place + 1) (vertices_of marks.now numbers.now) }
{
    let mark = marks[place];
    let begin = begins[place];
    let (_, later) = numbers.split_at(begin);
    let (own, _) = later.split_at(mark.number_count());
    mark.with(own)
}

/// The lines of a tree in preorder, in sixteen bytes a line and one a number.
#[derive(Drop)]
pub struct KeptLines {
    marks: Vec<Mark>,
    numbers: Vec<u8>,
    /// Where the numbers of each line begin.
    begins: Vec<usize>,
}

impl Model for KeptLines {
    ghost use Rattle.std.specs.Prelude.{List};
    ghost use Rattle.s66_model.specs.Trees.{Vertex};
    ghost use Rattle.s66_model.specs.DominatedLeaves.{Ending};
    ghost use Rattle.s66_model.specs.Marks.{vertices_of, AreKeptLines};

    ghost Value = { List (Vertex Ending) };

    ghost view = { λ t. vertices_of t.marks.items t.numbers.items };

    ghost invariant = { λ t. AreKeptLines t.marks.items t.numbers.items t.begins.items };
}

impl KeptLines {
    ghost use Rattle.std.specs.Prelude.{◌≡◌, ◌<◌, ◌+◌, ◌++◌, [], ◌∷◌, drop, length, OnOk, OnErr};
    ghost use Rattle.s66_model.specs.{AtTerminal, Factual, fact_leaf_of, vertex_of, IsShort, has_dominated_line, number_count, marked};

    /// No lines.
    fn new(alloc: Global) -> KeptLines
        ensures { result ≡ [] }
    {
        KeptLines {
            marks: Vec::new(alloc),
            numbers: Vec::new(alloc),
            begins: Vec::new(alloc),
        }
    }

    /// Appends a line with its numbers.
    fn append(&mut self, mark: Mark, numbers: &[u8]) -> Result<(), AllocError>
        requires { number_count mark ≡ length numbers.now }
        ensures pushed { OnOk result (self.new ≡ self.old ++ marked mark numbers.now ∷ []) }
        ensures same { OnErr result (self.new ≡ self.old) }
    {
        self.marks.reserve(1)?;
        self.begins.reserve(1)?;
        let begin = self.numbers.len();
        self.numbers.extend_from_slice(numbers)?;
        self.marks.push_reserved(mark);
        self.begins.push_reserved(begin);
        Ok(())
    }

    /// Appends the line of a leaf by facts.
    fn push_fact_leaf(&mut self, leaf: FactLeaf<'_>) -> Result<(), AllocError>
        requires { IsShort (AtTerminal (Factual (fact_leaf_of leaf))) }
        ensures pushed { OnOk result (self.new ≡ self.old ++ AtTerminal (Factual (fact_leaf_of leaf.entry)) ∷ []) }
        ensures same { OnErr result (self.new ≡ self.old) }
    {
        match leaf {
            FactLeaf::Next(number) => self.append(Mark::Next(number), &[]),
            FactLeaf::Turned(first, second) => self.append(Mark::Turned(first, second), &[]),
            FactLeaf::AtLine(line) => self.append(Mark::AtLine(line), &[]),
            FactLeaf::LoadFrom(after, numbers) => {
                self.append(Mark::LoadFrom(numbers.len() as u8, after), numbers)
            }
        }
    }

    /// Appends a line of at most `BLOCK_LIMIT` numbers. If memory is refused, the lines are as before.
    fn push(&mut self, line: TreeLine<'_>) -> Result<(), AllocError>
        requires { IsShort (vertex_of line) }
        ensures pushed { OnOk result (self.new ≡ self.old ++ vertex_of line.entry ∷ []) }
        ensures same { OnErr result (self.new ≡ self.old) }
    {
        match line {
            TreeLine::Split(numbers) => self.append(Mark::Split(numbers.len() as u8), numbers),
            TreeLine::Whole => self.append(Mark::Whole, &[]),
            TreeLine::Chain(numbers) => self.append(Mark::Chain(numbers.len() as u8), numbers),
            TreeLine::Load(kind) => self.append(Mark::Load(kind), &[]),
            TreeLine::Parcels => self.append(Mark::Parcels, &[]),
            TreeLine::Dominated(numbers) => {
                self.append(Mark::Dominated(numbers.len() as u8), numbers)
            }
            TreeLine::Factual(leaf) => self.push_fact_leaf(leaf),
        }
    }

    /// How many there are.
    #[tactic(auto, using(crate::proofs::Marks::line_count))]
    pub fn len(&self) -> usize
        ensures { result ≡ length self.now }
    {
        self.marks.len()
    }

    /// The line at a place, from 0.
    #[tactic(auto, using(crate::proofs::Marks::line_count))]
    pub fn at(&self, place: usize) -> TreeLine<'_>
        requires { place < length self.now }
        ensures { drop place self.now ≡ vertex_of result ∷ drop (place + 1) self.now }
    {
        line_at(
            self.marks.as_slice(),
            self.numbers.as_slice(),
            self.begins.as_slice(),
            place,
        )
    }

    /// Whether a leaf is dominated.
    #[tactic(auto, using(crate::proofs::Marks::dominated_marks))]
    fn has_dominated(&self) -> bool
        ensures { result ≡ has_dominated_line self.now }
    {
        some_dominated(self.marks.as_slice())
    }

    /// The lines, from the first on.
    pub fn iter(&self) -> TreeLines<'_>
        ensures { result ≡ self.now }
    {
        TreeLines {
            marks: self.marks.as_slice(),
            numbers: self.numbers.as_slice(),
        }
    }
}

/// The lines of a tree in preorder, in twenty bytes a line and one a number.
#[derive(Drop)]
pub struct Tree {
    lines: KeptLines,
    /// Room for the places at which the trees of the lines end.
    room: Vec<u32>,
}

impl Model for Tree {
    ghost use Rattle.std.specs.Prelude.{◌≡◌, List, length};
    ghost use Rattle.s66_model.specs.Trees.{Vertex};
    ghost use Rattle.s66_model.specs.DominatedLeaves.{Ending};

    ghost Value = { List (Vertex Ending) };

    ghost view = { λ t. t.lines };

    ghost invariant = { λ t. length t.room.items ≡ length t.lines };
}

impl Tree {
    ghost use Rattle.std.specs.Prelude.{◌==◌, ◌≡◌, ◌++◌, [], ◌∷◌, length, OnOk, OnErr};
    ghost use Rattle.s66_model.specs.{vertex_of, IsShort, has_dominated_line};

    /// No lines.
    pub fn new(alloc: Global) -> Tree
        ensures { result ≡ [] }
    {
        Tree {
            lines: KeptLines::new(alloc),
            room: Vec::new(alloc),
        }
    }

    /// Appends a line of at most `BLOCK_LIMIT` numbers. If memory is refused, the lines are as before.
    pub fn push(&mut self, line: TreeLine<'_>) -> Result<(), AllocError>
        requires { IsShort (vertex_of line) }
        ensures pushed { OnOk result (self.new ≡ self.old ++ vertex_of line.entry ∷ []) }
        ensures same { OnErr result (self.new ≡ self.old) }
    {
        self.room.reserve(1)?;
        self.lines.push(line)?;
        self.room.push_reserved(0);
        Ok(())
    }

    /// Whether there is no line.
    pub fn is_empty(&self) -> bool
        ensures { result ≡ (length self.now == 0) }
    {
        self.lines.len() == 0
    }

    /// Whether a leaf is dominated, in time linear in the lines.
    pub fn has_dominated(&self) -> bool
        ensures { result ≡ has_dominated_line self.now }
    {
        self.lines.has_dominated()
    }

    /// The lines, from the first on.
    pub fn lines(&self) -> TreeLines<'_>
        ensures { result ≡ self.now }
    {
        self.lines.iter()
    }

    /// The lines, and room for a place of each.
    pub fn into_parts(self) -> (KeptLines, Vec<u32>)
        ensures lines { result.0 ≡ self }
        ensures room { length result.1.items ≡ length self }
    {
        (self.lines, self.room)
    }
}

/// The lines of a tree that are still to be read, in preorder.
#[derive(Drop)]
pub struct TreeLines<'a> {
    marks: &'a [Mark],
    numbers: &'a [u8],
}

impl<'a> Model for TreeLines<'a> {
    ghost use Rattle.std.specs.Prelude.{List};
    ghost use Rattle.s66_model.specs.Trees.{Vertex};
    ghost use Rattle.s66_model.specs.DominatedLeaves.{Ending};
    ghost use Rattle.s66_model.specs.Marks.{vertices_of, HaveTheirNumbers};

    ghost Value = { List (Vertex Ending) };

    ghost view = { λ t. vertices_of t.marks.now t.numbers.now };

    ghost invariant = { λ t. HaveTheirNumbers t.marks.now t.numbers.now };
}

impl<'a> TreeLines<'a> {
    ghost use Rattle.s66_model.specs.{IsNextLine};

    /// The next line, if there is one.
    pub fn next(&mut self) -> Option<TreeLine<'a>>
        ensures { IsNextLine self.old result self.new }
    {
        let (mark, marks) = self.marks.split_first()?;
        let (numbers, later) = self.numbers.split_at(mark.number_count());
        self.marks = marks;
        self.numbers = later;
        Some(mark.with(numbers))
    }
}
