//! Reads documents line by line: an automaton that knows which line may come next, and what the open document has said so far.

ghost use Rattle.std.specs.Prelude.{suc, false, ◌≡◌, ◌≤◌, ◌<◌, ◌+◌, ◌-◌, ◌^◌, [], length, OnOk};
ghost use Rattle.s66_isa.specs.{BLOCK_LIMIT};
ghost use Rattle.s66_model.specs.{vertex_of};
ghost use Rattle.s66_cert.specs.{names_nodes, IsFine, IsLineInRange, IsVertex, Header, Profile, Block, Instruction, Time, Bound, Order, OfFact, OfTree, End, AreWhole, facts_in, state, Steps, StepsEnd};
ghost use Rattle.s66_cert.specs.{nothing, first_state, is_allowed, may_dominate, is_leaf_of, has_room, takes_fact, takes_step, wants_dominated, wants_supposition, is_wanting, step_at, step, steps};
ghost use Rattle.s66_cert.specs.{whole_lines, last_bytes, said, BadLine, SPLIT_LIMIT, AtInstruction, AtTree, AtEnd};

use crate::document::{Claim, Document};
use crate::document_place::DocumentPlace;
use crate::error::CertError;
use crate::instruction::{InstructionText, ReadText};
use crate::limits::{FACT_LIMIT, SPLIT_LIMIT};
use crate::line::LineOf;
use crate::parse::line_of;
use crate::version::{Version, has_suppositions};
use arrayvec::ArrayVec;
use s66_isa::PROFILE_LENGTH;
use s66_model::{Rule, Tree, TreeLine};
use s66_moments::FactStep;
use std::alloc::Global;
use std::mem;

/// A claim of which nothing was read.
fn nothing(alloc: Global) -> Claim
    ensures { result ≡ nothing }
{
    Claim {
        rule: Rule::NoneNamed,
        facts: None,
        profile: ArrayVec::new(),
        block: Vec::new(alloc),
        time: 0,
        bound: 0,
        order: ArrayVec::new(),
        tree: Tree::new(alloc),
    }
}

/// Whether dominated leaves name nodes by this rule.
fn names_nodes(rule: Rule) -> bool
    ensures { result ≡ names_nodes rule }
{
    match rule {
        Rule::NoneNamed => false,
        Rule::WrittenEarlier | Rule::ClampedStanding => true,
    }
}

/// Whether the line may come, by whether dominated leaves come, and those that come with fact lines.
fn is_allowed(dominated: bool, factual: bool, line: TreeLine<'_>) -> bool
    ensures { result ≡ is_allowed dominated factual (vertex_of line.entry) }
{
    match line {
        TreeLine::Dominated(_) => dominated,
        TreeLine::Factual(_) => factual,
        _ => true,
    }
}

/// Whether there may be a fact line more.
fn has_room(facts: &Option<Vec<FactStep>>) -> bool
    ensures { result ≡ has_room (facts_in facts.now) }
{
    match facts {
        None => false,
        Some(steps) => steps.len() < FACT_LIMIT,
    }
}

/// What was made of the lines of documents so far.
#[derive(Drop)]
pub(crate) struct Reader {
    /// How many lines were read.
    pub(crate) lines: u64,
    /// The whole documents.
    pub(crate) documents: Vec<Document>,
    /// Which line comes next.
    pub(crate) place: DocumentPlace,
    /// The version of the open document.
    pub(crate) version: Version,
    /// What its lines said.
    pub(crate) claim: Claim,
    /// How many instructions, or trees, are still to come.
    pub(crate) left: u64,
    /// How many lines of the open tree are splits.
    pub(crate) splits: u32,
}

impl Reader {
    /// No line was read.
    pub(crate) fn new(alloc: Global) -> Reader
        ensures { state result ≡ first_state }
    {
        Reader {
            lines: 0,
            documents: Vec::new(alloc),
            place: DocumentPlace::AtHeader,
            version: Version::BoundsAlone,
            claim: nothing(alloc),
            left: 0,
            splits: 0,
        }
    }

    /// The next line isn't what a document has in its place.
    fn bad_line(&self) -> CertError
        requires { self.now.lines < 2 ^ 64 - 1 }
        ensures { result ≡ BadLine (self.now.lines + 1) }
    {
        CertError::BadLine {
            line: self.lines + 1,
        }
    }

    /// The next line was read, and another comes.
    fn go_on(&mut self, place: DocumentPlace, left: u64, splits: u32)
        requires { self.old.lines < 2 ^ 64 - 1 }
        ensures { state self.new ≡
            record (state self.old) { count = suc self.old.lines; place = place; left = left; splits = splits } }
    {
        self.lines += 1;
        self.place = place;
        self.left = left;
        self.splits = splits;
    }

    /// Reads the text of an instruction if one is due.
    fn take_instruction(&mut self, alloc: Global, text: &ReadText<'_>) -> Result<(), CertError>
        requires lines { self.old.lines < 2 ^ 64 - 1 }
        requires some { 1 ≤ self.old.left }
        ensures { Steps (state self.new) result (step_at SPLIT_LIMIT (state self.old) AtInstruction
            (Instruction text.now.bytes.now)) }
    {
        let copy = InstructionText::new(alloc, text.bytes, text.instr)?;
        self.claim.block.push(copy)?;
        let left = self.left - 1;
        let place = if left == 0 {
            DocumentPlace::AtTime
        } else {
            DocumentPlace::AtInstruction
        };
        self.go_on(place, left, 0);
        Ok(())
    }

    /// Whether dominated leaves may come.
    fn may_dominate(&self) -> bool
        ensures { result ≡ may_dominate self.now.claim }
    {
        names_nodes(self.claim.rule) && self.claim.facts.is_none()
    }

    /// Whether the line may come in the open document.
    fn is_leaf(&self, line: TreeLine<'_>) -> bool
        ensures { result ≡ is_leaf_of self.now.claim (vertex_of line.entry) }
    {
        is_allowed(self.may_dominate(), self.claim.facts.is_some(), line)
    }

    /// Whether a fact line may come.
    fn takes_fact(&self) -> bool
        ensures { result ≡ takes_fact self.now.claim }
    {
        self.claim.tree.is_empty() && has_room(&self.claim.facts)
    }

    /// Whether this fact line, or this line of a supposition, may come.
    fn takes_step(&self, step: &FactStep) -> bool
        ensures { result ≡ takes_step self.now.version self.now.claim step.now }
    {
        self.takes_fact() && (self.version.may_suppose() || !step.is_of_supposition())
    }

    /// Reads a fact line, or one of a supposition, if it may come.
    fn take_fact(&mut self, step: FactStep) -> Result<(), CertError>
        requires lines { self.old.lines < 2 ^ 64 - 1 }
        ensures { Steps (state self.new) result (step_at SPLIT_LIMIT (state self.old) AtTree (OfFact step)) }
    {
        if !self.takes_step(&step) {
            return Err(self.bad_line());
        }
        if let Some(steps) = &mut self.claim.facts {
            steps.push(step)?;
        }
        self.go_on(DocumentPlace::AtTree, self.left, self.splits);
        Ok(())
    }

    /// Reads a line of the tree if one is due.
    #[tactic(auto, using(crate::proofs::Places::refused_vertex))]
    fn take_vertex(&mut self, vertex: TreeLine<'_>) -> Result<(), CertError>
        requires lines { self.old.lines < 2 ^ 64 - 1 }
        requires some { 1 ≤ self.old.left }
        requires few { self.old.left ≤ 2 ^ 32 }
        requires numbers { IsVertex BLOCK_LIMIT (vertex_of vertex) }
        ensures { Steps (state self.new) result (step_at SPLIT_LIMIT (state self.old) AtTree
            (OfTree (vertex_of vertex.entry))) }
    {
        if !self.is_leaf(vertex) {
            return Err(self.bad_line());
        }
        let mut left = self.left - 1;
        let mut splits = self.splits;
        if let TreeLine::Split(numbers) = vertex {
            if splits >= SPLIT_LIMIT {
                return Err(CertError::TooManyNodes);
            }
            splits += 1;
            left += numbers.len() as u64;
        }
        self.claim.tree.push(vertex)?;
        let place = if left == 0 {
            DocumentPlace::AtEnd
        } else {
            DocumentPlace::AtTree
        };
        self.go_on(place, left, splits);
        Ok(())
    }

    /// Whether dominated leaves come, and there is none.
    fn wants_dominated(&self) -> bool
        ensures { result ≡ wants_dominated self.now.claim }
    {
        self.may_dominate() && !self.claim.tree.has_dominated()
    }

    /// Whether suppositions come, and there is none.
    fn wants_supposition(&self) -> bool
        ensures { result ≡ wants_supposition self.now.version self.now.claim }
    {
        let facts = match &self.claim.facts {
            None => None,
            Some(steps) => Some(steps.as_slice()),
        };
        self.version.may_suppose() && !has_suppositions(facts)
    }

    /// Whether what the version requires is missing.
    fn is_wanting(&self) -> bool
        ensures { result ≡ is_wanting self.now.version self.now.claim }
    {
        self.wants_dominated() || self.wants_supposition()
    }

    /// Reads the last line if it is due.
    fn take_end(&mut self, alloc: Global) -> Result<(), CertError>
        requires lines { self.old.lines < 2 ^ 64 - 1 }
        requires named { is_wanting self.old.version self.old.claim ≡ false }
        requires whole { AreWhole self.old.claim }
        ensures { Steps (state self.new) result (step_at SPLIT_LIMIT (state self.old) AtEnd End) }
    {
        let claim = mem::replace(&mut self.claim, nothing(alloc));
        self.documents.push(Document::new(claim))?;
        self.version = Version::BoundsAlone;
        self.go_on(DocumentPlace::AtHeader, 0, 0);
        Ok(())
    }

    #[tactic(auto, using(crate::proofs::Places::other_header))]
    fn header(&mut self, alloc: Global, version: Version) -> Result<(), CertError>
        requires lines { self.old.lines < 2 ^ 64 - 1 }
        ensures { Steps (state self.new) result (step_at SPLIT_LIMIT (state self.old) self.old.place
            (Header version)) }
    {
        match self.place {
            DocumentPlace::AtHeader => {
                self.claim = nothing(alloc);
                self.claim.rule = version.rule();
                if version.has_facts() {
                    self.claim.facts = Some(Vec::new(alloc));
                }
                self.version = version;
                self.go_on(DocumentPlace::AtProfile, 0, 0);
                Ok(())
            }
            _ => Err(self.bad_line()),
        }
    }

    #[tactic(auto, using(crate::proofs::Places::other_profile))]
    fn profile(&mut self, numbers: ArrayVec<u8, PROFILE_LENGTH>) -> Result<(), CertError>
        requires lines { self.old.lines < 2 ^ 64 - 1 }
        ensures { Steps (state self.new) result (step_at SPLIT_LIMIT (state self.old) self.old.place
            (Profile numbers.items)) }
    {
        match self.place {
            DocumentPlace::AtProfile => {
                self.claim.profile = numbers;
                self.go_on(DocumentPlace::AtBlock, 0, 0);
                Ok(())
            }
            _ => Err(self.bad_line()),
        }
    }

    #[tactic(auto, using(crate::proofs::Places::other_block))]
    fn block(&mut self, alloc: Global, count: u32) -> Result<(), CertError>
        requires lines { self.old.lines < 2 ^ 64 - 1 }
        ensures { Steps (state self.new) result (step_at SPLIT_LIMIT (state self.old) self.old.place (Block count)) }
    {
        match self.place {
            DocumentPlace::AtBlock => {
                self.claim.block = Vec::new(alloc);
                self.go_on(DocumentPlace::AtInstruction, count as u64, 0);
                Ok(())
            }
            _ => Err(self.bad_line()),
        }
    }

    #[tactic(auto, using(crate::proofs::Places::other_instruction, crate::proofs::Places::some_instruction))]
    fn instruction(&mut self, alloc: Global, text: &ReadText<'_>) -> Result<(), CertError>
        requires lines { self.old.lines < 2 ^ 64 - 1 }
        requires fine { IsFine SPLIT_LIMIT (state self.old) }
        ensures { Steps (state self.new) result (step_at SPLIT_LIMIT (state self.old) self.old.place
            (Instruction text.now.bytes.now)) }
    {
        match self.place {
            DocumentPlace::AtInstruction => self.take_instruction(alloc, text),
            _ => Err(self.bad_line()),
        }
    }

    #[tactic(auto, using(crate::proofs::Places::other_time))]
    fn time(&mut self, time: u32) -> Result<(), CertError>
        requires lines { self.old.lines < 2 ^ 64 - 1 }
        ensures { Steps (state self.new) result (step_at SPLIT_LIMIT (state self.old) self.old.place (Time time)) }
    {
        match self.place {
            DocumentPlace::AtTime => {
                self.claim.time = time;
                self.go_on(DocumentPlace::AtBound, 0, 0);
                Ok(())
            }
            _ => Err(self.bad_line()),
        }
    }

    #[tactic(auto, using(crate::proofs::Places::other_bound))]
    fn bound(&mut self, bound: u32) -> Result<(), CertError>
        requires lines { self.old.lines < 2 ^ 64 - 1 }
        ensures { Steps (state self.new) result (step_at SPLIT_LIMIT (state self.old) self.old.place (Bound bound)) }
    {
        match self.place {
            DocumentPlace::AtBound => {
                self.claim.bound = bound;
                self.go_on(DocumentPlace::AtOrder, 0, 0);
                Ok(())
            }
            _ => Err(self.bad_line()),
        }
    }

    #[tactic(auto, using(crate::proofs::Places::other_order))]
    fn order(&mut self, alloc: Global, numbers: &[u8]) -> Result<(), CertError>
        requires lines { self.old.lines < 2 ^ 64 - 1 }
        requires few { length numbers.now ≤ BLOCK_LIMIT }
        ensures { Steps (state self.new) result (step_at SPLIT_LIMIT (state self.old) self.old.place
            (Order numbers.now)) }
    {
        match self.place {
            DocumentPlace::AtOrder => {
                self.claim.order.clear();
                let Ok(()) = self.claim.order.try_extend_from_slice(numbers) else {
                    unreachable!()
                };
                if self.claim.facts.is_some() {
                    self.claim.facts = Some(Vec::new(alloc));
                }
                self.claim.tree = Tree::new(alloc);
                self.go_on(DocumentPlace::AtTree, 1, 0);
                Ok(())
            }
            _ => Err(self.bad_line()),
        }
    }

    #[tactic(auto, using(crate::proofs::Places::other_fact))]
    fn fact(&mut self, step: FactStep) -> Result<(), CertError>
        requires lines { self.old.lines < 2 ^ 64 - 1 }
        ensures { Steps (state self.new) result (step_at SPLIT_LIMIT (state self.old) self.old.place (OfFact step)) }
    {
        match self.place {
            DocumentPlace::AtTree => self.take_fact(step),
            _ => Err(self.bad_line()),
        }
    }

    #[tactic(auto, using(crate::proofs::Places::other_vertex, crate::proofs::Places::some_tree, crate::proofs::Places::few_trees))]
    fn vertex(&mut self, vertex: TreeLine<'_>) -> Result<(), CertError>
        requires lines { self.old.lines < 2 ^ 64 - 1 }
        requires fine { IsFine SPLIT_LIMIT (state self.old) }
        requires numbers { IsVertex BLOCK_LIMIT (vertex_of vertex) }
        ensures { Steps (state self.new) result (step_at SPLIT_LIMIT (state self.old) self.old.place
            (OfTree (vertex_of vertex.entry))) }
    {
        match self.place {
            DocumentPlace::AtTree => self.take_vertex(vertex),
            _ => Err(self.bad_line()),
        }
    }

    #[tactic(auto, using(crate::proofs::Places::other_end, crate::proofs::Places::wanting_end))]
    fn end(&mut self, alloc: Global) -> Result<(), CertError>
        requires lines { self.old.lines < 2 ^ 64 - 1 }
        requires fine { IsFine SPLIT_LIMIT (state self.old) }
        ensures { Steps (state self.new) result (step_at SPLIT_LIMIT (state self.old) self.old.place End) }
    {
        match self.place {
            DocumentPlace::AtEnd => {
                if self.is_wanting() {
                    return Err(self.bad_line());
                }
                self.take_end(alloc)
            }
            _ => Err(self.bad_line()),
        }
    }

    /// Reads the next line, by what it says.
    fn take(&mut self, alloc: Global, line: LineOf<'_>) -> Result<(), CertError>
        requires lines { self.old.lines < 2 ^ 64 - 1 }
        requires fine { IsFine SPLIT_LIMIT (state self.old) }
        requires range { IsLineInRange BLOCK_LIMIT (said line) }
        ensures { Steps (state self.new) result (step_at SPLIT_LIMIT (state self.old) self.old.place
            (said line.entry)) }
    {
        match line {
            LineOf::Header(version) => self.header(alloc, version),
            LineOf::Profile(numbers) => self.profile(numbers),
            LineOf::Block(count) => self.block(alloc, count),
            LineOf::Instruction(text) => self.instruction(alloc, &text),
            LineOf::Time(time) => self.time(time),
            LineOf::Bound(bound) => self.bound(bound),
            LineOf::Order(numbers) => self.order(alloc, numbers),
            LineOf::OfFact(step) => self.fact(step),
            LineOf::OfTree(vertex) => self.vertex(vertex),
            LineOf::End => self.end(alloc),
        }
    }

    /// Reads the next line.
    fn take_line(&mut self, alloc: Global, bytes: &[u8]) -> Result<(), CertError>
        requires lines { self.old.lines < 2 ^ 64 - 1 }
        requires fine { IsFine SPLIT_LIMIT (state self.old) }
        ensures step { Steps (state self.new) result (step BLOCK_LIMIT SPLIT_LIMIT (state self.old) bytes.now) }
        ensures lines { OnOk result (self.new.lines ≡ self.old.lines + 1) }
        ensures fine { OnOk result (IsFine SPLIT_LIMIT (state self.new)) }
    {
        let mut room = ArrayVec::new();
        match line_of(bytes, &mut room) {
            None => Err(self.bad_line()),
            Some(line) => self.take(alloc, line),
        }
    }

    /// Reads all lines of a text that end with a newline. Returns whether nothing is left after them.
    pub(crate) fn take_all(&mut self, alloc: Global, text: &[u8]) -> Result<bool, CertError>
        requires lines { self.old.lines ≡ 0 }
        requires fine { IsFine SPLIT_LIMIT (state self.old) }
        ensures { StepsEnd (state self.new) result
            (steps BLOCK_LIMIT SPLIT_LIMIT (state self.old) (whole_lines [] text.now)) (last_bytes [] text.now) }
    {
        let mut begin = 0;
        for (i, byte) in text.iter().enumerate() {
            if *byte == b'\n' {
                self.take_line(alloc, &text[begin..i])?;
                begin = i + 1;
            }
        }
        Ok(begin == text.len())
    }
}
