//! A table of marks by the sets of their numbers (`MarkTable`): a prefix is dominated if a mark of the same set is no later in any
//! word.
//!
//! It is a dominance or transposition table: beginnings of the same set of instructions have the same completions, so that of two the
//! one that leaves every register, unit and memory no later makes the other needless. Which nodes a leaf may name is a rule of the tree
//! (`s66_model`).

ghost use Rattle.std.specs.Prelude.{ℕ, ◌≤◌, ◌<◌, ◌≡◌, ◌⊎◌, IsTrue, List, length, map};
ghost use Rattle.s66_isa.specs.{Among, BLOCK_LIMIT};
ghost use Rattle.s66_model.specs.{Problem, IsIncomplete, IsSameSet, IsEarlier, DominatesByRule};
ghost use Rattle.s66_time.specs.{IsMarkOf};
ghost use Rattle.s66_node.specs.{IsEntry, AreEntries, numbers_of, TABLE_LIMIT};

use crate::chains::{Chains, NONE};
use crate::name::{Name, NodePlace};
use crate::naming::Naming;
use crate::node::State;
use crate::walk::{Walk, common_length};
use crate::whole_order::copy_of;
use arrayvec::ArrayVec;
use s66_isa::{BLOCK_LIMIT, Profile, Set};
use s66_line::Block;
use s66_model::Rule;
use s66_time::{Mark, dominates, dominates_clamped};
use std::alloc::{AllocError, Global};
use std::boxed::Box;
use std::marker::Model;

/// The most marks of one set of numbers that are kept to be compared clamped.
const LIST_LIMIT: u32 = 64;

/// The most marks that are kept.
const TABLE_LIMIT: usize = 65_536;

/// A beginning of the block's legal orders that others may be compared with.
#[derive(Drop)]
pub struct MarkEntry {
    /// The set of its numbers.
    pushed: Set,
    mark: Mark,
    numbers: ArrayVec<u8, BLOCK_LIMIT>,
}

/// Marks of beginnings of a block's legal orders, found by the sets of their numbers: a dominance table, which is what others call
/// a transposition table.
///
/// At most 65,536 are kept in all, or the table's own limit if that is less; of those that are compared clamped, at most 64 of
/// one set. If memory runs out, or a limit is reached, a mark isn't kept.
#[derive(Drop)]
pub struct MarkTable<'a> {
    block: &'a Block<'a>,
    profile: Profile,
    /// How many entries are kept at most, beside `TABLE_LIMIT`.
    limit: usize,
    entries: Vec<MarkEntry>,
    /// The nodes that the entries are.
    places: Vec<NodePlace>,
    /// The entries whose nodes are those of a piece, and maybe others.
    unsettled: Vec<u32>,
    /// The indices of the entries, by the hashes of their sets.
    chains: Chains,
    /// Room for the mark of a prefix that is looked for or kept.
    room: Mark,
    /// Whether memory has run out for a mark.
    lacks_memory: bool,
}

impl<'a> Model for MarkTable<'a> {
    ghost use Rattle.std.specs.Prelude.{map};
    ghost use Rattle.s66_line.specs.{instrs_of};
    ghost use Rattle.s66_node.specs.MarkTables.{MarkTable, AreEntries, numbers_of};

    ghost Value = { MarkTable };

    ghost view = { λ m.
        record { problem = record { block = instrs_of m.block.now; profile = m.profile }; names = map numbers_of m.entries.items } };

    ghost invariant = { λ m. AreEntries (record { block = instrs_of m.block.now; profile = m.profile })
        m.entries.items };
}

/// Whether the left numbers are smaller at the first place where both differ.
fn is_earlier(left: &[u8], right: &[u8]) -> bool
    ensures { IsTrue result → IsEarlier left.now right.now }
{
    let common = common_length(left, right);
    common < left.len() && common < right.len() && left[common] < right[common]
}

/// Whether numbers with one mark dominate a walk's prefix with the other, over the same set, as the rule asks.
fn is_dominating(rule: Rule, numbers: &[u8], left: &Mark, walk: &Walk<'_>, right: &Mark) -> bool
    requires left { IsMarkOf walk.now.problem numbers.now left.now }
    requires right { IsMarkOf walk.now.problem walk.now.numbers right.now }
    requires same { IsSameSet numbers.now walk.now.numbers }
    ensures { IsTrue result → IsIncomplete walk.now.problem.block walk.now.numbers →
        DominatesByRule rule walk.now.problem numbers.now walk.now.numbers }
{
    match rule {
        Rule::NoneNamed => false,
        Rule::WrittenEarlier => dominates(left, right) && is_earlier(numbers, walk.numbers()),
        Rule::ClampedStanding => dominates_clamped(left, right),
    }
}

/// Whether the first mark is enough beside the second one of the same set: whatever the second dominates, the first does.
fn is_enough(rule: Rule, left: &Mark, right: &Mark) -> bool {
    match rule {
        Rule::NoneNamed => false,
        Rule::WrittenEarlier => dominates(left, right),
        Rule::ClampedStanding => dominates_clamped(left, right),
    }
}

/// Takes the entries of a set beside which a mark is enough out of its list, and returns how many stay.
fn remove_dominated(
    chains: &mut Chains,
    entries: &[MarkEntry],
    pushed: &Set,
    mark: &Mark,
    rule: Rule,
) -> u32 {
    let hash = pushed.hash();
    let mut stay = 0u32;
    let mut before = NONE;
    let mut place = chains.first(hash);
    for _ in 0..entries.len() {
        let index = place as usize;
        if index >= entries.len() {
            return stay;
        }
        let entry = &entries[index];
        let next = chains.next(place);
        let is_same = entry.pushed == *pushed;
        if is_same && is_enough(rule, mark, &entry.mark) {
            chains.remove(hash, before, place);
        } else {
            if is_same {
                stay = stay.saturating_add(1);
            }
            before = place;
        }
        place = next;
    }
    stay
}

/// Puts each index of a table into the list of its entry's set.
fn put_all(chains: &mut Chains, entries: &[MarkEntry])
    requires { length entries.now ≤ TABLE_LIMIT }
{
    for index in 0..entries.len() {
        chains.put(entries[index].pushed.hash(), index as u32);
    }
}

/// Notes that the entry of this index is this node.
fn set_place(
    places: &mut Vec<NodePlace>,
    index: usize,
    place: NodePlace,
) -> Result<(), AllocError> {
    if index < places.len() {
        places[index] = place;
    } else {
        places.push(place)?;
    }
    Ok(())
}

/// Makes a place for the entry of an index, whose node is this one, and more lists if there are too few.
fn make_place(
    chains: &mut Chains,
    places: &mut Vec<NodePlace>,
    unsettled: &mut Vec<u32>,
    entries: &[MarkEntry],
    index: usize,
    place: NodePlace,
) -> Result<(), AllocError>
    requires few { length entries.now ≤ TABLE_LIMIT }
    requires within { index < TABLE_LIMIT }
{
    if let NodePlace::Line(_) = place {
        unsettled.push(index as u32)?;
    }
    set_place(places, index, place)?;
    if index < entries.len() {
        return Ok(());
    }
    if chains.is_crowded(entries.len()) {
        chains.double()?;
        put_all(chains, entries);
    }
    chains.add_place()
}

/// Puts an entry in the place of that of an index, or after all.
fn put_entry(entries: &mut Vec<MarkEntry>, index: usize, entry: MarkEntry) -> Result<(), AllocError>
    requires within { index < TABLE_LIMIT }
    ensures entries { (b : Problem) → IsEntry b entry → AreEntries b entries.old.items →
        AreEntries b entries.new.items }
    ensures known { (name : List ℕ) → Among name (map numbers_of entries.new.items) →
        (name ≡ numbers_of entry) ⊎ Among name (map numbers_of entries.old.items) }
{
    if index < entries.len() {
        entries[index] = entry;
    } else {
        entries.push(entry)?;
    }
    Ok(())
}

/// The node of the entry of an index; no node, if memory ran out when it was to be noted.
fn place_of(places: &[NodePlace], index: usize) -> NodePlace {
    if index < places.len() {
        places[index]
    } else {
        NodePlace::Node(u32::MAX)
    }
}

/// Makes nodes of lines, at these entries.
fn settle_places(places: &mut Vec<NodePlace>, unsettled: &[u32], root: u32, first: u32) {
    for index in unsettled {
        let index = *index as usize;
        if index < places.len() {
            let place = places[index];
            places[index] = NodePlace::Node(place.number(root, first));
        }
    }
}

/// Takes these entries out of their lists if they are lines.
fn remove_lines(
    chains: &mut Chains,
    entries: &[MarkEntry],
    places: &[NodePlace],
    unsettled: &[u32],
) {
    for place in unsettled {
        let index = *place as usize;
        if index < entries.len() && index < places.len() {
            if let NodePlace::Line(_) = places[index] {
                chains.remove_place(entries[index].pushed.hash(), *place, entries.len());
            }
        }
    }
}

impl MarkEntry {
    ghost use Rattle.std.specs.Prelude.{ℕ, ◌≡◌};
    ghost use Rattle.s66_isa.specs.{numbers_in, has};
    ghost use Rattle.s66_time.specs.{IsMarkOf};
    ghost use Rattle.s66_node.specs.{IsEntry, numbers_of};

    /// That of a walk's prefix, by the set of its numbers and its mark.
    pub fn of(walk: &Walk<'_>, pushed: &Set, mark: &Mark) -> MarkEntry
        requires pushed { (m : ℕ) → has m (numbers_in pushed.now) ≡ has m walk.now.numbers }
        requires mark { IsMarkOf walk.now.problem walk.now.numbers mark.now }
        ensures entry { IsEntry walk.now.problem result }
        ensures numbers { numbers_of result ≡ walk.now.numbers }
    {
        MarkEntry {
            pushed: *pushed,
            mark: *mark,
            numbers: copy_of(walk.numbers()),
        }
    }

    /// The hash of its set.
    pub fn hash(&self) -> u64 {
        self.pushed.hash()
    }
}

impl<'a> MarkTable<'a> {
    ghost use Rattle.std.specs.Prelude.{ℕ, ◌≡◌, ◌⊎◌, ◌++◌, [], ◌∷◌, List, IfOk, IfSome, IfNone, IsTrue};
    ghost use Rattle.s66_isa.specs.{numbers_in, Among, has};
    ghost use Rattle.s66_time.specs.{IsMarkOf};
    ghost use Rattle.s66_line.specs.{instrs_of};
    ghost use Rattle.s66_model.specs.{WrittenEarlier, IsIncomplete, DominatesByRule};
    ghost use Rattle.s66_node.specs.{IsEntry, numbers_of};

    /// No mark.
    pub fn new(alloc: Global, block: &'a Block<'a>, profile: &Profile) -> MarkTable<'a>
        ensures { result ≡
            record { problem = record { block = instrs_of block.now; profile = profile.now }; names = [] } }
    {
        MarkTable::with_limit(alloc, block, profile, TABLE_LIMIT)
    }

    /// No mark, in a table that keeps at most `limit`, and no more than 65,536.
    pub fn with_limit(
        alloc: Global,
        block: &'a Block<'a>,
        profile: &Profile,
        limit: usize,
    ) -> MarkTable<'a>
        ensures { result ≡
            record { problem = record { block = instrs_of block.now; profile = profile.now }; names = [] } }
    {
        MarkTable {
            block,
            profile: *profile,
            limit,
            entries: Vec::new(alloc),
            places: Vec::new(alloc),
            unsettled: Vec::new(alloc),
            chains: Chains::new(alloc),
            room: Mark::blank(),
            lacks_memory: false,
        }
    }

    /// Whether memory has run out for a mark, so that a search goes on otherwise than it does with enough.
    pub fn lacks_memory(&self) -> bool {
        self.lacks_memory
    }

    /// Forgets all marks, and keeps the memory.
    pub fn clear(&mut self)
        ensures { self.new ≡ record self.old { names = [] } }
    {
        self.chains.clear();
        self.unsettled.clear();
        self.places.clear();
        self.entries.clear();
    }

    /// The numbers of a beginning that dominates a walk's prefix, as the rule asks, and where its node may be found.
    /// Clamped, it may be that beginning itself.
    pub fn find(&self, walk: &Walk<'_>, rule: Rule) -> Option<(&[u8], NodePlace)>
        requires { self.now.problem ≡ walk.now.problem }
        ensures dominates { IfSome result (λ found. IsIncomplete walk.now.problem.block walk.now.numbers →
            DominatesByRule rule walk.now.problem found.0.now walk.now.numbers) }
        ensures known { IfSome result (λ found. Among found.0.now self.now.names) }
        ensures few { IfSome result (λ found. length found.0.now ≤ BLOCK_LIMIT) }
    {
        self.find_by(walk, &walk.pushed(), &walk.mark(), rule)
    }

    /// What `find` finds, by the set of the prefix's numbers and its mark.
    fn find_by(
        &self,
        walk: &Walk<'_>,
        pushed: &Set,
        mark: &Mark,
        rule: Rule,
    ) -> Option<(&[u8], NodePlace)>
        requires here { self.now.problem ≡ walk.now.problem }
        requires pushed { (m : ℕ) → has m (numbers_in pushed.now) ≡ has m walk.now.numbers }
        requires mark { IsMarkOf walk.now.problem walk.now.numbers mark.now }
        ensures dominates { IfSome result (λ found. IsIncomplete walk.now.problem.block walk.now.numbers →
            DominatesByRule rule walk.now.problem found.0.now walk.now.numbers) }
        ensures known { IfSome result (λ found. Among found.0.now self.now.names) }
        ensures few { IfSome result (λ found. length found.0.now ≤ BLOCK_LIMIT) }
    {
        let mut place = self.chains.first(pushed.hash());
        for _ in 0..self.entries.len() {
            let index = place as usize;
            if index >= self.entries.len() || index >= self.places.len() {
                return None;
            }
            let entry = &self.entries[index];
            if entry.pushed == *pushed
                && is_dominating(rule, entry.numbers.as_slice(), &entry.mark, walk, mark)
            {
                return Some((entry.numbers.as_slice(), self.places[index]));
            }
            place = self.chains.next(place);
        }
        None
    }

    /// A node that dominates the walk's prefix, as the rule asks, if one is known. The set is that of the prefix's numbers, and the
    /// mark the prefix's.
    pub fn find_name(
        &self,
        alloc: Global,
        walk: &Walk<'_>,
        pushed: &Set,
        mark: &Mark,
        rule: Rule,
    ) -> Result<Option<Box<Name>>, AllocError>
        requires here { self.now.problem ≡ walk.now.problem }
        requires pushed { (m : ℕ) → has m (numbers_in pushed.now) ≡ has m walk.now.numbers }
        requires mark { IsMarkOf walk.now.problem walk.now.numbers mark.now }
        ensures dominates { IfOk result (λ found. IfSome found
            (λ name. IsIncomplete walk.now.problem.block walk.now.numbers →
            DominatesByRule rule walk.now.problem name.value.numbers.items walk.now.numbers)) }
        ensures known { IfOk result (λ found. IfSome found (λ name. Among name.value.numbers.items self.now.names)) }
    {
        match self.find_by(walk, pushed, mark, rule) {
            Some((numbers, place)) => Ok(Some(Name::new(alloc, numbers, place)?)),
            None => Ok(None),
        }
    }

    /// Keeps an entry, and the node that it is, if there is room.
    fn keep(&mut self, entry: MarkEntry, place: NodePlace) -> Result<(), AllocError>
        requires { IsEntry self.old.problem entry }
        ensures same { self.new.problem ≡ self.old.problem }
        ensures known { (name : List ℕ) → Among name self.new.names →
            (name ≡ numbers_of entry) ⊎ Among name self.old.names }
    {
        let index = match self.chains.reuse() {
            Some(index) => index as usize,
            None => self.entries.len(),
        };
        if index >= self.limit.min(TABLE_LIMIT) {
            return Ok(());
        }
        make_place(
            &mut self.chains,
            &mut self.places,
            &mut self.unsettled,
            self.entries.as_slice(),
            index,
            place,
        )?;
        let hash = entry.hash();
        put_entry(&mut self.entries, index, entry)?;
        self.chains.put(hash, index as u32);
        Ok(())
    }

    /// Keeps the mark of a walk's prefix, which has this line of a piece, and forgets those beside which it is enough by the
    /// rule.
    pub fn insert(&mut self, walk: &Walk<'_>, rule: Rule, line: usize)
        requires { self.old.problem ≡ walk.now.problem }
        ensures same { self.new.problem ≡ self.old.problem }
        ensures known { (name : List ℕ) → Among name self.new.names →
            (name ≡ walk.now.numbers) ⊎ Among name self.old.names }
    {
        walk.set_mark(&mut self.room);
        let entry = MarkEntry::of(walk, &walk.pushed(), &self.room);
        self.put_line(entry, line, true, rule);
    }

    /// Keeps an entry as `put` does, which has this line of a piece and is split or stays open; by the rule of earlier nodes only
    /// if it is split.
    pub fn put_line(&mut self, entry: MarkEntry, line: usize, is_split: bool, rule: Rule)
        requires { IsEntry self.old.problem entry }
        ensures same { self.new.problem ≡ self.old.problem }
        ensures known { (name : List ℕ) → Among name self.new.names →
            (name ≡ entry.numbers.items) ⊎ Among name self.old.names }
        ensures open { rule ≡ WrittenEarlier → ¬ IsTrue is_split → self.new.names ≡ self.old.names }
    {
        if is_split || rule == Rule::ClampedStanding {
            let line = line.min(u32::MAX as usize) as u32;
            self.put(entry, NodePlace::Line(line), rule);
        }
    }

    /// Keeps an entry, which is this node, and forgets those beside which it is enough by the rule.
    pub fn put(&mut self, entry: MarkEntry, place: NodePlace, rule: Rule)
        requires { IsEntry self.old.problem entry }
        ensures same { self.new.problem ≡ self.old.problem }
        ensures known { (name : List ℕ) → Among name self.new.names →
            (name ≡ entry.numbers.items) ⊎ Among name self.old.names }
    {
        let stay = remove_dominated(
            &mut self.chains,
            self.entries.as_slice(),
            &entry.pushed,
            &entry.mark,
            rule,
        );
        if rule == Rule::ClampedStanding && stay >= LIST_LIMIT {
            return;
        }
        let is_kept = self.keep(entry, place).is_ok();
        self.lacks_memory = self.lacks_memory | !is_kept;
    }

    /// Takes the last entry out, with the node that it is. Before the table is empty, `find` may miss entries that are left.
    pub fn pop(&mut self) -> Option<(MarkEntry, NodePlace)>
        ensures same { self.new.problem ≡ self.old.problem }
        ensures some { IfSome result (λ taken. IsEntry self.old.problem taken.0 ×
            (self.old.names ≡ self.new.names ++ numbers_of taken.0 ∷ [])) }
        ensures none { IfNone result (self.old.names ≡ []) }
    {
        let entry = self.entries.pop()?;
        let place = place_of(self.places.as_slice(), self.entries.len());
        if self.entries.is_empty() {
            self.chains.clear();
            self.unsettled.clear();
            self.places.clear();
        }
        Some((entry, place))
    }

    /// Says which nodes of a ledger the lines of the last piece have become: its root this one, and the others those from
    /// `first` on, in their order.
    pub fn settle(&mut self, root: u32, first: u32)
        ensures { self.new ≡ self.old }
    {
        settle_places(&mut self.places, self.unsettled.as_slice(), root, first);
        self.unsettled.clear();
    }

    /// Forgets the lines of pieces that weren't settled.
    pub fn forget_lines(&mut self)
        ensures { self.new ≡ self.old }
    {
        remove_lines(
            &mut self.chains,
            self.entries.as_slice(),
            self.places.as_slice(),
            self.unsettled.as_slice(),
        );
        self.unsettled.clear();
    }
}

impl Naming for MarkTable<'_> {
    ghost suits = { λ marks b. marks.problem ≡ b };

    ghost names = { λ marks. marks.names };

    fn find_or_keep(
        &mut self,
        alloc: Global,
        walk: &Walk<'_>,
        rule: Rule,
        line: usize,
        is_split: bool,
    ) -> Result<Option<Box<Name>>, AllocError> {
        let pushed = walk.pushed();
        walk.set_mark(&mut self.room);
        if let Some(name) = self.find_name(alloc, walk, &pushed, &self.room, rule)? {
            return Ok(Some(name));
        }
        let entry = MarkEntry::of(walk, &pushed, &self.room);
        self.put_line(entry, line, is_split, rule);
        Ok(None)
    }

    fn keep_root(&mut self, walk: &Walk<'_>, rule: Rule, state: State) {
        match state {
            State::Split => self.insert(walk, rule, 0),
            State::Open if rule == Rule::ClampedStanding => self.insert(walk, rule, 0),
            _ => {}
        }
    }
}
