//! The marks of the nodes that all workers of a search have grafted, in parts, each of which one worker at a time may use.

ghost use Rattle.std.specs.Prelude.{◌≡◌, ◌<◌, All, length, IfOk};
ghost use Rattle.s66_line.specs.{instrs_of};

use atomic_table::{Play, Refused, Seat, Table, TableRule};
use s66_isa::{Profile, Set};
use s66_line::Block;
use s66_model::Rule;
use s66_node::{MarkEntry, MarkTable, Name, NodePlace, Walk};
use s66_share::SPINS;
use s66_time::Mark;
use std::alloc::{AllocError, Global};
use std::boxed::Box;
use std::hint::spin_loop;
use std::sync::Wait;
use std::thread::yield_now;

/// How many parts there are.
const PARTS: usize = 64;

/// The most marks of a part.
const PART_LIMIT: usize = 1_024;

/// Odd, so that no two hashes have one product; the high bits of a product depend on all bits of its hash.
const MIXER: u64 = 0xD6E8_FEB8_6659_FD93;

/// A part whose word is 0 is at home, and its marks are of the key's problem, which each seat knows.
struct Parts;

impl<'b> TableRule<MarkTable<'b>, MarkTable<'b>, MarkTable<'b>> for Parts {
    ghost use Rattle.s66_pool.specs.Parts.{ArePartsOf};

    ghost holds = { ArePartsOf };

    ghost first = { λ key. key };
}

/// What a worker uses the parts with. It takes no bytes.
pub(crate) type Token<'b> = Seat<MarkTable<'b>, MarkTable<'b>>;

/// A new token knows the problem.
struct Enters;

impl<'b> Play<MarkTable<'b>, MarkTable<'b>> for Enters {
    ghost use Rattle.s66_pool.specs.Parts.{Entered};

    ghost then = { Entered };
}

/// The token takes a part, if no other has it.
struct Takes;

impl<'b> Play<MarkTable<'b>, MarkTable<'b>> for Takes {
    ghost use Rattle.s66_pool.specs.Parts.{Took};

    ghost then = { Took };
}

/// The token gives a part back.
struct Gives;

impl<'b> Play<MarkTable<'b>, MarkTable<'b>> for Gives {
    ghost use Rattle.s66_pool.specs.Parts.{Gave};

    ghost then = { Gave };
}

/// So many parts, which have no mark.
fn empty_parts<'b>(
    alloc: Global,
    block: &'b Block<'b>,
    profile: &Profile,
    count: usize,
) -> Result<Vec<MarkTable<'b>>, AllocError>
    ensures count { IfOk result (λ parts. length parts.items ≡ count) }
    ensures own { IfOk result (λ parts. All (λ p. p.problem ≡
        record { block = instrs_of block.now; profile = profile.now }) parts.items) }
{
    let mut parts = Vec::with_capacity(alloc, count)?;
    for _ in 0..count {
        parts.push_reserved(MarkTable::with_limit(alloc, block, profile, PART_LIMIT));
    }
    Ok(parts)
}

/// The marks of the nodes that all workers of a search have grafted.
///
/// At most 65,536 are kept in all, in 64 parts. The set of a mark's numbers says in which part it is.
#[derive(Drop)]
pub(crate) struct SharedMarks<'b> {
    block: &'b Block<'b>,
    profile: Profile,
    table: Table<MarkTable<'b>, MarkTable<'b>, MarkTable<'b>, Parts, Global>,
    ghost some: { 0 < table.shared.table_id.slots },
    ghost a_word_each: { table.shared.table_id.words ≡ table.shared.table_id.slots },
    ghost problem: { table.shared.key.problem ≡ record { block = instrs_of block.now; profile = profile } },
}

impl<'b> SharedMarks<'b> {
    ghost use Rattle.std.specs.Prelude.{ℕ, ◌≡◌, ◌<◌, IfOk, IfSome};
    ghost use Rattle.s66_line.specs.{instrs_of};
    ghost use Rattle.s66_isa.specs.{numbers_in, has};
    ghost use Rattle.s66_time.specs.{IsMarkOf};
    ghost use Rattle.s66_model.specs.{ClampedStanding, IsIncomplete, DominatesByRule};
    ghost use Rattle.s66_node.specs.{MarkTable, IsEntry};
    ghost use Rattle.s66_pool.specs.{IsAt, HasPart};

    /// No mark. If workers name only lines of their own pieces, one part is made, which stays empty.
    pub(crate) fn new(
        alloc: Global,
        block: &'b Block<'b>,
        profile: &Profile,
        rule: Rule,
    ) -> Result<SharedMarks<'b>, AllocError>
        ensures { IfOk result (λ marks. marks.table.shared.key.problem ≡
            record { block = instrs_of block.now; profile = profile.now }) }
    {
        let count = match rule {
            Rule::ClampedStanding => PARTS,
            Rule::NoneNamed | Rule::WrittenEarlier => 1,
        };
        let words = vec![in alloc; 0; count]?;
        let parts = empty_parts(alloc, block, profile, count)?;
        let key = MarkTable::new(alloc, block, profile);
        match Table::new(alloc, words.as_slice(), parts, &key) {
            Ok((table, _)) => Ok(SharedMarks {
                block,
                profile: *profile,
                table,
            }),
            Err(Refused { .. }) => Err(AllocError),
        }
    }

    /// The block of the search.
    pub(crate) fn block(&self) -> &'b Block<'b>
        ensures { instrs_of result.now ≡ self.now.table.shared.key.problem.block }
    {
        self.block
    }

    /// The profile of the search.
    pub(crate) fn profile(&self) -> &Profile
        ensures { result.now ≡ self.now.table.shared.key.problem.profile }
    {
        &self.profile
    }

    /// A new token.
    pub(crate) fn token(&self) -> Token<'b>
        ensures { IsAt self.now.table.shared.table_id self.now.table.shared.key result }
    {
        let (_, token) = self.table.shared.load_new_seat::<Enters>(0);
        token
    }

    /// In which part the sets with a hash are.
    fn part_of(&self, hash: u64) -> usize
        ensures { result < self.now.table.shared.table_id.slots }
    {
        // mixed anew, since within a part the lists go by the high bits of the hash itself
        ((hash.wrapping_mul(MIXER) >> 32) as usize) % self.table.slot_count()
    }

    /// Waits until no other worker has a part, and takes it.
    fn take<R: Wait>(&self, rt: &R, token: &mut Token<'b>, part: usize)
        requires part { part < self.now.table.shared.table_id.slots }
        requires here { IsAt self.now.table.shared.table_id self.now.table.shared.key token.old }
        ensures { HasPart self.now.table.shared.table_id self.now.table.shared.key part token.new }
    {
        for _ in rt.forever() {
            if self
                .table
                .shared
                .compare_exchange::<Takes>(token, part, 0, 1)
                == 0
            {
                return;
            }
            self.wait(part);
        }
        unreachable!()
    }

    /// Waits until no other worker seems to have a part, for a short time on its processor; after that it lets other threads run.
    fn wait(&self, part: usize)
        requires { part < self.now.table.shared.table_id.slots }
    {
        for _ in 0..SPINS {
            if self.table.shared.peek(part) == 0 {
                return;
            }
            spin_loop();
        }
        yield_now();
    }

    /// Gives a part back.
    fn give(&self, token: &mut Token<'b>, part: usize)
        requires part { part < self.now.table.shared.table_id.slots }
        requires has { HasPart self.now.table.shared.table_id self.now.table.shared.key part token.old }
        ensures { IsAt self.now.table.shared.table_id self.now.table.shared.key token.new }
    {
        self.table.shared.store::<Gives>(token, part, 0);
    }

    /// A node that dominates the walk's prefix, as the rule asks, if one is known; by a rule that names nodes of the same piece
    /// alone, none. The set is that of the prefix's numbers, and the mark the prefix's.
    pub(crate) fn find_name<R: Wait>(
        &self,
        rt: &R,
        token: &mut Token<'b>,
        alloc: Global,
        walk: &Walk<'_>,
        pushed: &Set,
        mark: &Mark,
        rule: Rule,
    ) -> Result<Option<Box<Name>>, AllocError>
        requires here { IsAt self.now.table.shared.table_id self.now.table.shared.key token.old }
        requires problem { self.now.table.shared.key.problem ≡ walk.now.problem }
        requires pushed { (m : ℕ) → has m (numbers_in pushed.now) ≡ has m walk.now.numbers }
        requires mark { IsMarkOf walk.now.problem walk.now.numbers mark.now }
        ensures here { IsAt self.now.table.shared.table_id self.now.table.shared.key token.new }
        ensures dominates { IfOk result (λ found. IfSome found
            (λ name. IsIncomplete walk.now.problem.block walk.now.numbers →
            DominatesByRule rule walk.now.problem name.value.numbers.items walk.now.numbers)) }
        ensures clamped { IfOk result (λ found. IfSome found (λ name. rule ≡ ClampedStanding)) }
    {
        if rule != Rule::ClampedStanding {
            return Ok(None);
        }
        let part = self.part_of(pushed.hash());
        self.take(rt, token, part);
        let held = token.slot_mut(&self.table.shared, part);
        let named = held.find_name(alloc, walk, pushed, mark, rule);
        self.give(token, part);
        named
    }

    /// Keeps an entry, which is this node.
    pub(crate) fn put<R: Wait>(
        &self,
        rt: &R,
        token: &mut Token<'b>,
        entry: MarkEntry,
        place: NodePlace,
        rule: Rule,
    )
        requires here { IsAt self.now.table.shared.table_id self.now.table.shared.key token.old }
        requires entry { IsEntry self.now.table.shared.key.problem entry }
        ensures { IsAt self.now.table.shared.table_id self.now.table.shared.key token.new }
    {
        let part = self.part_of(entry.hash());
        self.take(rt, token, part);
        let held = token.slot_mut(&self.table.shared, part);
        held.put(entry, place, rule);
        self.give(token, part);
    }

    /// Takes over what a table knows, which is empty afterwards; by a rule that names nodes of the same piece alone, nothing.
    pub(crate) fn take_in<R: Wait>(&self, rt: &R, grafted: &mut MarkTable<'_>, rule: Rule)
        requires { grafted.old.problem ≡ self.now.table.shared.key.problem }
        ensures { grafted.new.problem ≡ grafted.old.problem }
    {
        if rule != Rule::ClampedStanding {
            return;
        }
        let mut token = self.token();
        while let Some((entry, place)) = grafted.pop() {
            self.put(rt, &mut token, entry, place, rule);
        }
    }
}
