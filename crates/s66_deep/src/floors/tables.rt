//! What the bound looks up: what follows each stage of each number, and the ranks of those that wait for each register, unit and
//! memory.

ghost use Rattle.std.specs.Prelude.{ℕ, ◌≤◌, length};
ghost use Rattle.s66_isa.specs.{BLOCK_LIMIT};
ghost use Rattle.s66_time.specs.{IsRanking, AreAtMost};
ghost use Rattle.s66_deep.specs.{TAIL_LIMIT, AreSmall, AreSmallWords, HasSmallWords, HasRanks};

use crate::classes::{Class, Role, those_of, users_of};
use crate::floors::tails::{Stage, Tails};
use s66_isa::{BLOCK_LIMIT, KIND_COUNT, KINDS, REGISTER_COUNT, Reg, Row, Set};
use s66_time::Ranking;

/// What the greatest paths of a block look up. Words are in minor cycles; that of n is at place n - 1.
#[derive(Drop)]
pub(crate) struct PathTables {
    /// All numbers of the block.
    pub(crate) all: Set,
    /// What follows the stages of each number.
    pub(crate) tails: [Tails; BLOCK_LIMIT],
    /// What follows the first result of each.
    pub(crate) first: [u32; BLOCK_LIMIT],
    /// What follows the second.
    pub(crate) second: [u32; BLOCK_LIMIT],
    /// The numbers by what follows the issue.
    pub(crate) by_issue: Ranking,
    /// The numbers by what follows the start.
    pub(crate) by_start: Ranking,
    /// The ranks by issue of the numbers of two parcels.
    pub(crate) long: Set,
    /// The ranks by issue of those that take a unit of each kind, by its number.
    pub(crate) takers: [Set; KIND_COUNT],
    /// The ranks by issue of those that write each register, by its index.
    pub(crate) writers: [Set; REGISTER_COUNT],
    /// The ranks by start of those that read each register.
    pub(crate) readers: [Set; REGISTER_COUNT],
    /// The ranks by start of the loads.
    pub(crate) loads: Set,
    /// The ranks by start of the stores.
    pub(crate) stores: Set,
    /// The numbers whose first result is in each register.
    pub(crate) firsts: [Set; REGISTER_COUNT],
    /// The numbers whose second result is in each register.
    pub(crate) seconds: [Set; REGISTER_COUNT],
}

impl PathTables {
    /// Of the rows of a block, and what follows.
    pub(crate) fn of(rows: &[Row], tails: &[Tails; BLOCK_LIMIT]) -> PathTables
        requires few { length rows.now ≤ BLOCK_LIMIT }
        requires small { AreSmall tails.now }
        ensures words { HasSmallWords result }
        ensures ranks { HasRanks (length rows.now) result }
    {
        let by_issue = ranking_by(tails, Stage::Issue, rows.len());
        let by_start = ranking_by(tails, Stage::Start, rows.len());
        PathTables {
            all: Set::up_to(rows.len()),
            tails: *tails,
            first: column(tails, Stage::First),
            second: column(tails, Stage::Second),
            long: class_ranks(rows, &by_issue, &Class::Long),
            takers: takers_of(rows, &by_issue),
            writers: user_ranks(rows, &by_issue, Role::Writes),
            readers: user_ranks(rows, &by_start, Role::Reads),
            loads: class_ranks(rows, &by_start, &Class::Loads),
            stores: class_ranks(rows, &by_start, &Class::Stores),
            firsts: users_of(rows, Role::WritesFirst),
            seconds: users_of(rows, Role::WritesSecond),
            by_issue,
            by_start,
        }
    }
}

/// What follows a stage of each number.
fn column(tails: &[Tails; BLOCK_LIMIT], stage: Stage) -> [u32; BLOCK_LIMIT]
    requires { AreSmall tails.now }
    ensures { AreSmallWords result }
{
    let mut words = [0; BLOCK_LIMIT];
    for place in 0..BLOCK_LIMIT {
        words[place] = tails[place].after(stage);
    }
    words
}

/// The numbers up to a count by what follows a stage of them.
fn ranking_by(tails: &[Tails; BLOCK_LIMIT], stage: Stage, count: usize) -> Ranking
    requires few { count ≤ BLOCK_LIMIT }
    requires small { AreSmall tails.now }
    ensures ranking { (word : ℕ → ℕ) × IsRanking word count result }
    ensures at_most { AreAtMost TAIL_LIMIT result }
{
    Ranking::of(&column(tails, stage), count)
}

/// The ranks of the numbers of a class.
fn class_ranks(rows: &[Row], ranking: &Ranking, class: &Class) -> Set
    requires few { length rows.now ≤ BLOCK_LIMIT }
    requires ranking { (word : ℕ → ℕ) × IsRanking word (length rows.now) ranking.now }
{
    ranking.ranks(&those_of(rows, class))
}

/// The ranks of those that have a role with each register, by its index.
fn user_ranks(rows: &[Row], ranking: &Ranking, role: Role) -> [Set; REGISTER_COUNT]
    requires few { length rows.now ≤ BLOCK_LIMIT }
    requires ranking { (word : ℕ → ℕ) × IsRanking word (length rows.now) ranking.now }
{
    let mut ranks = [Set::empty(); REGISTER_COUNT];
    for index in 0..REGISTER_COUNT {
        let class = Class::Uses(role, Reg::of_index(index as u8));
        ranks[index] = class_ranks(rows, ranking, &class);
    }
    ranks
}

/// The ranks of those that take a unit of each kind, by its number.
fn takers_of(rows: &[Row], ranking: &Ranking) -> [Set; KIND_COUNT]
    requires few { length rows.now ≤ BLOCK_LIMIT }
    requires ranking { (word : ℕ → ℕ) × IsRanking word (length rows.now) ranking.now }
{
    let mut ranks = [Set::empty(); KIND_COUNT];
    for index in 0..KIND_COUNT {
        ranks[index] = class_ranks(rows, ranking, &Class::Takes(KINDS[index]));
    }
    ranks
}
