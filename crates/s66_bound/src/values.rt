//! The value of each bound by the tables of the clock's block: chain, loads and parcels, and the greatest of them. All are in minor
//! cycles.

ghost use Rattle.std.specs.Prelude.{◌≡◌, ◌+◌, ◌-◌, ◌<◌, ◌≤◌, ◌^◌, true, length, max, get_or};
ghost use Rattle.s66_isa.specs.{greatest, least, all_kinds, copies_of, numbers_in};
ghost use Rattle.s66_model.specs.{row_at, IsBeginning, sum_remaining, work_of, over, chain, load, parcels, floor_value, tail_remaining, chain_by};
ghost use Rattle.s66_line.specs.{instrs_of};
ghost use Rattle.s66_time.specs.{COPIES_LIMIT, TOTAL_LIMIT, problem_of};
ghost use Rattle.s66_bound.specs.{AreRanksLeft, AreRemaining, HasSingles, IsTables};

use crate::numbers::least_of;
use crate::tables::Tables;
use s66_isa::{Kind, Reg, Set, kind_number};
use s66_time::Clock;

/// The numbers that aren't pushed.
pub(crate) fn remaining_numbers(tables: &Tables, clock: &Clock<'_>) -> Set
    requires { IsTables (problem_of clock.now) tables.now }
    ensures { AreRemaining clock.now result }
{
    tables.all.without(&clock.pushed())
}

/// The ranks of the numbers that remain: a step for each of them.
fn remaining_ranks(tables: &Tables, clock: &Clock<'_>, rest: &Set) -> Set
    requires tables { IsTables (problem_of clock.now) tables.now }
    requires rest { AreRemaining clock.now rest.now }
    ensures { AreRanksLeft (problem_of clock.now) clock.now.numbers result }
{
    tables.by_tail.ranks(rest)
}

/// The greatest of the longest tails of the numbers that remain.
fn greatest_tail(tables: &Tables, clock: &Clock<'_>, ranks: &Set) -> u32
    requires tables { IsTables (problem_of clock.now) tables.now }
    requires ranks { AreRanksLeft (problem_of clock.now) clock.now.numbers ranks.now }
    ensures { result ≡ tail_remaining (problem_of clock.now) clock.now.numbers }
{
    match tables.by_tail.greatest(ranks) {
        Some(tail) => tail,
        None => 0,
    }
}

/// The greatest chain that starts when the register is done; 0 if no number that remains reads or writes it.
fn chain_by(tables: &Tables, clock: &Clock<'_>, ranks: &Set, register: Reg) -> u32
    requires tables { IsTables (problem_of clock.now) tables.now }
    requires begins { IsBeginning (instrs_of clock.now.block) clock.now.numbers }
    requires ranks { AreRanksLeft (problem_of clock.now) clock.now.numbers ranks.now }
    requires some { length clock.now.numbers < length (instrs_of clock.now.block) }
    ensures { result ≡ chain_by (problem_of clock.now) clock.now.numbers register }
{
    let users = ranks.both(&tables.users_by_rank[register.index() as usize]);
    match tables.by_tail.greatest(&users) {
        Some(tail) => clock.done_of(register) + tail,
        None => 0,
    }
}

/// A value, or the greatest value of a chain if that is greater. A chain starts in the next slot, or when a register is done that
/// is late. Only the registers are looked at that are so late that they can make a greater one.
fn least_or_chain(tables: &Tables, clock: &Clock<'_>, ranks: &Set, least: u32) -> u32
    requires tables { IsTables (problem_of clock.now) tables.now }
    requires begins { IsBeginning (instrs_of clock.now.block) clock.now.numbers }
    requires ranks { AreRanksLeft (problem_of clock.now) clock.now.numbers ranks.now }
    requires some { length clock.now.numbers < length (instrs_of clock.now.block) }
    ensures { result ≡ max least (chain (problem_of clock.now) clock.now.numbers) }
{
    let tail = greatest_tail(tables, clock, ranks);
    let mut most = least.max(clock.next() + tail);
    let mut late = clock.late(most - tail);
    while let Some(register) = late.pop_first() {
        most = most.max(chain_by(tables, clock, ranks, register));
    }
    most
}

/// The greatest value of a chain.
pub(crate) fn chain_of(tables: &Tables, clock: &Clock<'_>, rest: &Set) -> u32
    requires tables { IsTables (problem_of clock.now) tables.now }
    requires rest { AreRemaining clock.now rest.now }
    requires some { length clock.now.numbers < length (instrs_of clock.now.block) }
    ensures { result ≡ chain (problem_of clock.now) clock.now.numbers }
{
    least_or_chain(tables, clock, &remaining_ranks(tables, clock, rest), 0)
}

/// The work that remains for a kind of unit.
fn remaining_work(tables: &Tables, clock: &Clock<'_>, kind: Kind) -> u32
    requires { IsTables (problem_of clock.now) tables.now }
    ensures value { result ≡ sum_remaining (instrs_of clock.now.block) clock.now.numbers
        (λ n. work_of kind (row_at (problem_of clock.now) n)) }
    ensures at_most { result ≤ TOTAL_LIMIT }
{
    tables.works[kind_number(kind)] - clock.worked(kind)
}

/// How long `copies` units work, if the work is divided among them: rounded up.
fn over(work: u32, copies: u32) -> u32
    requires copies { (1 ≤ copies) × (copies ≤ COPIES_LIMIT) }
    requires work { work + COPIES_LIMIT < 2 ^ 32 }
    ensures value { result ≡ over work copies }
    ensures at_most { result ≤ work + COPIES_LIMIT }
{
    (work + (copies - 1)) / copies
}

/// The load of a kind with one unit, also if nothing remains.
#[inline(always)]
fn single_load(tables: &Tables, clock: &Clock<'_>, kind: Kind) -> u32
    requires tables { IsTables (problem_of clock.now) tables.now }
    requires single { copies_of clock.now.profile kind ≡ 1 }
    ensures { result ≡ load (problem_of clock.now) clock.now.numbers kind }
{
    remaining_work(tables, clock, kind) + clock.free(kind)
}

/// The load of a kind of unit, also if nothing remains.
pub(crate) fn load_of(tables: &Tables, clock: &Clock<'_>, kind: Kind) -> u32
    requires { IsTables (problem_of clock.now) tables.now }
    ensures { result ≡ load (problem_of clock.now) clock.now.numbers kind }
{
    let copies = clock.profile().copies(kind);
    // the standard machine has one or two units of a kind, for which this is neither a loop nor a division
    if copies == 1 {
        return single_load(tables, clock, kind);
    }
    let work = remaining_work(tables, clock, kind);
    if copies == 2 {
        return over(work + clock.busy(kind), 2) + clock.next();
    }
    over(work + clock.busy(kind), copies) + clock.next()
}

/// The load of a kind, which is known to have one unit if `single` says so.
#[inline(always)]
fn load_by(tables: &Tables, clock: &Clock<'_>, kind: Kind, single: bool) -> u32
    requires tables { IsTables (problem_of clock.now) tables.now }
    requires single { single ≡ true → copies_of clock.now.profile kind ≡ 1 }
    ensures { result ≡ load (problem_of clock.now) clock.now.numbers kind }
{
    if single {
        single_load(tables, clock, kind)
    } else {
        load_of(tables, clock, kind)
    }
}

/// The least spare of the numbers that remain. Mostly one of the block's least remains.
fn least_spare(tables: &Tables, clock: &Clock<'_>, rest: &Set) -> u32
    requires tables { IsTables (problem_of clock.now) tables.now }
    requires rest { AreRemaining clock.now rest.now }
    requires some { 0 < length (numbers_in rest.now) }
    ensures { result ≡ least (λ n. get_or tables.now.spare (n - 1) 0) (numbers_in rest.now) }
{
    let mut ends = rest.both(&tables.ends);
    match ends.pop_first() {
        Some(number) => tables.spare[number as usize - 1],
        None => least_of(&tables.spare, rest),
    }
}

/// The parcels that remain, and the least that a last number's tail is longer than its own.
pub(crate) fn parcels_of(tables: &Tables, clock: &Clock<'_>, rest: &Set) -> u32
    requires tables { IsTables (problem_of clock.now) tables.now }
    requires rest { AreRemaining clock.now rest.now }
    requires some { length clock.now.numbers < length (instrs_of clock.now.block) }
    ensures { result ≡ parcels (problem_of clock.now) clock.now.numbers }
{
    let parcels = rest.count() + rest.both(&tables.long).count();
    clock.next() + parcels + least_spare(tables, clock, rest)
}

/// The greatest load, if `singles` says whether the kinds of which the standard machine has one unit are known to have one.
#[inline(always)]
fn greatest_load_by(tables: &Tables, clock: &Clock<'_>, singles: bool) -> u32
    requires tables { IsTables (problem_of clock.now) tables.now }
    requires singles { singles ≡ true → HasSingles clock.now.profile }
    ensures { result ≡ greatest (load (problem_of clock.now) clock.now.numbers) all_kinds }
{
    let increment = load_of(tables, clock, Kind::Increment);
    let divide = load_by(tables, clock, Kind::Divide, singles).max(increment);
    let multiply = load_of(tables, clock, Kind::Multiply).max(divide);
    let long_add = load_by(tables, clock, Kind::LongAdd, singles).max(multiply);
    let add = load_by(tables, clock, Kind::Add, singles).max(long_add);
    let shift = load_by(tables, clock, Kind::Shift, singles).max(add);
    load_by(tables, clock, Kind::Boolean, singles).max(shift)
}

/// The greatest load. The loads of single units are worked out without a look at how many there are.
pub(crate) fn greatest_load(tables: &Tables, clock: &Clock<'_>) -> u32
    requires { IsTables (problem_of clock.now) tables.now }
    ensures { result ≡ greatest (load (problem_of clock.now) clock.now.numbers) all_kinds }
{
    // the constants leave one branch of each load in either call
    if tables.has_singles {
        greatest_load_by(tables, clock, true)
    } else {
        greatest_load_by(tables, clock, false)
    }
}

/// The greatest of the chain, the loads and the parcels; `ranks` are those of what remains.
pub(crate) fn floor_value_of(tables: &Tables, clock: &Clock<'_>, rest: &Set, ranks: &Set) -> u32
    requires tables { IsTables (problem_of clock.now) tables.now }
    requires rest { AreRemaining clock.now rest.now }
    requires ranks { AreRanksLeft (problem_of clock.now) clock.now.numbers ranks.now }
    requires some { length clock.now.numbers < length (instrs_of clock.now.block) }
    ensures { result ≡ floor_value (problem_of clock.now) clock.now.numbers }
{
    let loads = greatest_load(tables, clock);
    let parcels = parcels_of(tables, clock, rest);
    least_or_chain(tables, clock, ranks, loads.max(parcels))
}
