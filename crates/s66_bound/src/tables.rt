//! What the bounds look up: for each number its longest tail and its rank, for each register the ranks of its users, for each kind of
//! unit its work.

ghost use Rattle.std.specs.Prelude.{◌≡◌, ◌+◌, ◌≤◌, ◌<◌, ◌==◌, true, length};
ghost use Rattle.s66_isa.specs.{REGISTER_COUNT, some_of, index_of, same_reg, Write as WriteOf, BLOCK_LIMIT};
ghost use Rattle.s66_model.specs.{Problem, row_at, uses, spare, HasWords, HasWritten};
ghost use Rattle.s66_bound.specs.{AreCosts, Cost as CostOf, IsRanking, AreThose, AreRegisters, HasSingles, HasWorks, HasUsers, IsTables};

use crate::cost::Cost;
use crate::longest::longest_tails;
use crate::numbers::ends_of;
use arrayvec::ArrayVec;
use s66_isa::{
    BLOCK_LIMIT, KIND_COUNT, Profile, REGISTER_COUNT, Reg, Set, Write, is_same_register,
    kind_number,
};
use s66_time::Ranking;

/// What bounds look up of the numbers of a block; the word of n is at place n - 1. Times are in minor cycles.
#[derive(Drop)]
pub(crate) struct Tables {
    /// All numbers of the block.
    pub(crate) all: Set,
    /// The numbers of two parcels: what remains has as many parcels as numbers, and one more for each of these.
    pub(crate) long: Set,
    /// The longest tail of each number along the links to later ones.
    pub(crate) longest: [u32; BLOCK_LIMIT],
    /// By how much its own tail is longer than its parcels.
    pub(crate) spare: [u32; BLOCK_LIMIT],
    /// The numbers by longest tail: rank 1 has the greatest.
    pub(crate) by_tail: Ranking,
    /// The numbers of the least spare.
    pub(crate) ends: Set,
    /// Of each kind, by its number, for how long the instructions take a unit, summed: each for its hold and one.
    pub(crate) works: [u32; KIND_COUNT],
    /// Whether the profile has one unit of each kind of which the standard machine has one.
    pub(crate) has_singles: bool,
    /// The ranks of the numbers that read or write each register, by its index.
    pub users_by_rank: [Set; REGISTER_COUNT],
    /// The registers that the block writes, each once.
    pub(crate) written: ArrayVec<Reg, REGISTER_COUNT>,
}

impl Tables {
    /// The tables of a block of these costs under a profile.
    pub(crate) fn of(costs: &[Cost], profile: &Profile) -> Tables
        requires few { length costs.now ≤ BLOCK_LIMIT }
        requires known { (b : Problem) × AreCosts b costs.now }
        ensures { (b : Problem) → b.profile ≡ profile.now → AreCosts b costs.now → IsTables b result }
    {
        let longest = longest_tails(costs);
        let spare = spares(costs);
        let by_tail = Ranking::of(&longest, costs.len());
        Tables {
            all: Set::up_to(costs.len()),
            long: long_numbers(costs),
            ends: ends_of(&spare, costs.len()),
            users_by_rank: users_by_rank(costs, &by_tail),
            longest,
            spare,
            by_tail,
            works: works_by_kind(costs),
            has_singles: has_singles(profile),
            written: written_registers(costs),
        }
    }
}

/// The numbers of two parcels.
fn long_numbers(costs: &[Cost]) -> Set
    requires few { length costs.now ≤ BLOCK_LIMIT }
    ensures { (b : Problem) → AreCosts b costs.now → AreThose b (λ n. (row_at b n).parcels == 2) result }
{
    let mut long = Set::empty();
    for place in 0..costs.len() {
        if costs[place].parcels == 2 {
            long = long.with((place + 1) as u8);
        }
    }
    long
}

/// By how much each tail is longer than the parcels.
fn spares(costs: &[Cost]) -> [u32; BLOCK_LIMIT]
    requires few { length costs.now ≤ BLOCK_LIMIT }
    ensures { (b : Problem) → AreCosts b costs.now → HasWords b (spare b) result }
{
    let mut spares = [0; BLOCK_LIMIT];
    for place in 0..costs.len() {
        spares[place] = costs[place].tail.saturating_sub(costs[place].parcels);
    }
    spares
}

/// Of each kind, by its number, for how long the instructions take a unit, summed.
fn works_by_kind(costs: &[Cost]) -> [u32; KIND_COUNT]
    requires few { length costs.now ≤ BLOCK_LIMIT }
    requires known { (b : Problem) × AreCosts b costs.now }
    ensures { (b : Problem) → AreCosts b costs.now → HasWorks b result }
{
    let mut works = [0; KIND_COUNT];
    for place in 0..costs.len() {
        let kind = kind_number(costs[place].kind);
        works[kind] += costs[place].work;
    }
    works
}

/// Whether the profile has one unit of each kind of which the standard machine has one.
fn has_singles(profile: &Profile) -> bool
    ensures { result ≡ true → HasSingles profile.now }
{
    profile.units_boolean == 1
        && profile.units_shift == 1
        && profile.units_add == 1
        && profile.units_longadd == 1
        && profile.units_divide == 1
}

/// The numbers that read or write a register.
fn users_of(costs: &[Cost], register: Reg) -> Set
    requires few { length costs.now ≤ BLOCK_LIMIT }
    ensures { (b : Problem) → AreCosts b costs.now → AreThose b (λ n. uses (row_at b n) register) result }
{
    let mut users = Set::empty();
    for place in 0..costs.len() {
        if costs[place].used.has(register) {
            users = users.with((place + 1) as u8);
        }
    }
    users
}

/// The register of an index.
fn register_at(index: usize) -> Reg
    requires { index < REGISTER_COUNT }
    ensures value { index_of result ≡ index }
    ensures digit { result.digit ≤ 7 }
{
    Reg::of_index(index as u8)
}

/// The ranks of the numbers that read or write each register, by its index.
fn users_by_rank(costs: &[Cost], ranking: &Ranking) -> [Set; REGISTER_COUNT]
    requires few { length costs.now ≤ BLOCK_LIMIT }
    requires known { (b : Problem) × AreCosts b costs.now × IsRanking b ranking.now }
    ensures { (b : Problem) → AreCosts b costs.now → IsRanking b ranking.now → HasUsers b result }
{
    let mut users = [Set::empty(); REGISTER_COUNT];
    for index in 0..REGISTER_COUNT {
        users[index] = ranking.ranks(&users_of(costs, register_at(index)));
    }
    users
}

/// Whether some instruction writes the register.
fn is_written(costs: &[Cost], register: Reg) -> bool
    ensures { result ≡
        some_of (λ (e : CostOf). some_of (λ (w : WriteOf). same_reg w.reg register) e.writes.items) costs.now }
{
    for cost in costs {
        if writes_register(cost.writes.as_slice(), register) {
            return true;
        }
    }
    false
}

/// Whether one of these results is the register's.
fn writes_register(writes: &[Write], register: Reg) -> bool
    ensures { result ≡ some_of (λ (w : WriteOf). same_reg w.reg register) writes.now }
{
    for write in writes {
        if is_same_register(write.reg, register) {
            return true;
        }
    }
    false
}

/// The registers that are written, each once.
fn written_registers(costs: &[Cost]) -> ArrayVec<Reg, REGISTER_COUNT>
    ensures written { (b : Problem) → AreCosts b costs.now → HasWritten b result.items }
    ensures registers { AreRegisters result.items }
{
    let mut written = ArrayVec::new();
    for index in 0..REGISTER_COUNT {
        let register = register_at(index);
        if is_written(costs, register) {
            written.push(register);
        }
    }
    written
}
