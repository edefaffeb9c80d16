//! Instructions by what they wait for.
//! These are the registers that they read or write, the units that they take, and memory.

ghost use Rattle.std.specs.Prelude.{◌≤◌, length};
ghost use Rattle.s66_isa.specs.{BLOCK_LIMIT};
ghost use Rattle.s66_time.specs.{AreUpTo};

use s66_isa::{
    Kind, Memory, REGISTER_COUNT, Reg, Row, Set, Write, has_register, is_same_kind,
    is_same_register,
};

/// What an instruction does with a register.
#[derive(Clone, Copy)]
pub(crate) enum Role {
    Writes,
    Reads,
    /// Its first result is in it.
    WritesFirst,
    /// Its second result is in it.
    WritesSecond,
}

/// Instructions that wait for one word of a clock.
#[derive(Clone, Copy)]
pub(crate) enum Class {
    /// Those of two parcels, for their slot.
    Long,
    /// For a unit of a kind.
    Takes(Kind),
    /// For earlier stores.
    Loads,
    /// For all earlier references to memory.
    Stores,
    /// For the results in a register, or its readers.
    Uses(Role, Reg),
}

/// Whether one of the results is in the register.
pub(crate) fn is_written(writes: &[Write], register: Reg) -> bool {
    for write in writes {
        if is_same_register(write.reg, register) {
            return true;
        }
    }
    false
}

/// Whether the first result is in the register.
fn is_first(writes: &[Write], register: Reg) -> bool {
    if writes.is_empty() {
        return false;
    }
    let first = writes[0];
    is_same_register(first.reg, register)
}

/// Whether the second result is in the register.
fn is_second(writes: &[Write], register: Reg) -> bool {
    if writes.len() < 2 {
        return false;
    }
    let second = writes[1];
    is_same_register(second.reg, register)
}

/// Whether an instruction has a role with a register.
fn uses(row: &Row, role: Role, register: Reg) -> bool {
    match role {
        Role::Writes => is_written(row.writes.as_slice(), register),
        Role::Reads => has_register(row.reads.as_slice(), register),
        Role::WritesFirst => is_first(row.writes.as_slice(), register),
        Role::WritesSecond => is_second(row.writes.as_slice(), register),
    }
}

/// Whether an instruction is in a class.
fn is_in(row: &Row, class: &Class) -> bool {
    match *class {
        Class::Long => row.parcels == 2,
        Class::Takes(kind) => is_same_kind(row.kind, kind),
        Class::Loads => is_load(row.memory),
        Class::Stores => is_store(row.memory),
        Class::Uses(role, register) => uses(row, role, register),
    }
}

/// Whether it fetches from memory.
fn is_load(memory: Memory) -> bool {
    match memory {
        Memory::None | Memory::Store => false,
        Memory::Load => true,
    }
}

/// Whether it stores.
fn is_store(memory: Memory) -> bool {
    match memory {
        Memory::None | Memory::Load => false,
        Memory::Store => true,
    }
}

/// The numbers of a class.
pub(crate) fn those_of(rows: &[Row], class: &Class) -> Set
    requires { length rows.now ≤ BLOCK_LIMIT }
    ensures { AreUpTo (length rows.now) result }
{
    let mut those = Set::empty();
    for place in 0..rows.len() {
        if is_in(&rows[place], class) {
            those = those.with((place + 1) as u8);
        }
    }
    those
}

/// The numbers that have a role with each register, by its index.
pub(crate) fn users_of(rows: &[Row], role: Role) -> [Set; REGISTER_COUNT]
    requires { length rows.now ≤ BLOCK_LIMIT }
{
    let mut users = [Set::empty(); REGISTER_COUNT];
    for index in 0..REGISTER_COUNT {
        users[index] = those_of(rows, &Class::Uses(role, Reg::of_index(index as u8)));
    }
    users
}
