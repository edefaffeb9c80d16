//! How long one instruction waits for another at least, and how long it takes by itself, in minor cycles.

ghost use Rattle.std.specs.Prelude.{◌≡◌, if◌then◌else◌};
ghost use Rattle.s66_isa.specs.{greatest, some_of, Write as WriteOf, same_reg};
ghost use Rattle.s66_model.specs.{tail, uses, work_of, link};

use s66_isa::{
    Kind, Reg, Row, Write, has_register, is_memory_conflict, is_same_kind, is_same_register,
};

/// The greatest latency of these results.
fn greatest_latency(writes: &[Write]) -> u32
    ensures { result ≡ greatest (λ (w : WriteOf). w.latency) writes.now }
{
    let mut most = 0u32;
    for write in writes {
        most = most.max(write.latency);
    }
    most
}

/// The least time that an instruction takes, from its start until its unit is free and its results are done.
pub fn tail(row: &Row) -> u32
    ensures { result ≡ tail row.now }
{
    (row.hold + 1).max(greatest_latency(row.writes.as_slice()))
}

/// How many parcels an instruction has.
pub fn own_parcels(row: &Row) -> u32
    ensures { result ≡ row.now.parcels }
{
    row.parcels
}

/// For how long an instruction takes a unit of the kind.
pub(crate) fn work(row: &Row, kind: Kind) -> u32
    ensures { result ≡ work_of kind row.now }
{
    if is_same_kind(row.kind, kind) {
        row.hold + 1
    } else {
        0
    }
}

/// Whether one of these results is in the register.
fn is_written(writes: &[Write], register: Reg) -> bool
    ensures { result ≡ some_of (λ (w : WriteOf). same_reg w.reg register) writes.now }
{
    for write in writes {
        if is_same_register(write.reg, register) {
            return true;
        }
    }
    false
}

/// Whether the instruction reads or writes the register.
pub fn uses(row: &Row, register: Reg) -> bool
    ensures { result ≡ uses row.now register }
{
    has_register(row.reads.as_slice(), register) || is_written(row.writes.as_slice(), register)
}

/// The greatest latency of the results in registers that the later instruction uses.
fn greatest_used(writes: &[Write], later: &Row) -> u32
    ensures { result ≡ greatest (λ (w : WriteOf). if uses later.now w.reg then w.latency else 0) writes.now }
{
    let mut most = 0u32;
    for write in writes {
        if uses(later, write.reg) {
            most = most.max(write.latency);
        }
    }
    most
}

/// How long a later instruction waits from the start of this one, 0 if they have no link.
pub fn link(row: &Row, later: &Row) -> u32
    ensures { result ≡ link row.now later.now }
{
    let used = greatest_used(row.writes.as_slice(), later);
    if is_memory_conflict(row.memory, later.memory) {
        used.max(1)
    } else {
        used
    }
}
