//! The names of units, registers, memory and conflicts in JSON.

ghost use Rattle.std.specs.Prelude.{◌≡◌, ◌++◌, ◌∷◌, OnOk};
ghost use Rattle.json.specs.Print.{escape};
ghost use Rattle.s66_why.specs.{bank_name};
ghost use Rattle.s66_views.specs.{conflict_text, memory_text, json_register_text, truth_text, unit_text};

use crate::json_lines::text::push_text;
use s66_isa::{Bank, Kind, Memory, Reg};
use s66_why::Conflict;
use std::alloc::AllocError;

/// A truth value.
pub(crate) fn truth(value: bool) -> &'static [u8]
    ensures { result.now ≡ truth_text value }
{
    if value { b"true" } else { b"false" }
}

/// The unit of a kind.
#[tactic(auto, unfolding(crate::specs::Pieces::unit_text, serde_json::proofs::OnLiterals::serde_json_on_literals))]
pub(crate) fn unit(kind: Kind) -> &'static [u8]
    ensures { result.now ≡ unit_text kind }
{
    match kind {
        Kind::Boolean => b"\"boolean\"",
        Kind::Shift => b"\"shift\"",
        Kind::Add => b"\"add\"",
        Kind::LongAdd => b"\"longadd\"",
        Kind::Multiply => b"\"multiply\"",
        Kind::Divide => b"\"divide\"",
        Kind::Increment => b"\"increment\"",
    }
}

/// Whether an instruction loads or stores.
#[tactic(auto, unfolding(crate::specs::Pieces::memory_text, serde_json::proofs::OnLiterals::serde_json_on_literals))]
pub(crate) fn memory(memory: Memory) -> &'static [u8]
    ensures { result.now ≡ memory_text memory }
{
    match memory {
        Memory::None => b"null",
        Memory::Load => b"\"load\"",
        Memory::Store => b"\"store\"",
    }
}

/// The order of a conflict.
#[tactic(auto, unfolding(crate::specs::Pieces::conflict_text, serde_json::proofs::OnLiterals::serde_json_on_literals))]
pub(crate) fn conflict(conflict: Conflict) -> &'static [u8]
    ensures { result.now ≡ conflict_text conflict }
{
    match conflict {
        Conflict::First => b"\"first\"",
        Conflict::Second => b"\"second\"",
        Conflict::Third => b"\"third\"",
    }
}

/// The letter of a bank, after a quote.
#[tactic(auto, unfolding(serde_json::proofs::OnLiterals::serde_json_on_literals))]
fn quoted_bank(bank: Bank) -> &'static [u8]
    ensures { result.now ≡ 34 ∷ escape (bank_name bank) }
{
    match bank {
        Bank::A => b"\"A",
        Bank::B => b"\"B",
        Bank::X => b"\"X",
    }
}

/// A register.
#[tactic(auto, unfolding(crate::specs::Pieces::json_register_text, json::specs::Print::escape_byte))]
pub(crate) fn push_register(out: &mut Vec<u8>, register: Reg) -> Result<(), AllocError>
    ensures { OnOk result (out.new.items ≡ out.old.items ++ json_register_text register) }
{
    push_text(out, quoted_bank(register.bank()))?;
    push_text(out, &[b'0' + register.digit(), b'"'])
}
