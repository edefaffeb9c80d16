//! The finding that the address of code is taken into a register and used with another term, and what it harms.

use crate::harm::Tracker;
use crate::layout::Extent;
use crate::line::{Kind, Line, Registers, Term, ends_program, has_other_term, terms_of};
use crate::names::Code;
use crate::rules::loads_stores::has_register;
use crate::rules::rules::Rules;
use std::alloc::AllocError;

/// What a statement does with registers that hold the address of code.
enum AddressUse {
    /// It is the address of other code, or of data, then.
    WithAnother,
    /// These registers hold one after it.
    Held(Registers),
}

/// The register that a set instruction sets which may hold an address, if it is one.
fn set_address(operation: &[u8]) -> Option<Registers> {
    match operation {
        [b'S', b'B', digit] => Some(Registers::one(b'B', *digit)),
        [b'S', b'X', digit] => Some(Registers::one(b'X', *digit)),
        _ => None,
    }
}

/// The X register that an instruction sets, but for `SX`: a load or what computes.
fn set_word(operation: &[u8]) -> Option<Registers> {
    match operation {
        [b'S', b'A', digit] if *digit >= b'1' && *digit <= b'5' => {
            Some(Registers::one(b'X', *digit))
        }
        [b'S', ..] => None,
        [_, b'X', digit] => Some(Registers::one(b'X', *digit)),
        _ => None,
    }
}

/// What a statement does with the registers that hold an address; a jump by one alone uses it if other registers are in it too.
fn use_of(line: &Line, held: Registers, has_index: bool) -> AddressUse {
    let operand = line.fields.operand;
    let reads = Registers::in_operand(operand).meets(&held);
    let has_other = has_other_term(operand);
    let jumps = line.operation() == b"JP".as_slice() && (has_other || has_index);
    let touches = matches!(line.operation(), [b'S', b'A', b'1'..=b'7']);
    if reads && (jumps || touches) {
        return AddressUse::WithAnother;
    }
    if !matches!(line.kind, Kind::Instruction) || line.is_long {
        return AddressUse::Held(held);
    }
    if let Some(set) = set_address(line.operation()) {
        if !reads {
            return AddressUse::Held(held.without(&set));
        }
        if has_other {
            return AddressUse::WithAnother;
        }
        return AddressUse::Held(held.with(&set));
    }
    match set_word(line.operation()) {
        Some(set) if !reads => AddressUse::Held(held.without(&set)),
        _ => AddressUse::Held(held),
    }
}

impl<'a> Rules<'a> {
    /// Harms the code whose address the line at this index takes into a register, if it is then used with another term.
    pub(crate) fn harm_taken(
        &self,
        tracker: &mut Tracker,
        at: usize,
        line: &Line<'a>,
    ) -> Result<(), AllocError> {
        let before = self.deck.before(at);
        let Some(set) = set_address(line.operation()) else {
            return Ok(());
        };
        if before.in_definition {
            return Ok(());
        }
        let terms = terms_of(self.alloc, line.fields.operand)?;
        let has_index = has_register(terms.as_slice());
        if terms.len() != 1 && !has_index {
            return Ok(());
        }
        let Some(code) = self.only_code(terms.as_slice(), before.program) else {
            return Ok(());
        };
        if self.is_used(at, set, has_index) {
            self.harm_code(tracker, &code, &Extent::Around)?;
        }
        Ok(())
    }

    /// The only label of code among these terms.
    fn only_code(&self, terms: &[Term<'a>], program: usize) -> Option<Code> {
        let mut only = None;
        for term in terms {
            let code = self.names.code_of(term.bytes, program);
            if code.is_some() {
                if only.is_some() {
                    return None;
                }
                only = code;
            }
        }
        only
    }

    /// Whether the address in a register that the line at this index sets is used with another term.
    fn is_used(&self, at: usize, set: Registers, has_index: bool) -> bool {
        let mut held = set;
        for place in self.places_behind(at) {
            let Some(line) = self.deck.statement(place) else {
                return false;
            };
            if held.is_empty() || ends_program(line.operation()) {
                return false;
            }
            match use_of(line, held, has_index) {
                AddressUse::WithAnother => return true,
                AddressUse::Held(after) => held = after,
            }
        }
        false
    }
}
