//! Names that mean the same address as a label of code, by `EQU` and the like.

use crate::deck::Deck;
use crate::line::{Line, Term, number_of, terms_of};
use crate::names::names::{Code, Names};
use std::alloc::{AllocError, Global};

/// How often names of names are looked for, which may stand in any order.
const PASSES: u32 = 3;

/// The address that a sum of a label of code and at most one number is.
fn address_of<'a>(names: &Names<'a>, terms: &[Term<'a>], program: usize) -> Option<(Code, i64)> {
    let mut base: Option<(&'a [u8], Code)> = None;
    for term in terms {
        if term.is_subtracted {
            continue;
        }
        if let Some(code) = names.code_of(term.bytes, program) {
            if base.is_some() {
                return None;
            }
            base = Some((term.bytes, code));
        }
    }
    let (name, code) = base?;
    Some((code, number_beside(terms, name)?))
}

/// The number beside a name in a sum; 0 if there is nothing else.
fn number_beside(terms: &[Term], name: &[u8]) -> Option<i64> {
    let mut number = None;
    for term in terms {
        if term.bytes == name {
            continue;
        }
        if number.is_some() {
            return None;
        }
        number = Some(term.signed(number_of(term.bytes)?));
    }
    Some(number.unwrap_or(0))
}

/// Whether the line at this index may give its name the address of another.
fn may_rename(deck: &Deck, at: usize, line: &Line) -> bool {
    line.renames() && !line.name().is_empty() && !deck.before(at).in_definition
}

/// Gives each name that is the name of a label of code that label's address.
pub(crate) fn rename<'a>(
    alloc: Global,
    deck: &Deck<'a>,
    names: &mut Names<'a>,
) -> Result<(), AllocError> {
    let mut renaming = Vec::new(alloc);
    for (at, line) in deck.lines().iter().enumerate() {
        if may_rename(deck, at, line) && names.may_rename(line.name()) {
            renaming.push(at)?;
        }
    }
    for _ in 0..PASSES {
        for at in renaming.as_slice() {
            if let Some(line) = deck.line(Some(*at)) {
                rename_one(alloc, names, deck.before(*at).program, line)?;
            }
        }
    }
    Ok(())
}

fn rename_one<'a>(
    alloc: Global,
    names: &mut Names<'a>,
    program: usize,
    line: &Line<'a>,
) -> Result<(), AllocError> {
    if !names.may_rename(line.name()) {
        return Ok(());
    }
    let terms = terms_of(alloc, line.fields.operand)?;
    if let Some((code, words)) = address_of(names, terms.as_slice(), program) {
        names.rename(line.name(), program, &code, words);
    }
    Ok(())
}
