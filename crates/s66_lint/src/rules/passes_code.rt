//! The macros of a source, and calls that pass the address of code to a macro that counts words from it.

use crate::deck::Deck;
use crate::harm::Tracker;
use crate::layout::Extent;
use crate::line::{Line, begins_definition, ends_sum, is_comma, terms_of};
use crate::names::{Code, Names};
use crate::rules::rules::Rules;
use std::alloc::{AllocError, Global};
use std::collections::BTreeMap;

/// In the body of how many macros a line is looked at, so that the time doesn't grow with their nesting.
const NEST_LIMIT: usize = 3;

/// A set of parameters, by their places.
#[derive(Clone, Copy)]
struct Parameters([u64; 4]);

impl Parameters {
    fn none() -> Parameters {
        Parameters([0; 4])
    }

    fn put(&mut self, place: usize) {
        if let Some(word) = self.0.get_mut(place / 64) {
            *word |= 1u64 << (place % 64);
        }
    }

    fn has(&self, place: usize) -> bool {
        let word = self.0.get(place / 64).copied().unwrap_or(0);
        (word >> (place % 64)) & 1 != 0
    }

    fn with(&self, other: &Parameters) -> Parameters {
        let mut both = *self;
        for (word, more) in both.0.iter_mut().zip(other.0.iter()) {
            *word |= *more;
        }
        both
    }

    /// Whether another parameter than that at this place is in both.
    fn shares_other(&self, other: &Parameters, place: usize) -> bool {
        for at in 0..256 {
            if at != place && self.has(at) && other.has(at) {
                return true;
            }
        }
        false
    }
}

/// A parameter of a macro, and what stands in sums with it.
#[derive(Clone, Copy)]
struct Parameter<'a> {
    name: &'a [u8],
    /// A term that is no parameter.
    has_term: bool,
    parameters: Parameters,
}

/// A macro: the lines of its body, by index, and its parameters once a call asks for them.
#[derive(Drop)]
struct Macro<'a> {
    first: usize,
    end: usize,
    is_read: bool,
    /// In its body so many definitions nest that it isn't read.
    is_deep: bool,
    parameters: Vec<Parameter<'a>>,
}

/// The macros of a source.
#[derive(Drop)]
pub(crate) struct Macros<'a> {
    ids: BTreeMap<&'a [u8], usize>,
    macros: Vec<Macro<'a>>,
}

/// The text before the first equals sign, and that after it.
fn around_equals(text: &[u8]) -> (&[u8], &[u8]) {
    match text.iter().position(|byte| *byte == b'=') {
        Some(at) => (
            text.get(..at).unwrap_or(&[]),
            text.get(at.saturating_add(1)..).unwrap_or(&[]),
        ),
        None => (text, &[]),
    }
}

fn is_parenthesis(byte: u8) -> bool {
    byte == b'(' || byte == b')'
}

/// An argument without the parentheses around it.
fn without_parentheses(text: &[u8]) -> &[u8] {
    let first = text.iter().position(|byte| !is_parenthesis(*byte));
    let last = text.iter().rposition(|byte| !is_parenthesis(*byte));
    match (first, last) {
        (Some(first), Some(last)) => text.get(first..last.saturating_add(1)).unwrap_or(&[]),
        _ => &[],
    }
}

/// The place of the first parameter with this name.
fn place_in(parameters: &[Parameter], name: &[u8]) -> Option<usize> {
    parameters
        .iter()
        .position(|parameter| parameter.name == name)
}

/// The name of the macro that a line begins, if it does.
fn macro_name<'a>(line: &Line<'a>) -> Option<&'a [u8]> {
    if !matches!(line.operation(), b"MACRO" | b"MACROE") {
        return None;
    }
    if !line.fields.location.is_empty() {
        return Some(line.fields.location);
    }
    line.fields.operand.split(is_comma).next()
}

/// The parameters that the line of a macro names, before its body is read; that of a deep one isn't, and a term may stand with each.
fn parameters_of<'a>(
    alloc: Global,
    line: &Line<'a>,
    is_deep: bool,
) -> Result<Vec<Parameter<'a>>, AllocError> {
    let mut parameters = Vec::new(alloc);
    let mut is_name = line.fields.location.is_empty();
    for text in line.fields.operand.split(is_comma) {
        if !is_name {
            parameters.push(Parameter {
                name: around_equals(text).0,
                has_term: is_deep,
                parameters: Parameters::none(),
            })?;
        }
        is_name = false;
    }
    Ok(parameters)
}

impl<'a> Macros<'a> {
    pub(crate) fn of(
        alloc: Global,
        deck: &Deck<'a>,
        names: &Names<'a>,
    ) -> Result<Macros<'a>, AllocError> {
        let mut macros = Macros {
            ids: BTreeMap::new(alloc),
            macros: Vec::new(alloc),
        };
        macros.take_definitions(alloc, deck)?;
        if macros.ids.is_empty() {
            return Ok(macros);
        }
        for (at, line) in deck.lines().iter().enumerate() {
            if passes_code(deck, names, at, line) {
                macros.read(alloc, deck, line)?;
            }
        }
        Ok(macros)
    }

    fn take_definitions(&mut self, alloc: Global, deck: &Deck<'a>) -> Result<(), AllocError> {
        let mut open: Vec<Option<usize>> = Vec::new(alloc);
        let end = deck.lines().len();
        for (at, line) in deck.lines().iter().enumerate() {
            if begins_definition(line.operation()) {
                self.mark_deep(open.as_slice());
                let id = self.begin(alloc, at, end, line)?;
                open.push(id)?;
            } else if line.operation() == b"ENDM".as_slice() {
                if let Some(Some(id)) = open.pop() {
                    self.end(id, at);
                }
            }
        }
        Ok(())
    }

    /// Marks the macro in which one more definition is as many deep as there may be; those around it have been marked.
    fn mark_deep(&mut self, open: &[Option<usize>]) {
        let Some(place) = open.len().checked_sub(NEST_LIMIT) else {
            return;
        };
        if let Some(Some(id)) = open.get(place) {
            if let Some(known) = self.macros.get_mut(*id) {
                known.is_deep = true;
            }
        }
    }

    /// The number of the macro that a line begins, if it does. If no line ends it, all but the last is of it.
    fn begin(
        &mut self,
        alloc: Global,
        at: usize,
        end: usize,
        line: &Line<'a>,
    ) -> Result<Option<usize>, AllocError> {
        let Some(name) = macro_name(line) else {
            return Ok(None);
        };
        let id = self.macros.len();
        self.macros.push(Macro {
            first: at,
            end: end.saturating_sub(1),
            is_read: false,
            is_deep: false,
            parameters: Vec::new(alloc),
        })?;
        let _before = self.ids.insert(name, id)?;
        Ok(Some(id))
    }

    fn end(&mut self, id: usize, at: usize) {
        if let Some(known) = self.macros.get_mut(id) {
            known.end = at;
        }
    }

    /// Reads the body of the macro that a line calls.
    fn read(&mut self, alloc: Global, deck: &Deck<'a>, line: &Line<'a>) -> Result<(), AllocError> {
        let Some(id) = self.ids.get(&line.operation()) else {
            return Ok(());
        };
        let Some(called) = self.macros.get_mut(*id) else {
            return Ok(());
        };
        if called.is_read {
            return Ok(());
        }
        called.is_read = true;
        let lines = deck.lines();
        let Some(definition) = lines.get(called.first) else {
            return Ok(());
        };
        called.parameters = parameters_of(alloc, definition, called.is_deep)?;
        if called.is_deep {
            return Ok(());
        }
        let body = lines.get(called.first.saturating_add(1)..called.end);
        for line in body.unwrap_or(&[]) {
            if !line.is_comment() {
                called.read_operand(alloc, line.fields.operand)?;
            }
        }
        Ok(())
    }

    fn called_by(&self, line: &Line<'a>) -> Option<&Macro<'a>> {
        self.macros.get(*self.ids.get(&line.operation())?)
    }
}

/// Whether a line may be the call of a macro with a label of code as argument.
fn passes_code<'a>(deck: &Deck<'a>, names: &Names<'a>, at: usize, line: &Line<'a>) -> bool {
    let before = deck.before(at);
    if before.in_definition || !line.may_call() {
        return false;
    }
    for argument in line.fields.operand.split(is_comma) {
        let (_, value) = around_equals(argument);
        if names
            .code_of(without_parentheses(argument), before.program)
            .is_some()
            || names
                .code_of(without_parentheses(value), before.program)
                .is_some()
        {
            return true;
        }
    }
    false
}

impl<'a> Macro<'a> {
    /// Reads an operand of the body.
    fn read_operand(&mut self, alloc: Global, operand: &[u8]) -> Result<(), AllocError> {
        for sum in operand.split(ends_sum) {
            let terms = terms_of(alloc, sum)?;
            let mut has_term = false;
            let mut parameters = Parameters::none();
            for term in terms.as_slice() {
                match place_in(self.parameters.as_slice(), term.bytes) {
                    Some(place) => parameters.put(place),
                    None => has_term = true,
                }
            }
            self.put_sum(has_term, &parameters);
        }
        Ok(())
    }

    fn put_sum(&mut self, has_term: bool, parameters: &Parameters) {
        for (place, parameter) in self.parameters.iter_mut().enumerate() {
            if parameters.has(place) {
                parameter.has_term = parameter.has_term || has_term;
                parameter.parameters = parameter.parameters.with(parameters);
            }
        }
    }

    /// The parameters for which a call has an argument.
    fn given(&self, operand: &[u8]) -> Parameters {
        let known = self.parameters.as_slice();
        let mut given = Parameters::none();
        for (at, argument) in operand.split(is_comma).enumerate() {
            if let Some(parameter) = known.get(at) {
                if !argument.is_empty() {
                    given.put(place_in(known, parameter.name).unwrap_or(at));
                }
            }
            let (name, value) = around_equals(argument);
            if !value.is_empty() {
                if let Some(place) = place_in(known, name) {
                    given.put(place);
                }
            }
        }
        given
    }

    /// The place of the parameter that an argument at a place is for, and the argument.
    fn argument<'t>(&self, at: usize, text: &'t [u8]) -> Option<(usize, &'t [u8])> {
        let known = self.parameters.as_slice();
        let (name, value) = around_equals(text);
        if !value.is_empty() {
            if let Some(place) = place_in(known, name) {
                return Some((place, value));
            }
        }
        let place = place_in(known, known.get(at)?.name)?;
        Some((place, text))
    }

    /// Whether the parameter at a place stands in a sum with another term, which the call has too.
    fn is_in_sum(&self, place: usize, given: &Parameters) -> bool {
        self.parameters.get(place).is_some_and(|parameter| {
            !parameter.name.is_empty()
                && (parameter.has_term || parameter.parameters.shares_other(given, place))
        })
    }
}

impl<'a> Rules<'a> {
    /// Harms the code whose address the line at this index passes to a macro that counts words from it.
    pub(crate) fn harm_passed(
        &self,
        tracker: &mut Tracker,
        at: usize,
        line: &Line<'a>,
    ) -> Result<(), AllocError> {
        let before = self.deck.before(at);
        if before.in_definition || !line.may_call() {
            return Ok(());
        }
        let Some(called) = self.macros.called_by(line) else {
            return Ok(());
        };
        let given = called.given(line.fields.operand);
        for (n, text) in line.fields.operand.split(is_comma).enumerate() {
            let Some((place, argument)) = called.argument(n, text) else {
                continue;
            };
            let code = self
                .names
                .code_of(without_parentheses(argument), before.program);
            if let Some(code) = code {
                self.harm_argument(tracker, called, place, &given, &code)?;
            }
        }
        Ok(())
    }

    fn harm_argument(
        &self,
        tracker: &mut Tracker,
        called: &Macro<'a>,
        place: usize,
        given: &Parameters,
        code: &Code,
    ) -> Result<(), AllocError> {
        if called.is_in_sum(place, given) {
            self.harm_code(tracker, code, &Extent::Around)?;
        }
        Ok(())
    }
}
