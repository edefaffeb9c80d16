//! Which statements lie within so many words of one, before or after it, where the sizes of the statements are known.

use crate::line::Line;
use std::alloc::{AllocError, Global};

/// How many parcels a word has.
const PARCELS: usize = 4;

/// What a statement puts into words.
#[derive(Clone, Copy)]
enum Content {
    /// Code, another branch, or the entry of a subroutine.
    Code { parcels: usize },
    /// Data of one word.
    Word,
    /// Other data, which may stand in line with code.
    Part,
    Nothing,
    /// What isn't known.
    Unknown,
}

impl Content {
    fn of(line: &Line) -> Content {
        if line.has_words() {
            Content::Code {
                parcels: line.parcels(),
            }
        } else if line.is_data_word() {
            Content::Word
        } else if line.is_data_part() {
            Content::Part
        } else if line.is_wordless() {
            Content::Nothing
        } else {
            Content::Unknown
        }
    }

    fn parcels(&self) -> usize {
        match self {
            Content::Code { parcels } => *parcels,
            Content::Word => PARCELS,
            Content::Part => 2,
            Content::Nothing | Content::Unknown => 0,
        }
    }

    fn is_word(&self) -> bool {
        matches!(self, Content::Word)
    }

    fn is_nothing(&self) -> bool {
        matches!(self, Content::Nothing)
    }

    fn is_unknown(&self) -> bool {
        matches!(self, Content::Unknown)
    }

    /// Whether words are counted from it on.
    fn is_counted_from(&self) -> bool {
        !matches!(self, Content::Part | Content::Unknown)
    }
}

/// A statement, by itself.
#[derive(Clone, Copy)]
struct StatementForm {
    content: Content,
    /// Its location field forces a word.
    begins: bool,
    /// A word begins behind it.
    halts: bool,
    /// It has a name, and makes a word.
    is_named: bool,
    /// It is code, or makes no word; and no entry of a subroutine.
    is_run: bool,
}

impl StatementForm {
    fn of(line: &Line) -> StatementForm {
        let content = Content::of(line);
        let is_entry = crate::line::is_entry(line.operation());
        StatementForm {
            content,
            begins: line.begins_word(),
            halts: line.halts(),
            is_named: !line.name().is_empty() && !content.is_nothing(),
            is_run: !is_entry && matches!(content, Content::Code { .. } | Content::Nothing),
        }
    }

    fn is_code(&self) -> bool {
        matches!(self.content, Content::Code { .. })
    }

    /// Whether code runs through it.
    fn is_passed(&self) -> bool {
        self.is_code() && !self.halts || self.content.is_nothing()
    }

    /// Whether it is the last one on the way forward to a name.
    fn ends_way(&self) -> bool {
        self.is_named || self.content.is_unknown()
    }
}

/// A statement, by itself and by those before it, which are named by their places.
#[derive(Clone, Copy)]
struct Statement {
    form: StatementForm,
    /// The index of its line.
    line: usize,
    /// How many parcels come before it, by the sizes of the statements.
    parcels: usize,
    /// The same, up to the word that begins with it, if one does.
    start: usize,
    /// The last statement from it back with which a word begins.
    word: usize,
    /// The first one from which on all have a known size.
    begin: usize,
    /// The first one on the way back to a name, by whether it begins a word.
    to_name: usize,
    to_name_in_word: usize,
    /// The first one from which code runs into it.
    fall: usize,
}

fn whole_words(parcels: usize) -> usize {
    parcels.div_ceil(PARCELS).saturating_mul(PARCELS)
}

impl Statement {
    fn first(form: StatementForm, line: usize) -> Statement {
        Statement {
            form,
            line,
            parcels: 0,
            start: 0,
            word: 0,
            begin: 0,
            to_name: 0,
            to_name_in_word: 0,
            fall: 0,
        }
    }

    /// The one at this place, directly behind.
    fn then(&self, at: usize, form: StatementForm, line: usize) -> Statement {
        let parcels = self.start.saturating_add(self.form.content.parcels());
        let is_word = form.begins || self.form.halts || form.content.is_word();
        let is_known = !self.form.content.is_unknown();
        Statement {
            form,
            line,
            parcels,
            start: if is_word {
                whole_words(parcels)
            } else {
                parcels
            },
            word: if is_word { at } else { self.word },
            begin: if is_known { self.begin } else { at },
            to_name: self.way_back(at, false),
            to_name_in_word: self.way_back(at, true),
            fall: if self.form.is_passed() { self.fall } else { at },
        }
    }

    /// Where the way back to a name ends that begins at the next place; by whether that is within a word.
    fn way_back(&self, next: usize, in_word: bool) -> usize {
        let form = &self.form;
        if form.content.is_unknown() || form.halts && !in_word {
            next
        } else if form.is_named {
            next.saturating_sub(1)
        } else if in_word && !form.halts && !form.begins {
            self.to_name_in_word
        } else {
            self.to_name
        }
    }
}

/// What is known of a statement by those from it on.
#[derive(Clone, Copy)]
struct Ahead {
    /// The next one with which a word begins.
    word: usize,
    /// The first one from it on whose size isn't known.
    end: usize,
    /// The first one from it on with a name, or whose size isn't known.
    name: usize,
    /// The first one from it on that is neither code nor makes no word.
    stop: usize,
}

impl Ahead {
    /// Of the place behind the last statement.
    fn at_end(end: usize) -> Ahead {
        Ahead {
            word: end,
            end,
            name: end,
            stop: end,
        }
    }

    /// Of the statement at this place, directly before, by whether the one here begins a word.
    fn before(&self, at: usize, form: &StatementForm, begins_word: bool) -> Ahead {
        Ahead {
            word: if begins_word {
                at.saturating_add(1)
            } else {
                self.word
            },
            end: if form.content.is_unknown() {
                at
            } else {
                self.end
            },
            name: if form.ends_way() { at } else { self.name },
            stop: if form.is_run { self.stop } else { at },
        }
    }
}

/// Statements one after another, from the first to before the end.
#[derive(Clone, Copy, Default)]
pub(crate) struct Span {
    pub(crate) first: usize,
    pub(crate) end: usize,
}

impl Span {
    /// From a place on to before an end, if there is one.
    fn up_to(first: usize, end: Option<usize>) -> Span {
        end.map(|end| Span { first, end }).unwrap_or_default()
    }

    pub(crate) fn is_empty(&self) -> bool {
        self.first >= self.end
    }
}

/// The statements of a source, and which of them stand in so many words before or after one. A place is that of a statement among
/// all.
#[derive(Drop)]
pub(crate) struct Layout {
    statements: Vec<Statement>,
    ahead: Vec<Ahead>,
    /// How many statements come before each line.
    places: Vec<usize>,
}

impl Layout {
    pub(crate) fn of(alloc: Global, lines: &[Line]) -> Result<Layout, AllocError> {
        let mut layout = Layout {
            statements: Vec::new(alloc),
            ahead: Vec::new(alloc),
            places: Vec::new(alloc),
        };
        for (at, line) in lines.iter().enumerate() {
            layout.take(at, line)?;
        }
        layout.look_ahead()?;
        Ok(layout)
    }

    fn take(&mut self, at: usize, line: &Line) -> Result<(), AllocError> {
        let place = self.statements.len();
        self.places.push(place)?;
        if line.is_statement() {
            let form = StatementForm::of(line);
            let statement = match self.statements.as_slice().last() {
                Some(last) => last.then(place, form, at),
                None => Statement::first(form, at),
            };
            self.statements.push(statement)?;
        }
        Ok(())
    }

    fn look_ahead(&mut self) -> Result<(), AllocError> {
        let mut at = self.statements.len();
        let mut ahead = Ahead::at_end(at);
        let mut begins_word = false;
        for statement in self.statements.iter().rev() {
            at = at.saturating_sub(1);
            ahead = ahead.before(at, &statement.form, begins_word);
            begins_word = statement.word == at;
            self.ahead.push(ahead)?;
        }
        self.ahead.reverse();
        Ok(())
    }

    /// How many statements there are.
    pub(crate) fn count(&self) -> usize {
        self.statements.len()
    }

    /// The place of the statement in the line at this index, or of the next.
    pub(crate) fn place_of(&self, line: usize) -> usize {
        self.places
            .get(line)
            .copied()
            .unwrap_or(self.statements.len())
    }

    /// The index of the line of the statement at a place.
    pub(crate) fn line_of(&self, place: usize) -> Option<usize> {
        Some(self.statements.get(place)?.line)
    }

    /// Whether the statement at a place has words.
    pub(crate) fn has_words(&self, place: usize) -> bool {
        let statement = self.statements.get(place);
        statement.is_some_and(|statement| statement.form.is_code())
    }

    /// The first place from which on as many parcels come before a statement.
    fn first_from(&self, parcels: usize) -> usize {
        self.statements
            .as_slice()
            .partition_point(|statement| statement.start < parcels)
    }

    /// What may stand in so many words from that of a statement on.
    pub(crate) fn forward(&self, place: usize, words: usize) -> Span {
        let parcels = words.min(self.count()).saturating_mul(PARCELS);
        Span::up_to(place, self.end_of_words(place, parcels))
    }

    fn end_of_words(&self, place: usize, parcels: usize) -> Option<usize> {
        let statement = self.statements.get(place)?;
        let ahead = self.ahead.get(place)?;
        if parcels == 0 || !statement.form.content.is_counted_from() {
            return None;
        }
        let end = self.first_from(statement.start.saturating_add(parcels));
        if end < ahead.word {
            return Some(end.min(ahead.end));
        }
        Some(
            self.end_behind_word(ahead.word, statement.start, parcels)
                .min(ahead.end),
        )
    }

    /// Where the parcels end that are counted from a start within the word before this place.
    fn end_behind_word(&self, place: usize, start: usize, parcels: usize) -> usize {
        let Some(statement) = self.statements.get(place) else {
            return place;
        };
        let passed = whole_words(statement.parcels.saturating_sub(start));
        if passed >= parcels {
            return place;
        }
        let left = parcels.saturating_sub(passed);
        self.first_from(statement.start.saturating_add(left))
    }

    /// What stands from a statement on before the next with a name.
    pub(crate) fn forward_to_name(&self, place: usize) -> Span {
        Span::up_to(place, self.end_at_name(place))
    }

    fn end_at_name(&self, place: usize) -> Option<usize> {
        if !self.statements.get(place)?.form.content.is_counted_from() {
            return None;
        }
        let next = place.saturating_add(1);
        Some(self.ahead.get(next).map_or(next, |ahead| ahead.name))
    }

    /// What stands before a statement, back to where a word begins, so many words at least before that of the statement.
    pub(crate) fn back(&self, place: usize, words: usize) -> Span {
        match self.statements.get(place) {
            Some(statement) => Span {
                first: self.begin_of_words(statement, words).max(statement.begin),
                end: place,
            },
            None => Span::default(),
        }
    }

    fn begin_of_words(&self, statement: &Statement, words: usize) -> usize {
        let Some(word) = self.statements.get(statement.word) else {
            return 0;
        };
        let parcels = words.min(self.count()).saturating_mul(PARCELS);
        let passed = statement.start.saturating_sub(word.start) / PARCELS * PARCELS;
        if passed >= parcels {
            return statement.word;
        }
        let left = parcels.saturating_sub(passed);
        if word.start < left {
            return 0;
        }
        self.last_word_up_to(word.start.saturating_sub(left))
    }

    /// The last place at which a word begins and no more than so many parcels come before.
    fn last_word_up_to(&self, parcels: usize) -> usize {
        let behind = self.first_from(parcels.saturating_add(1));
        match self.statements.get(behind.saturating_sub(1)) {
            Some(statement) => statement.word,
            None => 0,
        }
    }

    /// What stands before a statement, back to one with a name, or to where a word begins behind a halt.
    pub(crate) fn back_to_name(&self, place: usize) -> Span {
        let Some(statement) = self.statements.get(place) else {
            return Span::default();
        };
        let first = if statement.form.begins {
            statement.to_name
        } else {
            statement.to_name_in_word
        };
        Span { first, end: place }
    }

    /// What code runs through into the statement at this place.
    pub(crate) fn falling_into(&self, place: usize) -> Span {
        let statement = self.statements.get(place);
        let first = statement.map_or(place, |statement| statement.fall);
        Span { first, end: place }
    }

    /// What has words, or makes none, from a statement on.
    pub(crate) fn stretch(&self, place: usize) -> Span {
        let ahead = self.ahead.get(place);
        Span::up_to(place, ahead.map(|ahead| ahead.stop))
    }
}
