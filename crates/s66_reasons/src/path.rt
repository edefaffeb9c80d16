//! The rows of a longest path to the end by what is known after fact lines, arc by arc.

ghost use Rattle.std.specs.Prelude.{◌≡◌, ◌++◌, OnOk};
ghost use Rattle.s66_moments.specs.{Done};
ghost use Rattle.s66_cert.specs.{document_of};
ghost use Rattle.s66_reasons.specs.{at_end_words, by_words, free_unit_words, line_name, parcels_words, reached_words, third_words, listed};

use crate::chain::{push_end_words, push_link_words};
use crate::hop::Hop;
use crate::known_paths::KnownPaths;
use crate::words::{
    push_around, push_counted, push_instruction, push_number, separator, unit_name,
};
use s66_cert::Document;
use s66_device::push_between;
use s66_isa::{Kind, Reg};
use s66_moments::{Moment, Stage};
use s66_why::push_register_name;
use std::alloc::AllocError;

/// Fact lines, one after the other.
fn push_lines(out: &mut Vec<u8>, numbers: &[usize]) -> Result<(), AllocError>
    ensures { OnOk result (out.new.items ≡ out.old.items ++ listed line_name numbers.now) }
{
    for place in 0..numbers.len() {
        push_between(out, b"", numbers[place], b".")?;
        out.extend_from_slice(separator(numbers.len() - 1 - place))?;
    }
    Ok(())
}

/// By which fact lines, if by some.
pub(crate) fn push_by(out: &mut Vec<u8>, numbers: &[usize]) -> Result<(), AllocError>
    ensures { OnOk result (out.new.items ≡ out.old.items ++ by_words numbers.now) }
{
    if numbers.is_empty() {
        return Ok(());
    }
    out.extend_from_slice(b" (by ")?;
    push_lines(out, numbers)?;
    out.extend_from_slice(b")")
}

/// That n issues after so many parcels of m.
fn push_parcels_words(
    out: &mut Vec<u8>,
    document: &Document,
    parcels: u32,
    m: u8,
    n: u8,
) -> Result<(), AllocError>
    ensures { OnOk result (out.new.items ≡ out.old.items ++ parcels_words (document_of document.now) parcels m n) }
{
    push_instruction(out, document, n)?;
    out.extend_from_slice(b" can issue, ")?;
    push_counted(out, parcels as usize, b"parcel")?;
    out.extend_from_slice(b" after ")?;
    push_instruction(out, document, m)
}

/// That n waits for the unit of m, which is of this kind.
fn push_unit_words(
    out: &mut Vec<u8>,
    document: &Document,
    kind: Kind,
    m: u8,
    n: u8,
) -> Result<(), AllocError>
    ensures { OnOk result (out.new.items ≡ out.old.items ++ free_unit_words (document_of document.now) kind m n) }
{
    out.extend_from_slice(b"the ")?;
    out.extend_from_slice(unit_name(kind))?;
    out.extend_from_slice(b" unit of ")?;
    push_instruction(out, document, m)?;
    out.extend_from_slice(b" is free, which ")?;
    push_instruction(out, document, n)?;
    out.extend_from_slice(b" needs")
}

/// That the result of n in a register waits for m to read this.
fn push_read_words(
    out: &mut Vec<u8>,
    document: &Document,
    m: u8,
    n: u8,
    register: Reg,
) -> Result<(), AllocError>
    ensures { OnOk result (out.new.items ≡ out.old.items ++
        third_words (document_of document.now) m n (Done register)) }
{
    push_around(out, b"", document, m, b" has read ")?;
    push_register_name(out, register)?;
    push_around(out, b", so that of ", document, n, b" can be there")
}

/// What is last of n.
fn push_at_end_words(
    out: &mut Vec<u8>,
    document: &Document,
    n: u8,
    stage: &Stage,
) -> Result<(), AllocError>
    ensures { OnOk result (out.new.items ≡ out.old.items ++ at_end_words (document_of document.now) n stage.now) }
{
    let last = match stage {
        Stage::Done(register) => Some(*register),
        Stage::Issue | Stage::Start | Stage::Free => None,
    };
    push_end_words(out, document, n, last)
}

/// What a load comes before.
fn push_reached(out: &mut Vec<u8>, moment: &Moment) -> Result<(), AllocError>
    ensures { OnOk result (out.new.items ≡ out.old.items ++ reached_words moment.now) }
{
    match moment {
        Moment::At(n, Stage::Issue) => push_between(out, b"", *n as usize, b" issues"),
        Moment::At(n, Stage::Start) => push_between(out, b"", *n as usize, b" starts"),
        Moment::At(_, Stage::Done(_) | Stage::Free) | Moment::Origin => Ok(()),
        Moment::End => out.extend_from_slice(b"the end"),
    }
}

impl<'a> KnownPaths<'a> {
    ghost use Rattle.std.specs.Prelude.{◌≡◌, ◌≤◌, ◌^◌, ◌++◌, OnOk};
    ghost use Rattle.s66_moments.specs.{At, Issue, IsNumber};
    ghost use Rattle.s66_cert.specs.{document_of};
    ghost use Rattle.s66_checker.specs.{problem_of};
    ghost use Rattle.s66_reasons.specs.{at_end_words, by_words, hop_rows, hops_from, hops_of, later_words, longest_load_row, pairs_of, path_rows, table_rows, IsNumberOf, row_text, rows_text};

    /// What n waits for of m, a stage of which comes before a stage of n.
    fn push_later_words(
        &self,
        out: &mut Vec<u8>,
        m: u8,
        from: &Stage,
        n: u8,
        to: &Stage,
    ) -> Result<(), AllocError>
        requires m { IsNumber (problem_of (document_of self.now)) m }
        requires n { IsNumber (problem_of (document_of self.now)) n }
        ensures { OnOk result (out.new.items ≡ out.old.items ++
            later_words (document_of self.now) m n from.now to.now) }
    {
        let document = self.document;
        let earlier = self.prefix.row(m);
        let later = self.prefix.row(n);
        match from {
            Stage::Issue => push_parcels_words(out, document, earlier.parcels, m, n),
            Stage::Start => match to {
                Stage::Done(register) => push_read_words(out, document, m, n, *register),
                Stage::Issue | Stage::Start | Stage::Free => {
                    push_link_words(out, document, later, m, n, None)
                }
            },
            Stage::Done(register) => push_link_words(out, document, later, m, n, Some(*register)),
            Stage::Free => push_unit_words(out, document, earlier.kind, m, n),
        }
    }

    /// The row of an arc of the table between instructions, which leads there in this minor cycle.
    fn push_later_row(
        &self,
        out: &mut Vec<u8>,
        number: usize,
        m: u8,
        from: &Stage,
        n: u8,
        to: &Stage,
    ) -> Result<(), AllocError>
        requires m { IsNumber (problem_of (document_of self.now)) m }
        requires n { IsNumber (problem_of (document_of self.now)) n }
        ensures { OnOk result (out.new.items ≡ out.old.items ++
            row_text
            (record { number = number; words = later_words (document_of self.now) m n from.now to.now ++ by_words (pairs_of (document_of self.now) m n) })) }
    {
        push_number(out, number)?;
        self.push_later_words(out, m, from, n, to)?;
        push_by(out, self.pairs_of(m, n).as_slice())?;
        out.extend_from_slice(b"\n")
    }

    /// The row of an arc of the table to the end.
    fn push_end_row(
        &self,
        out: &mut Vec<u8>,
        number: usize,
        m: u8,
        stage: &Stage,
    ) -> Result<(), AllocError>
        ensures { OnOk result (out.new.items ≡ out.old.items ++
            row_text (record { number = number; words = at_end_words (document_of self.now) m stage.now })) }
    {
        push_number(out, number)?;
        push_at_end_words(out, self.document, m, stage)?;
        out.extend_from_slice(b"\n")
    }

    /// The row of an arc of the table; none if it is between moments of one instruction.
    fn push_table_rows(
        &self,
        out: &mut Vec<u8>,
        number: usize,
        from: &Moment,
        to: &Moment,
    ) -> Result<(), AllocError>
        requires from { IsNumberOf (problem_of (document_of self.now)) from.now }
        requires to { IsNumberOf (problem_of (document_of self.now)) to.now }
        ensures { OnOk result (out.new.items ≡ out.old.items ++
            rows_text (table_rows (document_of self.now) number from.now to.now)) }
    {
        let Moment::At(m, earlier) = from else {
            return Ok(());
        };
        match to {
            Moment::Origin => Ok(()),
            Moment::At(n, _) if m == n => Ok(()),
            Moment::At(n, later) => self.push_later_row(out, number, *m, earlier, *n, later),
            Moment::End => self.push_end_row(out, number, *m, earlier),
        }
    }

    /// The row of an arc of a load.
    fn push_load_row(
        &self,
        out: &mut Vec<u8>,
        number: usize,
        from: &Moment,
        hop: &Hop,
    ) -> Result<(), AllocError>
        ensures { OnOk result (out.new.items ≡ out.old.items ++
            row_text (longest_load_row (document_of self.now) number from.now hop.now)) }
    {
        push_number(out, number)?;
        push_reached(out, &hop.to)?;
        push_between(out, b", by ", self.line_of_load(from, hop), b".")?;
        out.extend_from_slice(b"\n")
    }

    /// The rows of an arc from a moment, which leads to its other one in this minor cycle.
    fn push_hop(
        &self,
        out: &mut Vec<u8>,
        number: usize,
        from: &Moment,
        hop: &Hop,
    ) -> Result<(), AllocError>
        ensures { OnOk result (out.new.items ≡ out.old.items ++
            rows_text (hop_rows (document_of self.now) number from.now hop.now)) }
    {
        if self.is_of_table(from, hop) {
            self.push_table_rows(out, number, from, &hop.to)
        } else {
            self.push_load_row(out, number, from, hop)
        }
    }

    /// The rows of at most so many arcs from a moment on, than which the end comes `left` minor cycles later.
    fn push_hops(
        &self,
        out: &mut Vec<u8>,
        most: usize,
        mut left: u64,
        mut from: Moment,
    ) -> Result<(), AllocError>
        requires few { most ≤ 2 ^ 16 }
        ensures { OnOk result (out.new.items ≡ out.old.items ++
            rows_text (path_rows (document_of self.now) 0 from (hops_from (document_of self.now) most left from))) }
    {
        let mut number = 0;
        for step in 0..most {
            let Some(hop) = self.next_hop(left, &from) else {
                return Ok(());
            };
            number += hop.wait as usize;
            self.push_hop(out, number, &from, &hop)?;
            left = left.saturating_sub(hop.wait as u64);
            from = hop.to;
        }
        Ok(())
    }

    /// The rows of a longest path from the issue of n to the end.
    pub(crate) fn push_longest(&self, out: &mut Vec<u8>, n: u8) -> Result<(), AllocError>
        requires { IsNumber (problem_of (document_of self.now)) n }
        ensures { OnOk result (out.new.items ≡ out.old.items ++
            rows_text (path_rows (document_of self.now) 0 (At n Issue) (hops_of (document_of self.now) n))) }
    {
        let left = self.by_lines.tail(n).issue.unwrap_or(0);
        let most = 4 * self.prefix.count() as usize + 1;
        self.push_hops(out, most, left, Moment::At(n, Stage::Issue))
    }
}
