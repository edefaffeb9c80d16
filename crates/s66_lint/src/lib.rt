//! What may be wrong with the lines of a source: what `lint` lists, which lines `--cut` leaves alone, and where `guard` puts switches.
//! Findings are advice: of what is listed only the form is stated, of `guard` what it does to a source. Begin at `rules/rules.rt`, which
//! says what is found in a line, then `findings.rt`; for `guard`, at `guard/guard.rt`.
//!
//! A line by itself is in `line/`, all lines in `deck/`, how they fill words in `layout/`, what names mean in `names/`; what is found is in
//! `rules/`, what that harms in `harm/`, and what keeps it from harm in `guard/`.
#![tactic(auto)]

mod deck;
mod finding;
mod findings;
mod guard;
mod harm;
mod laws;
mod layout;
mod line;
mod listing;
mod names;
mod rules;

pub use finding::{Finding, FindingRule};
pub use findings::{Listed, findings_in};
pub use guard::{
    Guarded, guard_kept_law, guard_text, guarded_examples, guarded_law, unguarded_law,
};
pub use laws::{switched_examples, switched_law};
