//! Timed orders as pictures, and why their instructions wait: what each waits for, and which waits the time of its order comes from.
//! Begin at `chart.rt` for charts, and at `specs/Why.antt` and `text.rt` for waits.
//!
//! It promises that charts and texts are those of the definitions to the byte; laws say that what an instruction waits for forbids it
//! to come sooner (`cause_law`), and that a path is one (`path_law`).
#![tactic(auto)]

mod activity;
mod cause;
mod chart;
mod examples;
mod hazard;
mod holders;
mod laws;
mod lost;
mod path;
mod placed;
mod places;
mod points;
mod reservation;
mod row;
mod stretch;
mod text;
mod units;
mod units_chart;
mod waits;
mod work;

pub use cause::{Cause, Holder};
pub use chart::{push_chart, push_text_chart};
pub use examples::{
    cause_examples, chart_examples, equal_cause_examples, hazard_examples, path_example,
    text_chart_example, text_example, units_chart_example,
};
pub use hazard::{Access, Hazard, Place, push_hazards, push_hazards_text};
pub use laws::{cause_law, hazard_law, path_law};
pub use lost::Lost;
pub use path::{Step, path_of, steps_of};
pub use placed::PlacedInstr;
pub use places::{push_blanks, push_in_places, text_width};
pub use points::points_of;
pub use reservation::{Reservation, register_reservations};
pub use stretch::{Conflict, Stretch};
pub use text::{
    bank_name, conflict_name, push_in_three, push_on_right, push_register_name, push_why,
};
pub use units::{left, taken, works_of_kind};
pub use units_chart::push_units_chart;
pub use waits::waits_of;
pub use work::{Work, works_of};
