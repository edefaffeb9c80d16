//! All lines of a source, and what each is by those around it. Begin at `lines.rt`, which reads them, then `deck.rt`, which goes over
//! them: from the first on (`before.rt`), from the last on (`after.rt`), by words (`joining.rt`) and by runs (`runs.rt`).

mod after;
mod before;
mod bodies;
mod changing;
mod code_word;
mod cover_reach;
mod deck;
mod joining;
mod lines;
mod runs;

pub(crate) use changing::{Changing, RunRange};
pub(crate) use deck::Deck;
pub(crate) use lines::Lines;
