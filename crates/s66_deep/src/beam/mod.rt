//! A good order of a block, by beam search: of the beginnings of each length only the most promising are kept.
//! A search that may miss the best order, in time linear in its width (P. S. Ow and T. E. Morton, Filtered beam search in scheduling,
//! International Journal of Production Research 26, 1988). Begin at `search.rt`.

mod child;
mod depth;
mod merit;
mod search;

pub use search::beam_below;
