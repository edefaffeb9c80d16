//! How much is tried, and how great what is found may be.

/// The most minor cycles by which the end comes later than a moment.
pub(crate) const TAIL_LIMIT: u32 = 1_000_000_000;

/// The longest wait of a load line, and the latest first use, in minor cycles.
pub(crate) const WAIT_LIMIT: u32 = 65_535;

/// How often at most load lines are looked for in all places.
pub(crate) const ROUNDS_LIMIT: u8 = 6;

/// How often at most pairs are looked for, before load lines are again.
pub(crate) const PASSES_LIMIT: u8 = 16;

/// How many lines are taken in, some more than once, to find out which are needed.
pub(crate) const TAKES_LIMIT: u32 = 2_000;

/// How often at most it is tried to drop lines of a supposition that is to be printed.
pub(crate) const TRIALS_LIMIT: u32 = 1_000;

/// A pair is supposed only if some path then comes so near to the bound, in minor cycles.
pub(crate) const NEAR: u32 = 10;

/// In how many rounds at most pairs are supposed, and what follows from one is found.
pub(crate) const FOLLOWED_LIMIT: usize = 64;

/// How many pairs are supposed at most, as a share of the splits: it takes about as long as so many. Where one is refuted, each trial to
/// drop some of its lines counts too.
pub(crate) const SPLITS_A_SUPPOSITION: u32 = 16;

/// How many beginnings of a length a beam keeps.
pub(crate) const BEAM_WIDTH: usize = 64;

/// The same of the first beams, one after the other.
pub(crate) const FIRST_WIDTHS: [usize; 3] = [2, 16, BEAM_WIDTH];

/// The same of one that is tried where the others left something to be found.
pub(crate) const WIDE_WIDTH: usize = 512;

/// The same of one that is tried where some splits ended no search either.
pub(crate) const WIDEST_WIDTH: usize = 2048;

/// How often a beam goes on by the lines for a better time.
pub(crate) const BEAMS_LIMIT: u32 = 4;

/// How often the middle of a bound and a time is tried at most.
pub(crate) const HALVES_LIMIT: u32 = 8;

/// By how many minor cycles a bound is raised at most.
pub(crate) const RAISES_LIMIT: u32 = 128;

/// How many splits a search of a long block has at least, so that wide beams and the middles of bounds are tried beside it: they take as
/// long as so many, and decide hardly a block that fewer splits don't.
pub(crate) const WIDE_SPLITS: u32 = 8_192;

/// How many instructions a block has at most for which they are always tried, since they take little time.
pub(crate) const SHORT_COUNT: usize = 48;

/// What part of its splits a search makes before the widest beam is tried, which takes longer than most searches.
pub(crate) const FIRST_SHARE: u32 = 16;

/// The most prefixes that a best-first search keeps to compare others with.
pub(crate) const TRANSPOSITIONS_LIMIT: usize = 262_144;

/// At how many of them one look for a prefix goes at most.
pub(crate) const LOOK_LIMIT: usize = 64;
