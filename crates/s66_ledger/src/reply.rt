//! What became of an offer, and why a piece or a node was refused.

ghost use Rattle.std.specs.Prelude.{◌≡◌, ◌≢◌, true, false};
ghost use Rattle.s66_ledger.specs.declared.reply.Offered.TheVariants as offered;

use thiserror::Error;

/// What became of an order that was offered.
#[derive(Clone, Copy, Debug, PartialEq, Eq)]
pub enum Offered {
    /// It is the best now.
    Lower,
    /// The best order has this time, in minor cycles, which is no more than the offer's.
    NotLower { least: u32 },
    /// It is of another block or profile.
    OtherBlock,
}

impl Offered {
    /// Whether the order is of the ledger's block and profile.
    pub(crate) fn is_own(&self) -> bool
        ensures other { self.now ≡ offered.OtherBlock → result ≡ false }
        ensures own { self.now ≢ offered.OtherBlock → result ≡ true }
    {
        !matches!(self, Offered::OtherBlock)
    }
}

/// Why a piece wasn't taken: nodes, best order and allowances are as before, and the history has the refusal, unless it is
/// out of memory, which changes nothing.
#[derive(Clone, Copy, Debug, Drop, Error, PartialEq, Eq)]
pub enum GraftError {
    #[error("the node is not handed out")]
    NotOut,
    #[error("the piece is over another prefix than the node's, or of another block, profile or rule")]
    OtherPrefix,
    #[error("the piece has more splits than the worker's allowance")]
    OverAllowance,
    #[error("out of memory")]
    OutOfMemory,
}

/// Why a node wasn't taken back: nodes, best order and allowances are as before, and the history has the refusal, unless it is out
/// of memory, which changes nothing.
#[derive(Clone, Copy, Debug, Drop, Error, PartialEq, Eq)]
pub enum BackError {
    #[error("the node is not handed out")]
    NotOut,
    #[error("out of memory")]
    OutOfMemory,
}
