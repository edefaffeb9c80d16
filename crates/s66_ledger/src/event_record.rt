//! One entry of a ledger's history: an event with its reply.

ghost use Rattle.std.specs.Prelude.{◌≡◌, IfSome, IfNone};
ghost use Rattle.s66_ledger.specs.{error_of};
ghost use Rattle.s66_ledger.specs.declared.reply.GraftError.TheVariants as error;

use crate::reply::{GraftError, Offered};
use s66_node::State;

/// What a ledger's history has of one event, with its reply. Workers count from 1, nodes from 0; times are in minor cycles.
///
/// Some records have bytes of the history besides, and say how many.
#[derive(Clone, Copy, PartialEq, Eq)]
pub enum EventRecord {
    /// `splits` splits of the budget went to the worker.
    Grant {
        w: u8,
        splits: u32,
    },
    /// The node was handed out; None if none was open.
    Claim {
        w: u8,
        node: Option<u32>,
    },
    /// A piece of `splits` splits was put in the place of the node; its root was this. The bytes are the `depth` numbers of its
    /// prefix. The `nodes` nodes below its root are the next ones of the ledger, which say what they were in it.
    Taken {
        w: u8,
        node: u32,
        depth: u8,
        root: State,
        nodes: u32,
        splits: u32,
    },
    /// A piece of `splits` splits was refused; `own` says whether it is of the ledger's block and profile. The bytes are the
    /// `depth` numbers of its prefix.
    Refused {
        w: u8,
        node: u32,
        own: bool,
        depth: u8,
        splits: u32,
        why: Refusal,
    },
    /// An order of this time was offered; `own` says whether it is of the ledger's block and profile. The bytes are its `count`
    /// numbers.
    Offer {
        w: u8,
        own: bool,
        count: u8,
        time: u32,
        offered: Offered,
    },
    /// The node was taken back, or refused since it wasn't out.
    Back {
        w: u8,
        node: u32,
        returned: bool,
    },
    /// The worker's allowance went back to the budget.
    Retire {
        w: u8,
    },
}

/// Why a piece was refused.
#[derive(Clone, Copy, Debug, PartialEq, Eq)]
pub enum Refusal {
    /// The node wasn't out.
    NotOut,
    /// The piece is over another prefix than the node's, or of another block, profile or rule.
    OtherPrefix,
    /// The piece has more splits than the worker's allowance.
    OverAllowance,
}

/// Why the machine refused the piece; None if out of memory, of which no entry is made.
pub(crate) fn refusal_of(why: GraftError) -> Option<Refusal>
    ensures some { IfSome result (λ refusal. why ≡ error_of refusal) }
    ensures none { IfNone result (why ≡ error.OutOfMemory) }
{
    match why {
        GraftError::NotOut => Some(Refusal::NotOut),
        GraftError::OtherPrefix => Some(Refusal::OtherPrefix),
        GraftError::OverAllowance => Some(Refusal::OverAllowance),
        GraftError::OutOfMemory => None,
    }
}
