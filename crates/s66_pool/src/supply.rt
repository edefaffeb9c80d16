//! What a worker gets in one turn at the lock: splits, if its allowance is spent, and open nodes, if it has none.

ghost use Rattle.std.specs.Prelude.{◌≡◌, ◌≢◌, ◌≤◌, ◌++◌, [], true, false, None, IfOk, OnErr};
ghost use Rattle.s66_pool.specs.{AreEvents, IsClaimed, IsSupplyFor, grants, claims, last_claim, supplied};

use crate::limits::CLAIMS_LIMIT;
use s66_ledger::{Ledger, Ticket};
use std::alloc::AllocError;

/// What a worker needs in a turn at the lock.
#[derive(Clone, Copy)]
pub struct Needs {
    /// Splits, since its allowance is spent.
    pub splits: bool,
    /// Nodes, since it has none to go on with.
    pub nodes: bool,
}

/// What a worker got in a turn at the lock. The nodes that it claimed are in the list that it lent.
#[derive(Clone, Copy, Debug, PartialEq, Eq)]
pub struct Supply {
    /// The number of splits that it was granted; None if it needed none, or if out of memory. If it is 0, nothing is left of the
    /// budget, and the worker claimed nothing.
    pub granted: Option<u32>,
    /// Whether its last claim got no node, since none was open.
    pub none_open: bool,
    /// Whether the turn ended since it was out of memory.
    pub out_of_memory: bool,
}

/// Claims nodes, one after the other, until none is open or it has `CLAIMS_LIMIT` of them.
fn claim_nodes(
    ledger: &mut Ledger<'_>,
    w: u8,
    granted: Option<u32>,
    tickets: &mut Vec<Ticket>,
) -> Supply
    requires worker { (1 ≤ w) × (w ≤ ledger.old.workers) }
    requires empty { tickets.old.items ≡ [] }
    ensures events { AreEvents ledger.old (claims w tickets.new.items ++ last_claim w result.none_open) ledger.new }
    ensures granted { result.granted ≡ granted }
    ensures claimed { IsClaimed result tickets.new.items }
{
    let full = Supply {
        granted,
        none_open: false,
        out_of_memory: false,
    };
    for _ in 0..CLAIMS_LIMIT {
        let Ok(()) = tickets.reserve(1) else {
            return Supply {
                out_of_memory: true,
                ..full
            };
        };
        match ledger.claim(w) {
            Ok(Some(ticket)) => tickets.push_reserved(ticket),
            Ok(None) => {
                return Supply {
                    none_open: true,
                    ..full
                };
            }
            Err(AllocError) => {
                return Supply {
                    out_of_memory: true,
                    ..full
                };
            }
        }
    }
    full
}

/// Grants the worker splits, if it needs some; returns how many.
fn grant_needed(ledger: &mut Ledger<'_>, w: u8, needs: Needs) -> Result<Option<u32>, AllocError>
    requires worker { (1 ≤ w) × (w ≤ ledger.old.workers) }
    ensures events { IfOk result (λ granted. AreEvents ledger.old (grants w granted) ledger.new) }
    ensures unneeded { IfOk result (λ granted. needs.splits ≡ false → granted ≡ None) }
    ensures needed { IfOk result (λ granted. needs.splits ≡ true → granted ≢ None) }
    ensures err { OnErr result (ledger.new ≡ ledger.old) }
{
    if !needs.splits {
        return Ok(None);
    }
    let splits = ledger.grant(w)?;
    Ok(Some(splits))
}

/// Gives the worker what it needs: splits first, and then nodes, unless nothing is left of the budget.
pub(crate) fn serve(
    ledger: &mut Ledger<'_>,
    w: u8,
    needs: Needs,
    tickets: &mut Vec<Ticket>,
) -> Supply
    requires worker { (1 ≤ w) × (w ≤ ledger.old.workers) }
    requires empty { tickets.old.items ≡ [] }
    ensures events { AreEvents ledger.old (supplied w result tickets.new.items) ledger.new }
    ensures needed { IsSupplyFor needs result tickets.new.items }
{
    let Ok(granted) = grant_needed(ledger, w, needs) else {
        return Supply {
            granted: None,
            none_open: false,
            out_of_memory: true,
        };
    };
    if !needs.nodes || granted == Some(0) {
        return Supply {
            granted,
            none_open: false,
            out_of_memory: false,
        };
    }
    claim_nodes(ledger, w, granted, tickets)
}
