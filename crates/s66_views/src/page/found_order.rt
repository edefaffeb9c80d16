//! What the page shows of a block beside its source order: the order that was found, its bound and the reasons.

use s66_time::Order;
use std::marker::Model;

/// What is shown of a block beside its source order: the name by which it is entered, empty if there is none; an order, what every order takes at least, in minor cycles of 100 ns, and sentences that say why no
/// order is faster; none if they aren't shown.
#[derive(Drop)]
pub struct FoundOrder {
    pub entry: Vec<u8>,
    pub order: Order,
    pub bound: u32,
    pub reasons: Vec<u8>,
}

impl Model for FoundOrder {
    ghost use Rattle.s66_views.specs.FoundOrders.{FoundOrder};

    ghost Value = { FoundOrder };

    ghost view = { λ f. record { entry = f.entry.items; order = f.order; bound = f.bound; reasons = f.reasons.items } };
}
