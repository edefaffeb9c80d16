//! What a seat at the lock knows, as a ghost: no value of it is made.

use std::marker::Model;

/// What a seat at the lock knows. No value of it is made.
pub struct View;

impl Model for View {
    ghost use Rattle.std.specs.Prelude.{[]};
    ghost use Rattle.s66_share.specs.SeatViews.{View, idle};

    ghost Value = { View };

    ghost view = { λ _. idle [] };
}
