//! The rule of a lane, as the deque asks for one: each ticket is taken once, by its owner or with a pass. And what is learnt from each
//! call.

use crossbeam_deque::protocol::{Join, Lesson, Outcome, Protocol, Split};
use s66_model::Ticket;
use std::marker::Model;

/// What the owner of a lane or a pass at it has put and taken. No value of it is made.
pub(crate) struct Hand;

impl Model for Hand {
    ghost use Rattle.s66_share.specs.Hands.{Hand, opening_hand};

    ghost Value = { Hand };

    ghost view = { λ _. opening_hand };
}

/// What was put is what was taken and what is in the lane.
pub(crate) struct Rule;

impl Protocol<Ticket, Hand> for Rule {
    ghost use Rattle.s66_share.specs.Hands.{Balanced, opening_hand, spent_hand};

    ghost holds = { Balanced };

    ghost first = { opening_hand };

    ghost guest = { spent_hand };
}

/// The tickets come into the lane.
pub(crate) struct Puts;

impl Outcome<Ticket, Hand> for Puts {
    ghost use Rattle.s66_share.specs.Hands.{HasPut};

    ghost then = { HasPut };
}

/// The tickets leave the lane.
pub(crate) struct Takes;

impl Outcome<Ticket, Hand> for Takes {
    ghost use Rattle.s66_share.specs.Hands.{HasTakenTickets};

    ghost then = { HasTakenTickets };
}

/// A part of the owner's goes to a new pass.
pub(crate) struct Deals;

impl Split<Hand> for Deals {
    ghost use Rattle.s66_share.specs.Hands.{one_part_less, new_hand};

    ghost left = { one_part_less };

    ghost right = { λ _. new_hand };
}

/// What a pass has goes to the owner.
pub(crate) struct Collects;

impl Join<Hand> for Collects {
    ghost use Rattle.s66_share.specs.Hands.{joined_hands, spent_hand};

    ghost both = { joined_hands };

    ghost spent = { spent_hand };
}

/// No hand has more than all parts.
pub(crate) struct Counts;

impl Lesson<Ticket, Hand> for Counts {
    ghost use Rattle.s66_share.specs.Hands.{HasPartsAtMost};

    ghost fact = { HasPartsAtMost };
}

/// The owner of every part knows the whole.
pub(crate) struct Settles;

impl Lesson<Ticket, Hand> for Settles {
    ghost use Rattle.s66_share.specs.Hands.{IsSettled};

    ghost fact = { IsSettled };
}
