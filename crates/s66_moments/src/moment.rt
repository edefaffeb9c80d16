//! Moments of an order: when an instruction issues, starts, has its result in a register and frees its unit, and the origin and the
//! end.

use s66_isa::Reg;

/// What happens to an instruction in its time: it issues to its unit, it starts with its operands, its result in a register is done,
/// and its unit is free (Reference Manual, functional units and reservation control).
#[derive(Clone, Copy)]
pub enum Stage {
    Issue,
    Start,
    Done(Reg),
    Free,
}

/// A moment of an order, in minor cycles from its origin.
#[derive(Clone, Copy)]
pub enum Moment {
    /// The origin, 0.
    Origin,
    /// A stage of the instruction of this number.
    At(u8, Stage),
    /// The total of the order.
    End,
}
