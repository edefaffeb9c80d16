//! An operation: one of the 55 octal codes of the instruction table.

ghost use Rattle.std.specs.Prelude.{◌≡◌};
ghost use Rattle.s66_isa.specs.{IsCode};

use std::marker::Model;

/// An operation, by its octal code: one of the 55 of the table, which are 0o10 to 0o77 but for 0o46.
#[derive(Clone, Copy, PartialEq, Eq)]
pub struct Op {
    code: u8,
}

impl Model for Op {
    ghost use Rattle.s66_isa.specs.Table.{Op, IsCode};

    ghost Value = { Op };

    ghost view = { λ o. record { code = o.code } };

    ghost inverse = { λ o. record { code = o.code } };

    ghost invariant = { λ o. IsCode o.code };
}

impl Op {
    /// The operation of an octal code of the table.
    pub fn new(code: u8) -> Op
        requires { IsCode code }
        ensures { result ≡ record { code = code } }
    {
        Op { code }
    }

    /// Its octal code.
    pub fn code(&self) -> u8
        ensures value { result ≡ self.now.code }
        ensures of_the_table { IsCode result }
    {
        self.code
    }
}
