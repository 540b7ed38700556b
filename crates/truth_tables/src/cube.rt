//! Cubes of four inputs.

ghost use Rattle.std.specs.Prelude.{◌≡◌, ◌<◌, ◌↔◌, Bool, IsTrue};
ghost use Rattle.std.specs.Int.{bit_at};
ghost use Rattle.truth_tables.specs.Tables.{row as row_of, value, weight};
ghost use Rattle.truth_tables.specs.Cubes.{holds, is_in, HoldsInRow, IsInside, IsPart};

use crate::table::{ALL, FIRST, FOURTH, SECOND, THIRD, complement, conjunction};

/// What a cube wants of an input.
#[derive(Clone, Copy)]
pub enum Side {
    /// nothing
    Free,
    /// that it is true
    True,
    /// that it is false
    False,
}

impl Side {
    /// The side of an input in the cube of one row.
    fn in_row(row: u32, input: u32) -> Side
        requires { input < 4 }
        ensures { (b : Bool) → IsTrue (holds result b) ↔ (weight 1 b ≡ bit_at row input) }
    {
        if row >> input & 1 == 1 {
            Side::True
        } else {
            Side::False
        }
    }

    /// Where the input is as the side wants it.
    fn table(self, input: u16) -> u16
        ensures { (a b c d : Bool) → value result a b c d ≡ holds self (value input a b c d) }
    {
        match self {
            Side::Free => ALL,
            Side::True => input,
            Side::False => complement(input),
        }
    }
}

/// A conjunction of some of four inputs, each as it is or denied.
#[derive(Clone, Copy)]
pub struct Cube {
    pub first: Side,
    pub second: Side,
    pub third: Side,
    pub fourth: Side,
}

impl Cube {
    /// The cube's truth table.
    pub fn table(self) -> u16
        ensures { (a b c d : Bool) → value result a b c d ≡ is_in self a b c d }
    {
        let low = conjunction(self.first.table(FIRST), self.second.table(SECOND));
        let high = conjunction(self.third.table(THIRD), self.fourth.table(FOURTH));
        conjunction(low, high)
    }

    /// The cube that holds at one row alone.
    pub(crate) fn of_row(row: u32) -> Cube
        requires { row < 16 }
        ensures holds { HoldsInRow row result }
        ensures only { (a b c d : Bool) → IsTrue (is_in result a b c d) → row_of a b c d ≡ row }
    {
        Cube {
            first: Side::in_row(row, 0),
            second: Side::in_row(row, 1),
            third: Side::in_row(row, 2),
            fourth: Side::in_row(row, 3),
        }
    }

    /// The cube with its first input free.
    pub(crate) fn without_first(self) -> Cube
        ensures { IsPart self result }
    {
        Cube {
            first: Side::Free,
            ..self
        }
    }

    /// The cube with its second input free.
    pub(crate) fn without_second(self) -> Cube
        ensures { IsPart self result }
    {
        Cube {
            second: Side::Free,
            ..self
        }
    }

    /// The cube with its third input free.
    pub(crate) fn without_third(self) -> Cube
        ensures { IsPart self result }
    {
        Cube {
            third: Side::Free,
            ..self
        }
    }

    /// The cube with its fourth input free.
    pub(crate) fn without_fourth(self) -> Cube
        ensures { IsPart self result }
    {
        Cube {
            fourth: Side::Free,
            ..self
        }
    }

    /// Whether the function is true wherever the cube holds.
    pub(crate) fn is_inside(self, table: u16) -> bool
        ensures { IsTrue result ↔ IsInside self table }
    {
        self.table() & !table == 0
    }
}
