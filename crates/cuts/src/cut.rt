//! One cut of a variable.

ghost use Rattle.std.specs.Prelude.{◌≡◌, false};
ghost use Rattle.graph.specs.Circuits.{Valuation, place};
ghost use Rattle.cuts.specs.Joining.{AreAmong, IsAmong, side_of, trivial, value_over};

use graph::Lit;
use truth_tables::{FIRST, FOURTH, NONE, SECOND, THIRD, complement, composed};

/// Four variables. Where there are fewer, the others are 0.
pub(crate) type Leaves = (u32, u32, u32, u32);

/// At most four variables and the function of them that is a variable's value. Where there are fewer, the others are 0, which is false.
#[derive(Clone, Copy)]
pub struct Cut {
    /// the truth table of the function
    pub table: u16,
    /// the variables
    pub leaves: (u32, u32, u32, u32),
}

/// The function of four variables that is one of them, or the constant.
fn table_in(leaves: Leaves, variable: u32) -> u16
    requires { IsAmong leaves variable }
    ensures { (w : Valuation) → place w 0 ≡ false → value_over w leaves result ≡ place w variable }
{
    let (first, second, third, _) = leaves;
    if variable == 0 {
        NONE
    } else if variable == first {
        FIRST
    } else if variable == second {
        SECOND
    } else if variable == third {
        THIRD
    } else {
        FOURTH
    }
}

impl Cut {
    /// The cut that has the variable itself as its one leaf.
    pub(crate) fn itself(variable: u32) -> Cut
        ensures { result ≡ trivial variable }
    {
        Cut {
            table: FIRST,
            leaves: (variable, 0, 0, 0),
        }
    }

    /// The cut's function of these variables, among which its leaves are.
    fn table_over(self, leaves: Leaves) -> u16
        requires { AreAmong leaves self.leaves }
        ensures { (w : Valuation) → place w 0 ≡ false → value_over w leaves result ≡ value_over w self.leaves self.table }
    {
        let (first, second, third, fourth) = self.leaves;
        composed(
            self.table,
            (
                table_in(leaves, first),
                table_in(leaves, second),
                table_in(leaves, third),
                table_in(leaves, fourth),
            ),
        )
    }

    /// The function of these variables that is the literal's, where the cut is its variable's.
    pub(crate) fn side_over(self, leaves: Leaves, literal: Lit) -> u16
        requires { AreAmong leaves self.leaves }
        ensures { (w : Valuation) → place w 0 ≡ false → value_over w leaves result ≡ side_of w literal self }
    {
        let table = self.table_over(leaves);
        if literal.is_negated() {
            complement(table)
        } else {
            table
        }
    }
}
