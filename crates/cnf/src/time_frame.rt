//! The variables of one time, and the literals of clauses over them.

ghost use Rattle.std.specs.Prelude.{◌≡◌, ◌+◌, ◌*◌, ◌<◌, ◌≤◌, ◌^◌, pos};
ghost use Rattle.cnf.specs.Clauses.{signed as signed_of, literal as literal_of, denial as denial_of};
ghost use Rattle.cnf.specs.Formulas.{IsInRange};

use graph::{Lit, Model};

/// The variables of one time: variable `v` of the circuit is `offset + v`, and the one above the
/// circuit's greatest is true.
#[derive(Clone, Copy)]
pub struct TimeFrame {
    /// the circuit's greatest variable
    pub max_var: u32,
    /// how many variables come before
    pub offset: u32,
}

/// The variable, or its negation.
fn signed(negated: bool, variable: u32) -> i32
    requires { variable < 2 ^ 31 }
    ensures { result ≡ signed_of negated variable }
{
    if negated {
        -(variable as i32)
    } else {
        variable as i32
    }
}

impl TimeFrame {
    /// The variables of the first time.
    pub fn first(circuit: &Model) -> TimeFrame
        ensures max_var { result.max_var ≡ circuit.now.max_var }
        ensures offset { result.offset ≡ 0 }
    {
        TimeFrame {
            max_var: circuit.max_var(),
            offset: 0,
        }
    }

    /// The variables of the time after this number of steps, at most 255.
    pub fn after(circuit: &Model, steps: u32) -> TimeFrame
        requires { steps ≤ 255 }
        ensures max_var { result.max_var ≡ circuit.now.max_var }
        ensures offset { result.offset ≡ steps * (circuit.now.max_var + 1) }
        ensures fits { result.offset + 2 * (circuit.now.max_var + 1) < 2 ^ 31 }
    {
        circuit.well_formed();
        TimeFrame {
            max_var: circuit.max_var(),
            offset: steps * (circuit.max_var() + 1),
        }
    }

    /// The variables of the next time, which come after these.
    pub fn next(self) -> TimeFrame
        requires { self.offset + self.max_var + 1 < 2 ^ 31 }
        ensures max_var { result.max_var ≡ self.max_var }
        ensures offset { result.offset ≡ self.offset + self.max_var + 1 }
    {
        TimeFrame {
            max_var: self.max_var,
            offset: self.offset + self.max_var + 1,
        }
    }

    /// The literal that is true at this time.
    pub fn truth(self) -> i32
        requires { self.offset + self.max_var + 1 < 2 ^ 31 }
        ensures { result ≡ pos (self.offset + self.max_var + 1) }
    {
        (self.offset + self.max_var + 1) as i32
    }

    /// The literal of clauses for a literal of the circuit.
    pub fn literal(self, lit: Lit) -> i32
        requires fits { self.offset + self.max_var + 1 < 2 ^ 31 }
        requires in_range { IsInRange self.max_var lit }
        ensures { result ≡ literal_of self.max_var self.offset lit }
    {
        let variable = lit.variable();
        if variable == 0 {
            signed(!lit.is_negated(), self.offset + self.max_var + 1)
        } else {
            signed(lit.is_negated(), self.offset + variable)
        }
    }

    /// The negation of that literal.
    pub fn denial(self, lit: Lit) -> i32
        requires fits { self.offset + self.max_var + 1 < 2 ^ 31 }
        requires in_range { IsInRange self.max_var lit }
        ensures { result ≡ denial_of self.max_var self.offset lit }
    {
        let variable = lit.variable();
        if variable == 0 {
            signed(lit.is_negated(), self.offset + self.max_var + 1)
        } else {
            signed(!lit.is_negated(), self.offset + variable)
        }
    }
}
