//! Functions of four literals, in a form that equal ones share.

ghost use Rattle.std.specs.Prelude.{◌≡◌, ℕ, ℤ, ◌↔◌, ◌<◌, ◌≤◌, ◌^◌, ◌⊎◌, pos, unsigned_abs, Bool, true, false};
ghost use Rattle.lrat.specs.Literals.{IsLiteral, is_true};
ghost use Rattle.unrolling.specs.Encodings.{function_value, table_value, IsSame, IsAmong, AreLeaves, AreSimplified, IsSimplified};

use crate::clauses::negated;
use truth_tables::{
    ALL, FIRST, FOURTH, SECOND, THIRD, complement, composed, ignores_first, ignores_fourth,
    ignores_second, ignores_third,
};

/// A function of four literals. Where it is of fewer, the others are 1, the literal of what is true.
#[derive(Clone, Copy, PartialEq, Eq, Hash, Drop)]
pub struct Function {
    /// its truth table
    pub table: u16,
    /// the literals
    pub leaves: (i32, i32, i32, i32),
}

/// What a function of literals comes to.
#[derive(Clone, Copy)]
pub enum Simplified {
    /// the literal has the function's value
    Literal(i32),
    /// this function has it
    Same(Function),
    /// the denial of this function has it
    Denial(Function),
}

/// The two literals, the greater one first.
fn descending(one: i32, other: i32) -> (i32, i32)
    ensures { (l : ℤ) → ((result.0 ≡ l) ⊎ (result.1 ≡ l)) ↔ ((one ≡ l) ⊎ (other ≡ l)) }
{
    if one < other {
        (other, one)
    } else {
        (one, other)
    }
}

/// The variable of the literal, as a literal.
fn unsigned(literal: i32) -> i32
    requires { unsigned_abs literal < 2 ^ 31 }
    ensures { result ≡ pos (unsigned_abs literal) }
{
    if literal < 0 {
        negated(literal)
    } else {
        literal
    }
}

/// These literals, the greatest first, by a sorting network of five.
fn sorted(leaves: (i32, i32, i32, i32)) -> (i32, i32, i32, i32)
    ensures { (l : ℤ) → IsAmong result l ↔ IsAmong leaves l }
{
    let (a, b) = descending(leaves.0, leaves.1);
    let (c, d) = descending(leaves.2, leaves.3);
    let (a, c) = descending(a, c);
    let (b, d) = descending(b, d);
    let (b, c) = descending(b, c);
    (a, b, c, d)
}

/// The truth table of a variable, over these.
fn variable_table(leaves: (i32, i32, i32, i32), variable: i32) -> u16
    requires among { IsAmong leaves variable }
    ensures { (v : ℕ → Bool) → v 1 ≡ true → table_value v result leaves ≡ is_true v variable }
{
    if variable == 1 {
        ALL
    } else if variable == leaves.0 {
        FIRST
    } else if variable == leaves.1 {
        SECOND
    } else if variable == leaves.2 {
        THIRD
    } else {
        FOURTH
    }
}

/// The truth table of a literal, over these variables.
fn literal_table(leaves: (i32, i32, i32, i32), literal: i32) -> u16
    requires few { unsigned_abs literal < 2 ^ 31 }
    requires among { IsAmong leaves (pos (unsigned_abs literal)) }
    ensures { (v : ℕ → Bool) → v 1 ≡ true → table_value v result leaves ≡ is_true v literal }
{
    let table = variable_table(leaves, unsigned(literal));
    if literal < 0 {
        complement(table)
    } else {
        table
    }
}

/// The literal, or 1 where the function ignores it.
fn unless_ignored(ignored: bool, literal: i32) -> i32
    ensures ignored { ignored ≡ true → result ≡ pos 1 }
    ensures kept { ignored ≡ false → result ≡ literal }
{
    if ignored { 1 } else { literal }
}

impl Function {
    /// The same function, over its variables as they are, the greatest first.
    fn arranged(self) -> Function
        requires few { AreLeaves 2147483647 self }
        ensures same { IsSame self result }
        ensures leaves { (n : ℕ) → AreLeaves n self → AreLeaves n result }
    {
        let (first, second, third, fourth) = self.leaves;
        let leaves = sorted((
            unsigned(first),
            unsigned(second),
            unsigned(third),
            unsigned(fourth),
        ));
        let tables = (
            literal_table(leaves, first),
            literal_table(leaves, second),
            literal_table(leaves, third),
            literal_table(leaves, fourth),
        );
        Function {
            table: composed(self.table, tables),
            leaves,
        }
    }

    /// The same function, with 1 in the place of each variable that it ignores.
    fn reduced(self) -> Function
        ensures same { IsSame self result }
        ensures leaves { (n : ℕ) → 1 ≤ n → AreLeaves n self → AreLeaves n result }
    {
        let (first, second, third, fourth) = self.leaves;
        Function {
            table: self.table,
            leaves: (
                unless_ignored(ignores_first(self.table), first),
                unless_ignored(ignores_second(self.table), second),
                unless_ignored(ignores_third(self.table), third),
                unless_ignored(ignores_fourth(self.table), fourth),
            ),
        }
    }

    /// The literal that a function of its first literal alone is.
    fn of_first(self) -> i32
        requires few { AreLeaves 2147483647 self }
        requires alone { (self.leaves.1 ≡ pos 1) × (self.leaves.2 ≡ pos 1) × (self.leaves.3 ≡ pos 1) }
        ensures value { (v : ℕ → Bool) → v 1 ≡ true → is_true v result ≡ function_value v self }
        ensures literal { (n : ℕ) → 1 ≤ n → AreLeaves n self → IsLiteral n result }
    {
        let literal = self.leaves.0;
        match (self.table >> 15 & 1 == 1, self.table >> 14 & 1 == 1) {
            (true, true) => 1,
            (true, false) => literal,
            (false, true) => negated(literal),
            (false, false) => -1,
        }
    }

    /// What the function comes to, as it is arranged: a literal where the other three are 1, and else the function or its denial,
    /// whichever is false where all literals are true.
    fn classified(self) -> Simplified
        requires few { AreLeaves 2147483647 self }
        ensures same { IsSimplified self result }
        ensures leaves { (n : ℕ) → 1 ≤ n → AreLeaves n self → AreSimplified n result }
    {
        if self.leaves.1 == 1 && self.leaves.2 == 1 && self.leaves.3 == 1 {
            return Simplified::Literal(self.of_first());
        }
        if self.table >> 15 & 1 == 1 {
            return Simplified::Denial(Function {
                table: complement(self.table),
                leaves: self.leaves,
            });
        }
        Simplified::Same(self)
    }

    /// The literal that the function is, or the function in the form that all equal ones share: of variables in falling order,
    /// each once, on all of which it depends, and false where all of these are true.
    pub fn simplified(self) -> Simplified
        requires few { AreLeaves 2147483647 self }
        ensures same { IsSimplified self result }
        ensures leaves { (n : ℕ) → 1 ≤ n → AreLeaves n self → AreSimplified n result }
    {
        let arranged = self.arranged();
        let reduced = arranged.reduced();
        if reduced == arranged {
            arranged.classified()
        } else {
            reduced.arranged().classified()
        }
    }
}
