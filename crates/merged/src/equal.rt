//! What clauses say of latches.

ghost use Rattle.std.specs.Prelude.{◌≡◌, ◌<◌, ℕ, true, All, IfSome, None};
ghost use Rattle.graph.specs.Circuits.{variable};
ghost use Rattle.graph.specs.declared.circuit.Lit.{Lit};
ghost use Rattle.cnf.specs.Clauses.{along, is_negated};
ghost use Rattle.merged.specs.Reading.{Says, opposite_of, constant_of};

use graph::Lit;

/// That a variable has the value of a literal.
#[derive(Clone, Copy)]
pub(crate) struct Equal {
    pub variable: u32,
    pub same: Lit,
}

/// The literal's negation.
fn negated(lit: Lit) -> Lit
    requires { lit.0 < 4294967295 }
    ensures { result ≡ along true lit }
{
    if lit.is_negated() {
        Lit(lit.0 - 1)
    } else {
        Lit(lit.0 + 1)
    }
}

/// The literal, negated where the other one is.
pub(crate) fn negated_as(lit: Lit, other: Lit) -> Lit
    requires { lit.0 < 4294967295 }
    ensures { result ≡ along (is_negated other) lit }
{
    if other.is_negated() {
        negated(lit)
    } else {
        lit
    }
}

/// That a literal is true.
fn constant(lit: Lit) -> Equal
    ensures variable { result.variable ≡ variable lit }
    ensures same { result.same ≡ constant_of lit }
{
    Equal {
        variable: lit.variable(),
        same: negated_as(Lit(1), lit),
    }
}

/// That a literal is true exactly where another one is not.
fn opposite(one: Lit, other: Lit) -> Equal
    requires { other.0 < 4294967294 }
    ensures variable { result.variable ≡ variable one }
    ensures same { result.same ≡ opposite_of one other }
{
    Equal {
        variable: one.variable(),
        same: negated_as(negated(other), one),
    }
}

/// What a clause says, with the next one.
pub(crate) fn said(clause: &[Lit], next: &[Lit]) -> Option<Equal>
    requires { All (λ a. a.0 < 4294967294) clause.now }
    ensures some { IfSome result (λ e. Says clause.now next.now e.variable e.same) }
    ensures none { result ≡ None → (v : ℕ) (b : Lit) → Says clause.now next.now v b → ⊥ }
{
    if clause.len() == 1 {
        return Some(constant(clause[0]));
    }
    if clause.len() != 2 || next.len() != 2 {
        return None;
    }
    let (one, other) = (clause[0], clause[1]);
    if next[0] != negated(other) || next[1] != negated(one) {
        return None;
    }
    Some(opposite(one, other))
}
