//! What the variables of a circuit are looked at as, where they are known to be equal (structural hashing).

ghost use Rattle.std.specs.Prelude.{◌≡◌, ◌≢◌, ◌<◌, ◌+◌, ℕ, true, false, length, replicate, slice_index_or, None, Some, Contains, IfOk};
ghost use Rattle.graph.specs.declared.circuit.Lit.{Lit};
ghost use Rattle.graph.specs.Circuits.{variable as variable_of};
ghost use Rattle.cnf.specs.Clauses.{along, is_negated};
ghost use Rattle.signal_classes.specs.Known.{Keeps, equal_in, is_kept_in, led};

use crate::pairing::Pair;
use crate::signal::negated_as;
use base::{Refused, filled, insert_hashed};
use graph::Lit;
use std::alloc::Global;
use std::collections::HashMap;

/// The conjunction of two literals, where it is one of them or a constant.
fn simplified(one: Lit, other: Lit) -> Option<Lit> {
    if one.0 == 0 || other.0 == 0 {
        return Some(Lit(0));
    }
    if one.0 == 1 || one == other {
        return Some(other);
    }
    if other.0 == 1 {
        return Some(one);
    }
    if one.variable() == other.variable() {
        return Some(Lit(0));
    }
    None
}

/// Marks a place, where there is one.
#[tactic(auto, using(crate::proofs::Marked::more_marked))]
fn mark(marks: &mut [bool], place: u32)
    ensures here { is_kept_in marks.new place ≡ true }
    ensures more { (v : ℕ) → is_kept_in marks.old v ≡ true → is_kept_in marks.new v ≡ true }
{
    if (place as usize) < marks.len() {
        marks[place as usize] = true;
    }
}

/// Marks the listed places.
fn mark_all(marks: &mut [bool], list: &[u32])
    ensures marked { (v : ℕ) → Contains list.now v → is_kept_in marks.new v ≡ true }
    ensures more { (v : ℕ) → is_kept_in marks.old v ≡ true → is_kept_in marks.new v ≡ true }
{
    for place in list {
        mark(marks, *place);
    }
}

/// The variables of a circuit, and the earlier literals that some of them are known to be equal to. That they are equal is judged
/// later: no clause says it.
#[derive(Drop)]
pub struct Reduced<'a> {
    pair: &'a Pair,
    /// for each variable an earlier literal that it is equal to
    equal: Vec<Option<Lit>>,
    /// for each gate that was made its right sides, by what they are looked at as
    sides: Vec<Option<(Lit, Lit)>>,
    /// the variable of a gate that was made, by its right sides
    shared: HashMap<(u32, u32), u32>,
    /// for each variable whether it stays what it is looked at as
    is_kept: Vec<bool>,
}

impl<'a> std::marker::Model for Reduced<'a> {
    ghost use Rattle.signal_classes.specs.Known.{Known};

    ghost Value = { Known };

    ghost view = { λ r. record { equal = r.equal.items; sides = r.sides.items; is_kept = r.is_kept.items } };
}

impl<'a> Reduced<'a> {
    /// Nothing is known to be equal yet, and no gate is made. It costs the circuit.
    pub fn new(alloc: Global, pair: &'a Pair) -> Result<Reduced<'a>, Refused>
        ensures equal { IfOk result (λ r. r.equal ≡ replicate (pair.now.circuit.max_var + 1) None) }
        ensures sides { IfOk result (λ r. r.sides ≡ replicate (pair.now.circuit.max_var + 1) None) }
        ensures is_kept { IfOk result (λ r. r.is_kept ≡ replicate (pair.now.circuit.max_var + 1) false) }
    {
        pair.circuit.well_formed();
        let count = pair.circuit.max_var() as usize + 1;
        Ok(Reduced {
            pair,
            equal: filled(alloc, None, count)?,
            sides: filled(alloc, None, count)?,
            shared: HashMap::new(alloc),
            is_kept: filled(alloc, false, count)?,
        })
    }

    /// An earlier literal that the variable is equal to.
    pub fn equal(&self, variable: u32) -> Option<Lit>
        ensures { result ≡ equal_in self.now.equal variable }
    {
        match self.equal.get(variable as usize) {
            Some(equal) => *equal,
            None => None,
        }
    }

    /// The right sides of the variable, where it is a gate that was made.
    pub fn sides(&self, variable: u32) -> Option<(Lit, Lit)>
        ensures { result ≡ slice_index_or self.now.sides variable None }
    {
        match self.sides.get(variable as usize) {
            Some(sides) => *sides,
            None => None,
        }
    }

    /// Whether the variable stays what it is looked at as.
    pub fn is_kept(&self, variable: u32) -> bool
        ensures { result ≡ is_kept_in self.now.is_kept variable }
    {
        match self.is_kept.get(variable as usize) {
            Some(is_kept) => *is_kept,
            None => true,
        }
    }

    /// Keeps the listed variables: they stay what they are looked at as.
    pub fn keep(&mut self, list: &[u32])
        ensures equal { self.new.equal ≡ self.old.equal }
        ensures sides { self.new.sides ≡ self.old.sides }
        ensures kept { (v : ℕ) → Contains list.now v → is_kept_in self.new.is_kept v ≡ true }
        ensures more { (v : ℕ) → is_kept_in self.old.is_kept v ≡ true → is_kept_in self.new.is_kept v ≡ true }
    {
        mark_all(self.is_kept.as_mut_slice(), list);
    }

    /// The first literal that this one is known to be equal to.
    pub fn root(&self, lit: Lit) -> Lit
        ensures { result ≡ led self.now.equal (length self.now.equal) lit }
    {
        let mut root = lit;
        for _ in 0..self.equal.len() {
            match self.equal(root.variable()) {
                Some(earlier) => root = negated_as(earlier, root),
                None => return root,
            }
        }
        root
    }

    /// Notes that a literal is equal to another one. The later of what both are looked at as is looked at as the earlier from
    /// now on, but where it is kept.
    pub fn merge(&mut self, one: Lit, other: Lit)
        ensures { Keeps self.old self.new }
    {
        let (one, other) = (self.root(one), self.root(other));
        let (later, earlier) = if self.pair.rank(other) < self.pair.rank(one) {
            (one, other)
        } else {
            (other, one)
        };
        if !self.is_kept(later.variable())
            && self.pair.rank(earlier) < self.pair.rank(later)
            && let Some(equal) = self.equal.get_mut(later.variable() as usize)
        {
            *equal = Some(negated_as(earlier, later));
        }
    }

    /// Makes the gate of a variable: looks at its right sides as what they are known to be equal to. Answers them, with the
    /// greater first, where the variable is a gate's.
    fn open(&mut self, variable: u32) -> Option<(Lit, Lit)>
        ensures equal { self.new.equal ≡ self.old.equal }
        ensures is_kept { self.new.is_kept ≡ self.old.is_kept }
    {
        let gate = self.pair.table.gate_of(variable)?;
        let (one, other) = (self.root(gate.rhs0), self.root(gate.rhs1));
        let sides = if one.0 < other.0 {
            (other, one)
        } else {
            (one, other)
        };
        if let Some(of) = self.sides.get_mut(variable as usize) {
            *of = Some(sides);
        }
        Some(sides)
    }

    /// Makes the gate of a variable, where it is a gate's, and looks at it as one of its right sides, a constant or an earlier
    /// gate where it is that.
    pub fn make(&mut self, variable: u32) -> Result<(), Refused>
        ensures { Keeps self.old self.new }
    {
        let Some((one, other)) = self.open(variable) else {
            return Ok(());
        };
        match simplified(one, other) {
            Some(lit) => self.merge(Lit(variable.saturating_mul(2)), lit),
            None => self.share(variable, one, other)?,
        }
        Ok(())
    }

    /// Looks at a gate as an earlier one with the same right sides, or notes it for later ones.
    fn share(&mut self, variable: u32, one: Lit, other: Lit) -> Result<(), Refused>
        ensures { Keeps self.old self.new }
    {
        let lit = Lit(variable.saturating_mul(2));
        if let Some(same) = self.shared.get(&(one.0, other.0)) {
            let same = Lit(same.saturating_mul(2));
            if self.pair.rank(same) < self.pair.rank(lit) {
                self.merge(lit, same);
                return Ok(());
            }
        }
        insert_hashed(&mut self.shared, (one.0, other.0), variable)?;
        Ok(())
    }

    /// Makes the gate of a literal's variable, and takes the literal to be equal to another one. Answers what the variable is
    /// looked at as then.
    pub fn assume(&mut self, lit: Lit, other: Lit) -> Result<Lit, Refused>
        ensures answer { IfOk result (λ a. a ≡ along (is_negated lit) (led self.old.equal (length self.old.equal) other)) }
        ensures is_kept { self.new.is_kept ≡ self.old.is_kept }
        ensures others { (v : ℕ) → v ≢ variable_of lit → equal_in self.new.equal v ≡ equal_in self.old.equal v }
        ensures equal { IfOk result (λ a. variable_of lit < length self.old.equal → equal_in self.new.equal (variable_of lit) ≡ Some a) }
    {
        let earlier = negated_as(self.root(other), lit);
        if let Some((one, other)) = self.open(lit.variable())
            && self.shared.get(&(one.0, other.0)).is_none()
        {
            insert_hashed(&mut self.shared, (one.0, other.0), lit.variable())?;
        }
        if let Some(equal) = self.equal.get_mut(lit.variable() as usize) {
            *equal = Some(earlier);
        }
        Ok(earlier)
    }
}
