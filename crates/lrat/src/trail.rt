//! The literals that are held true, in the order in which they came.

ghost use Rattle.std.specs.Prelude.{◌≡◌, ◌≢◌, pos, neg_ℤ, unsigned_abs, ◌+◌, ◌≤◌, ◌<◌, ◌^◌, [], ◌∷◌, ◌++◌, OnOk, OnErr, IfOk, MatchResult, IsTrue, ◌↔◌, ◌⊎◌, Contains, All, length, map, take};
ghost use Rattle.std.specs.Vec.{vec_capacity, vec_len};
ghost use Rattle.lrat.specs.Faults.{IsImproper};
ghost use Rattle.lrat.specs.Literals.{IsLiteral, IsProper};
ghost use Rattle.lrat.specs.Marks.{AreApart, AreMarked};

use crate::fault::Fault;
use crate::mark::{Mark, mark_against, mark_for, unmark};
use base::{Refused, extend, filled, push};
use std::alloc::Global;
use std::marker::Model;

/// Literals that are held true, no variable twice. One mark for each variable tells at once
/// whether a literal is held, and going back costs what is given up.
#[derive(Drop)]
pub struct Trail {
    /// the variables are those from 1 to this one
    vars: u32,
    /// for each variable, and for 0, which of its literals is among `literals`
    marks: Vec<Mark>,
    /// the literals held, in order
    literals: Vec<i32>,
}

impl Model for Trail {
    ghost use Rattle.lrat.specs.Assigned.{Assigned, assigned_code};

    ghost Value = { Assigned };

    ghost coded = { assigned_code };

    ghost use Rattle.lrat.specs.Marks.{AreMarked};

    ghost view = { λ a. record { vars = a.vars; literals = a.literals.items } };

    ghost invariant = { λ a. AreMarked a.vars a.marks.items a.literals.items };
}

impl Trail {
    /// A trail over the variables 1 to `vars` that holds nothing. It takes a byte for each.
    pub fn new(alloc: Global, vars: u32) -> Result<Trail, Refused>
        requires { vars < 2 ^ 31 }
        ensures { IfOk result (λ h. h ≡ record { vars = vars; literals = [] }) }
    {
        let marks = filled(alloc, Mark::Neither, vars as usize + 1)?;
        Ok(Trail {
            vars,
            marks,
            literals: Vec::new(alloc),
        })
    }

    /// A trail over no variables, which takes no memory.
    pub fn empty(alloc: Global) -> Trail
        ensures { result ≡ record { vars = 0; literals = [] } }
    {
        Trail {
            vars: 0,
            marks: Vec::new(alloc),
            literals: Vec::new(alloc),
        }
    }

    /// The greatest variable.
    pub fn vars(&self) -> u32
        ensures value { result ≡ self.now.vars }
        ensures fits { self.now.vars < 2 ^ 31 }
    {
        self.vars
    }

    /// Whether the literal is held true.
    pub fn holds(&self, literal: i32) -> bool
        requires { IsLiteral self.now.vars literal }
        ensures { IsTrue result ↔ Contains self.now.literals literal }
    {
        self.marks[literal.unsigned_abs() as usize] == mark_for(literal)
    }

    /// Whether the literal's negation is held true.
    pub fn denies(&self, literal: i32) -> bool
        requires { IsLiteral self.now.vars literal }
        ensures { IsTrue result ↔ Contains self.now.literals (neg_ℤ literal) }
    {
        self.marks[literal.unsigned_abs() as usize] == mark_against(literal)
    }

    /// Whether the literal's variable has a value: whether the literal or its negation is held true.
    pub fn has_value(&self, literal: i32) -> bool
        requires { IsLiteral self.now.vars literal }
        ensures { IsTrue result ↔ (Contains self.now.literals literal ⊎ Contains self.now.literals (neg_ℤ literal)) }
    {
        self.marks[literal.unsigned_abs() as usize] != Mark::Neither
    }

    /// Holds the literal true from now on. Without memory nothing changes.
    pub fn set(&mut self, literal: i32) -> Result<(), Refused>
        requires in_range { IsLiteral self.old.vars literal }
        requires not_held { Contains self.old.literals literal → ⊥ }
        requires not_denied { Contains self.old.literals (neg_ℤ literal) → ⊥ }
        ensures vars { self.new.vars ≡ self.old.vars }
        ensures ok { OnOk result (self.new.literals ≡ self.old.literals ++ literal ∷ []) }
        ensures err { OnErr result (self.new ≡ self.old) }
    {
        push(&mut self.literals, literal)?;
        self.marks[literal.unsigned_abs() as usize] = mark_for(literal);
        Ok(())
    }

    /// Holds the literal's negation true from now on. Without memory nothing changes.
    pub fn deny(&mut self, literal: i32) -> Result<(), Refused>
        requires in_range { IsLiteral self.old.vars literal }
        requires not_held { Contains self.old.literals literal → ⊥ }
        requires not_denied { Contains self.old.literals (neg_ℤ literal) → ⊥ }
        ensures vars { self.new.vars ≡ self.old.vars }
        ensures ok { OnOk result (self.new.literals ≡ self.old.literals ++ neg_ℤ literal ∷ []) }
        ensures err { OnErr result (self.new ≡ self.old) }
    {
        let _vars = self.vars();
        self.set(-literal)
    }

    /// Supposes the clause's literals false, in order, where nothing is held. None may be repeated or opposed. Room is
    /// looked for once, and one look tells a literal's range and value.
    #[inline(always)]
    pub fn suppose(&mut self, clause: &[i32]) -> Result<(), Fault>
        requires empty { self.old.literals ≡ [] }
        requires not_zero { All (λ l. l ≢ pos 0) clause.now }
        ensures vars { self.new.vars ≡ self.old.vars }
        ensures answer { MatchResult result (λ _. IsProper self.old.vars clause.now × (self.new.literals ≡ map neg_ℤ clause.now)) (λ e. IsImproper self.old.vars clause.now e) }
    {
        make_room(&mut self.literals, clause)?;
        deny_each(self.vars, &mut self.marks, &mut self.literals, clause)
    }

    /// The literals held true, in order.
    pub fn literals(&self) -> &[i32]
        ensures value { result.now ≡ self.now.literals }
        ensures in_range { All (IsLiteral self.now.vars) self.now.literals }
        ensures apart { AreApart self.now.literals }
        ensures fits { self.now.vars < 2 ^ 31 }
    {
        self.literals.as_slice()
    }

    /// How many literals are held true.
    pub fn len(&self) -> usize
        ensures { result ≡ length self.now.literals }
    {
        self.literals.len()
    }

    /// Goes on holding only the first `len` literals. It costs the number of those that go.
    pub fn truncate(&mut self, len: usize)
        requires { len ≤ length self.old.literals }
        ensures { self.new ≡ record { vars = self.old.vars; literals = take len self.old.literals } }
    {
        unmark(&mut self.marks, &self.literals[len..]);
        self.literals.truncate(len);
    }

    /// Holds nothing true any more. It costs the number of literals that were held.
    pub fn clear(&mut self)
        ensures { self.new ≡ record { vars = self.old.vars; literals = [] } }
    {
        self.truncate(0);
    }
}

/// Makes room for as many literals as the clause has. Without memory the list stays.
#[inline(always)]
fn make_room(literals: &mut Vec<i32>, clause: &[i32]) -> Result<(), Refused>
    ensures items { literals.new.items ≡ literals.old.items }
    ensures room { OnOk result (vec_len literals.new + length clause.now ≤ vec_capacity literals.new) }
{
    if literals.capacity() - literals.len() < clause.len() {
        return grow(literals, clause);
    }
    Ok(())
}

/// The same where there is none: the clause's literals are added, and taken away again.
#[cold]
#[inline(never)]
fn grow(literals: &mut Vec<i32>, clause: &[i32]) -> Result<(), Refused>
    ensures items { literals.new.items ≡ literals.old.items }
    ensures room { OnOk result (vec_len literals.new + length clause.now ≤ vec_capacity literals.new) }
{
    let len = literals.len();
    extend(literals, clause)?;
    literals.truncate(len);
    Ok(())
}

/// Adds the negations of the clause's literals, in order, and marks them. None may be repeated or opposed. The greatest
/// variable is named for the contract alone.
#[inline(always)]
fn deny_each(
    _vars: u32,
    marks: &mut Vec<Mark>,
    literals: &mut Vec<i32>,
    clause: &[i32],
) -> Result<(), Fault>
    requires marked { AreMarked _vars marks.old.items literals.old.items }
    requires empty { literals.old.items ≡ [] }
    requires room { vec_len literals.old + length clause.now ≤ vec_capacity literals.old }
    requires not_zero { All (λ l. l ≢ pos 0) clause.now }
    ensures marked { AreMarked _vars marks.new.items literals.new.items }
    ensures answer { MatchResult result (λ _. IsProper _vars clause.now × (literals.new.items ≡ map neg_ℤ clause.now)) (λ e. IsImproper _vars clause.now e) }
{
    for literal in clause {
        let variable = literal.unsigned_abs() as usize;
        if variable >= marks.len() {
            return Err(Fault::VariableRange);
        }
        if marks[variable] != Mark::Neither {
            return Err(Fault::RepeatedLiteral);
        }
        marks[variable] = mark_against(*literal);
        literals.push_reserved(-*literal);
    }
    Ok(())
}
