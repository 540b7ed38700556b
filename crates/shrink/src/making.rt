//! Gates, made one after another.

ghost use Rattle.std.specs.Prelude.{◌≡◌, ◌≢◌, ◌+◌, ◌*◌, ◌<◌, ◌≤◌, ◌⊎◌, ◌&&◌, ℕ, [], length, IfOk, IfSome, None, OnOk, false};
ghost use Rattle.std.specs.HashMap.{get};
ghost use Rattle.graph.specs.Circuits.{Valuation, variable, place, value_of};
ghost use Rattle.shrink.specs.Making.{AreMade, Grows, IsConjunction, IsTable, same_sides};

use base::{Refused, Seq, insert_hashed};
use graph::{Gate, Lit};
use std::alloc::Global;
use std::collections::HashMap;

/// The conjunction of two literals, where it is one of them or a constant.
fn simplified(a: Lit, b: Lit) -> Option<Lit>
    ensures value { IfSome result (λ c. (x : Valuation) → place x 0 ≡ false → value_of x c ≡ (value_of x a && value_of x b)) }
    ensures bound { IfSome result (λ c. (c.0 ≤ a.0) ⊎ (c.0 ≤ b.0)) }
    ensures left { result ≡ None → variable a ≢ 0 }
    ensures right { result ≡ None → variable b ≢ 0 }
    ensures two { result ≡ None → variable a ≢ variable b }
{
    if a.0 == 0 || b.0 == 0 {
        return Some(Lit(0));
    }
    if a.0 == 1 || a.0 == b.0 {
        return Some(b);
    }
    if b.0 == 1 {
        return Some(a);
    }
    if a.0 / 2 == b.0 / 2 {
        return Some(Lit(0));
    }
    None
}

/// Gates that are made one after another, and the table of their right sides.
#[derive(Drop)]
pub struct Making {
    /// the gates so far
    pub gates: Seq<Gate>,
    /// the variable of the gate with these right sides
    table: HashMap<(u32, u32), u32>,
}

impl Making {
    /// No gates.
    pub fn new(alloc: Global) -> Making
        ensures none { result.gates ≡ [] }
        ensures table { (first : ℕ) → IsTable first [] (get same_sides result.table) }
    {
        Making {
            gates: Seq::new(alloc),
            table: HashMap::new(alloc),
        }
    }

    /// The literal of a gate with these right sides, which is made where there is none.
    fn gate(&mut self, first: u32, rhs0: Lit, rhs1: Lit) -> Result<Lit, Refused>
        requires made { AreMade first self.old.gates }
        requires table { IsTable first self.old.gates (get same_sides self.old.table) }
        requires room { first + length self.old.gates ≤ 4194303 }
        requires below { rhs0.0 < 2 * (first + length self.old.gates) }
        requires descends { rhs1.0 ≤ rhs0.0 }
        requires proper { (variable rhs0 ≢ 0) × (variable rhs1 ≢ 0) × (variable rhs0 ≢ variable rhs1) }
        ensures made { OnOk result (AreMade first self.new.gates) }
        ensures table { OnOk result (IsTable first self.new.gates (get same_sides self.new.table)) }
        ensures grows { OnOk result (Grows self.old.gates self.new.gates) }
        ensures below { IfOk result (λ c. c.0 < 2 * (first + length self.new.gates)) }
        ensures conjunction { IfOk result (IsConjunction self.new.gates rhs0 rhs1) }
    {
        if let Some(variable) = self.table.get(&(rhs0.0, rhs1.0)) {
            return Ok(Lit(2 * *variable));
        }
        let variable = first + self.gates.len() as u32;
        let lhs = Lit(2 * variable);
        self.gates.push(Gate { lhs, rhs0, rhs1 })?;
        insert_hashed(&mut self.table, (rhs0.0, rhs1.0), variable)?;
        Ok(lhs)
    }

    /// The literal that is the conjunction of two literals; where it is neither a constant nor one of
    /// the two, it is that of a gate, which is made where there is none.
    pub fn and(&mut self, first: u32, a: Lit, b: Lit) -> Result<Lit, Refused>
        requires made { AreMade first self.old.gates }
        requires table { IsTable first self.old.gates (get same_sides self.old.table) }
        requires room { first + length self.old.gates ≤ 4194303 }
        requires below { (a.0 < 2 * (first + length self.old.gates)) × (b.0 < 2 * (first + length self.old.gates)) }
        ensures made { OnOk result (AreMade first self.new.gates) }
        ensures table { OnOk result (IsTable first self.new.gates (get same_sides self.new.table)) }
        ensures grows { OnOk result (Grows self.old.gates self.new.gates) }
        ensures below { IfOk result (λ c. c.0 < 2 * (first + length self.new.gates)) }
        ensures conjunction { IfOk result (IsConjunction self.new.gates a b) }
    {
        if let Some(c) = simplified(a, b) {
            return Ok(c);
        }
        if a.0 < b.0 {
            self.gate(first, b, a)
        } else {
            self.gate(first, a, b)
        }
    }
}
