//! Literals that are functions of others: constants are folded, and what is equal is shared (structural hashing).

ghost use Rattle.std.specs.Prelude.{◌≡◌, ◌<◌, ◌≤◌, [], ℕ, pos, None, OnOk, IfOk, length};
ghost use Rattle.std.specs.HashMap.{get};
ghost use Rattle.lrat.specs.Literals.{IsLiteral};
ghost use Rattle.unrolling.specs.Encodings.{AreLeaves, IsFunctionIn, IsEncoding, IsGrown, function_at, same_function};

use crate::clauses::{negated, positive};
use crate::function::{Function, Simplified};
use base::{Refused, insert_hashed, push};
use std::alloc::Global;
use std::collections::HashMap;

/// What a variable is that is no function.
const NONE: Function = Function {
    table: 0,
    leaves: (0, 0, 0, 0),
};

/// Adds entries of no function up to a length.
fn fill(functions: &mut Vec<Function>, len: usize) -> Result<(), Refused>
    requires { length functions.old.items ≤ len }
    ensures len { OnOk result (length functions.new.items ≡ len) }
    ensures same { (x : ℕ) → function_at functions.new.items x ≡ function_at functions.old.items x }
{
    while functions.len() < len {
        push(functions, NONE)?;
    }
    Ok(())
}

/// The variables in use, of which the first is true, and the literals that were made.
#[derive(Drop)]
pub struct Encoder {
    /// the greatest variable in use
    pub variables: u32,
    /// the variable of each function that has one
    pub shared: HashMap<Function, u32>,
    /// for each variable the function that it is, or none
    pub functions: Vec<Function>,
}

impl Encoder {
    /// `variables` variables in use, and no literals that were made.
    pub fn new(alloc: Global, variables: u32) -> Encoder
        ensures variables { result.variables ≡ variables }
        ensures none { (f : Function) → get same_function result.shared f ≡ None }
        ensures functions { result.functions.items ≡ [] }
    {
        Encoder {
            variables,
            shared: HashMap::new(alloc),
            functions: Vec::new(alloc),
        }
    }

    /// The function that the variable is, or none.
    pub fn function_of(&self, variable: u32) -> Function
        ensures { result ≡ function_at self.now.functions.items variable }
    {
        match self.functions.get(variable as usize) {
            Some(function) => *function,
            None => NONE,
        }
    }

    /// The variable that has the function's value, which gets one where there is none.
    fn shared(&mut self, function: Function) -> Result<u32, Refused>
        requires encoding { IsEncoding self.old }
        requires leaves { AreLeaves self.old.variables function }
        requires room { self.old.variables < 2147483647 }
        ensures grown { OnOk result (IsGrown 1 self.old self.new) }
        ensures literal { IfOk result (λ x. IsLiteral self.new.variables (pos x)) }
        ensures value { IfOk result (λ x. IsFunctionIn self.new.functions.items function (pos x)) }
    {
        if let Some(variable) = self.shared.get(&function) {
            return Ok(*variable);
        }
        self.variables += 1;
        let variable = self.variables;
        fill(&mut self.functions, variable as usize)?;
        push(&mut self.functions, function)?;
        insert_hashed(&mut self.shared, function, variable)?;
        Ok(variable)
    }

    /// The literal that has the function's value: a constant, one of its literals, or a variable's.
    pub fn literal(&mut self, function: Function) -> Result<i32, Refused>
        requires encoding { IsEncoding self.old }
        requires leaves { AreLeaves self.old.variables function }
        requires room { self.old.variables < 2147483647 }
        ensures grown { OnOk result (IsGrown 1 self.old self.new) }
        ensures literal { IfOk result (IsLiteral self.new.variables) }
        ensures value { IfOk result (IsFunctionIn self.new.functions.items function) }
    {
        match function.simplified() {
            Simplified::Literal(literal) => Ok(literal),
            Simplified::Same(same) => Ok(positive(self.shared(same)?)),
            Simplified::Denial(denial) => Ok(negated(positive(self.shared(denial)?))),
        }
    }
}
