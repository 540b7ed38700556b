//! Numbering the variables that are kept.

ghost use Rattle.std.specs.Prelude.{◌≡◌, ◌+◌, ◌<◌, ◌≤◌, IfOk, OnOk, length};
ghost use Rattle.cone_of_influence.specs.Numbers.{entry as entry_of, renamed, AreNumbersTo, IsSmall};

use base::{Refused, Seq, filled, push};
use graph::Lit;
use sequential_cones::is_marked;
use std::alloc::Global;

/// The numbers of variables, and the variables that have one.
#[derive(Drop)]
pub(crate) struct Numbering {
    /// for each variable its number, where it has one
    pub numbers: Seq<u32>,
    /// the variable of each number
    pub kept: Seq<u32>,
}

/// Gives the variable the next number, where it is marked.
#[tactic(auto, using(crate::proofs::Numbered::numbered_taken, crate::proofs::Numbered::numbered_left, crate::proofs::Numbered::small_set, crate::proofs::Numbered::small_more))]
fn note(
    marks: &[bool],
    numbers: &mut [u32],
    kept: &mut Vec<u32>,
    variable: u32,
) -> Result<(), Refused>
    requires place { variable < length numbers.old }
    requires variables { variable ≤ 4194303 }
    requires few { length kept.old.items ≤ variable }
    requires small { IsSmall numbers.old }
    requires kept_small { IsSmall kept.old.items }
    requires numbered { AreNumbersTo marks.now kept.old.items numbers.old variable }
    ensures places { length numbers.new ≡ length numbers.old }
    ensures few { OnOk result (length kept.new.items ≤ variable + 1) }
    ensures small { OnOk result (IsSmall numbers.new) }
    ensures kept_small { OnOk result (IsSmall kept.new.items) }
    ensures numbered { OnOk result (AreNumbersTo marks.now kept.new.items numbers.new (variable + 1)) }
{
    if !is_marked(marks, variable) {
        return Ok(());
    }
    numbers[variable as usize] = kept.len() as u32;
    push(kept, variable)?;
    Ok(())
}

/// Numbers the marked variables, from 0 on. Answers them in increasing order.
#[tactic(auto, using(crate::proofs::Numbered::numbered_none))]
fn number_all(alloc: Global, marks: &[bool], numbers: &mut [u32]) -> Result<Vec<u32>, Refused>
    requires few { length numbers.old ≤ 4194304 }
    requires small { IsSmall numbers.old }
    ensures few { IfOk result (λ kept. length kept.items ≤ length numbers.old) }
    ensures small { OnOk result (IsSmall numbers.new) }
    ensures kept_small { IfOk result (λ kept. IsSmall kept.items) }
    ensures numbered { IfOk result (λ kept. AreNumbersTo marks.now kept.items numbers.new (length numbers.old)) }
{
    let mut kept = Vec::new(alloc);
    for variable in 0..numbers.len() {
        note(marks, numbers, &mut kept, variable as u32)?;
    }
    Ok(kept)
}

/// Numbers the marked ones of so many variables, from 0 on, in increasing order.
#[tactic(auto, using(crate::proofs::Numbered::small_none))]
pub(crate) fn number(alloc: Global, marks: &[bool], count: usize) -> Result<Numbering, Refused>
    requires { count ≤ 4194304 }
    ensures few { IfOk result (λ n. length n.kept ≤ count) }
    ensures small { IfOk result (λ n. IsSmall n.numbers) }
    ensures kept_small { IfOk result (λ n. IsSmall n.kept) }
    ensures numbered { IfOk result (λ n. AreNumbersTo marks.now n.kept n.numbers count) }
{
    let mut numbers = filled(alloc, 0, count)?;
    let kept = number_all(alloc, marks, numbers.as_mut_slice())?;
    Ok(Numbering {
        numbers: Seq::from_vec(numbers),
        kept: Seq::from_vec(kept),
    })
}

/// What the table has for a variable.
fn entry(table: &[u32], variable: u32) -> u32
    requires { IsSmall table.now }
    ensures entry { result ≡ entry_of table.now variable }
    ensures small { result ≤ 4194303 }
{
    match table.get(variable as usize) {
        Some(entry) => *entry,
        None => 0,
    }
}

/// The literal of the variable that the table has for the literal's own, negated where the literal is.
pub(crate) fn rename(table: &[u32], lit: Lit) -> Lit
    requires { IsSmall table.now }
    ensures { result ≡ renamed table.now lit }
{
    Lit(2 * entry(table, lit.variable()) + lit.0 % 2)
}
