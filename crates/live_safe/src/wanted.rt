//! The literals that a justice property wants.

ghost use Rattle.std.specs.Prelude.{◌≡◌, ◌<◌, ◌≤◌, length, IfOk};
ghost use Rattle.graph.specs.Circuits.{wanted_of};
ghost use Rattle.graph.specs.WellFormed.{IsWellFormed};

use base::{Refused, copied, extend};
use graph::{Lit, Parts};
use std::alloc::Global;

/// How many there are. A property that isn't there wants the fairness literals alone.
pub fn wanted_count(parts: &Parts, position: u32) -> usize
    requires { IsWellFormed parts.now }
    ensures count { result ≡ length (wanted_of parts.now position) }
    ensures few { result ≤ 8388606 }
{
    let own = match parts.justice.as_slice().get(position as usize) {
        Some(lits) => lits.len(),
        None => 0,
    };
    own + parts.fairness.len()
}

/// The property's literals, then the fairness literals.
pub fn wanted_literals(alloc: Global, parts: &Parts, position: u32) -> Result<Vec<Lit>, Refused>
    requires { position < length parts.now.justice }
    ensures { IfOk result (λ v. v.items ≡ wanted_of parts.now position) }
{
    let lits = &parts.justice.as_slice()[position as usize];
    let mut wanted = copied(alloc, lits.as_slice())?;
    extend(&mut wanted, parts.fairness.as_slice())?;
    Ok(wanted)
}
