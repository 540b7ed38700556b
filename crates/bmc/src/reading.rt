//! Runs, read from the values of a model.

ghost use Rattle.std.specs.Prelude.{◌≡◌, ◌+◌, ◌<◌, length, map, All, IfOk, unsigned_abs};
ghost use Rattle.lrat.specs.Literals.{IsLiteral, is_true};
ghost use Rattle.solver.specs.Answers.{values as values_of};
ghost use Rattle.unrolling.specs.Cones.{IsConeOf};
ghost use Rattle.bmc.specs.Lines.{IsLine, AreLines};

use base::{Refused, Seq, filled};
use graph::Model;
use std::alloc::Global;
use unrolling::Cone;

/// Whether the literal is true.
fn value(values: &[bool], literal: i32) -> bool
    requires literal { IsLiteral (length values.now) literal }
    requires inside { unsigned_abs literal < length values.now }
    ensures { result ≡ is_true (values_of values.now) literal }
{
    values[literal.unsigned_abs() as usize] == (literal > 0)
}

/// The values of the literals.
pub fn state_of(alloc: Global, values: &[bool], literals: &[i32]) -> Result<Seq<bool>, Refused>
    requires { All (λ l. IsLiteral (length values.now) l × (unsigned_abs l < length values.now)) literals.now }
    ensures { IfOk result (λ s. s ≡ map (is_true (values_of values.now)) literals.now) }
{
    let mut state = Seq::new(alloc);
    for literal in literals {
        state.push(value(values, *literal))?;
    }
    Ok(state)
}

/// The values of the circuit's inputs at the time whose inputs have the variables behind the first
/// ones. An input outside of the cone is false.
fn line(
    alloc: Global,
    circuit: &Model,
    cone: &Cone,
    values: &[bool],
    first: u32,
) -> Result<Seq<bool>, Refused>
    requires cone { IsConeOf circuit.now cone.now }
    requires fits { first + length cone.now.inputs.items < length values.now }
    ensures { IfOk result (IsLine circuit.now cone.now values.now first) }
{
    circuit.well_formed();
    let mut line = filled(alloc, false, circuit.inputs().len())?;
    for (index, position) in cone.inputs.iter().enumerate() {
        line[*position as usize] = values[first as usize + 1 + index];
    }
    Ok(Seq::from_vec(line))
}

/// The values of the circuit's inputs at each time.
pub fn lines(
    alloc: Global,
    circuit: &Model,
    cone: &Cone,
    values: &[bool],
    firsts: &[u32],
) -> Result<Seq<Seq<bool>>, Refused>
    requires cone { IsConeOf circuit.now cone.now }
    requires fits { All (λ first. first + length cone.now.inputs.items < length values.now) firsts.now }
    ensures { IfOk result (AreLines circuit.now cone.now values.now firsts.now) }
{
    let mut lines = Seq::new(alloc);
    for first in firsts {
        lines.push(line(alloc, circuit, cone, values, *first)?)?;
    }
    Ok(lines)
}
