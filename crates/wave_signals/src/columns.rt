//! The values of bits at each time of a replay.

ghost use Rattle.std.specs.Prelude.{◌≡◌, ◌≤◌, ◌++◌, All, Some, IsSome, IfOk, OnOk, length};
ghost use Rattle.graph.specs.Circuits.{Valuation, variable};
ghost use Rattle.wave_signals.specs.Columns.{HasValues, known_at};

use crate::bits::Bit;
use base::{Refused, Seq, push};
use simulate::Replay;
use std::alloc::Global;

/// Adds the values of the bits at the time stepped last.
fn push_values(
    values: &mut Vec<Option<bool>>,
    replay: &Replay<'_>,
    bits: &[Bit<'_>],
) -> Result<(), Refused>
    requires stepped { IsSome replay.now.now }
    requires in_range { All (λ b. variable b.lit ≤ replay.now.circuit.max_var) bits.now }
    ensures { OnOk result ((w : Valuation) → replay.now.now ≡ Some w → values.new.items ≡ values.old.items ++ known_at bits.now w) }
{
    for bit in bits {
        push(values, Some(replay.value(bit.lit)))?;
    }
    Ok(())
}

/// Steps all lines: the values of the bits at each time, time after time.
pub fn play(
    alloc: Global,
    replay: &mut Replay<'_>,
    bits: &[Bit<'_>],
    lines: &[Seq<bool>],
) -> Result<Vec<Option<bool>>, Refused>
    requires lines_fit { All (λ line. length line ≡ length replay.old.circuit.inputs) lines.now }
    requires in_range { All (λ b. variable b.lit ≤ replay.old.circuit.max_var) bits.now }
    ensures { IfOk result (λ v. HasValues replay.old.circuit replay.old.state lines.now bits.now (length lines.now) replay.new v.items) }
{
    let mut values = Vec::new(alloc);
    for line in lines {
        replay.step(line.as_slice());
        push_values(&mut values, replay, bits)?;
    }
    Ok(values)
}
