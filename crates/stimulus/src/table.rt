//! Tables of the values in a replay.

ghost use Rattle.std.specs.Prelude.{◌≡◌, ◌≢◌, ◌≤◌, ◌+◌, ◌-◌, ◌^◌, ◌<◌, List, [], All, length, map, Some, IsSome, IfErr, OnOk, OnErr, flat_map, Option, ℕ};
ghost use Rattle.base.specs.Devices.{CountsFailure, Puts, PutsBeginning};
ghost use Rattle.graph.specs.Circuits.{Valuation, inputs_of, value_of, variable};
ghost use Rattle.simulate.specs.Starts.{Starts};
ghost use Rattle.stimulus.specs.Causes.{IsPlayable};
ghost use Rattle.stimulus.specs.Courses.{Course, IsAt};
ghost use Rattle.stimulus.specs.Rows.{PutsReplay, PutsRow, PutsRows};
ghost use Rattle.stimulus.specs.Shown.{IsReplay};
ghost use Rattle.stimulus.specs.Tables.{HasSimCause, HasSimCauseIn, PutsTable, digits_text, field_text, row_text, rows_text, table_text, time_text, values_text};
ghost use Rattle.stimulus.specs.Texts.{value_text};

use crate::lines::wrong_line;
use crate::sim_error::SimError;
use crate::value::Stimulus;
use crate::writing::{put_value, put_values};
use base::{Failed, Seq, Sink, put_all};
use graph::{Lit, Model, Parts};
use itoa::Buffer;
use simulate::Replay;
use std::alloc::Global;

/// Puts the values, or `-` where there are none.
fn put_digits<W: Sink>(out: &mut W, values: &[bool]) -> Result<(), Failed>
    requires { W.failed out.old < 2 ^ 64 - 1 }
    ensures puts { Puts result (W.contents out.old) (W.contents out.new) (digits_text values.now) }
    ensures counts { CountsFailure (W.failed out.old) (W.failed out.new) result }
{
    if values.is_empty() {
        return put_all(out, b"-");
    }
    put_values(out, values)
}

/// Puts a space and the values.
fn put_field<W: Sink>(out: &mut W, values: &[bool]) -> Result<(), Failed>
    requires { W.failed out.old < 2 ^ 64 - 1 }
    ensures puts { Puts result (W.contents out.old) (W.contents out.new) (field_text values.now) }
    ensures counts { CountsFailure (W.failed out.old) (W.failed out.new) result }
{
    put_all(out, b" ")?;
    put_digits(out, values)
}

/// Puts the values of literals at the time stepped last.
fn put_literals<W: Sink>(out: &mut W, replay: &Replay<'_>, lits: &[Lit]) -> Result<(), Failed>
    requires sink { W.failed out.old < 2 ^ 64 - 1 }
    requires stepped { IsSome replay.now.now }
    requires in_range { All (λ a. variable a ≤ replay.now.circuit.max_var) lits.now }
    ensures puts { (w : Valuation) → replay.now.now ≡ Some w → Puts result (W.contents out.old) (W.contents out.new) (flat_map (λ a. value_text (value_of w a)) lits.now) }
    ensures counts { CountsFailure (W.failed out.old) (W.failed out.new) result }
{
    for lit in lits {
        put_value(out, replay.value(*lit))?;
    }
    Ok(())
}

/// Puts a space and the values of literals at the time stepped last, or `-` where there are none.
fn put_literal_field<W: Sink>(out: &mut W, replay: &Replay<'_>, lits: &[Lit]) -> Result<(), Failed>
    requires sink { W.failed out.old < 2 ^ 64 - 1 }
    requires stepped { IsSome replay.now.now }
    requires in_range { All (λ a. variable a ≤ replay.now.circuit.max_var) lits.now }
    ensures puts { (w : Valuation) → replay.now.now ≡ Some w → Puts result (W.contents out.old) (W.contents out.new) (field_text (map (value_of w) lits.now)) }
    ensures counts { CountsFailure (W.failed out.old) (W.failed out.new) result }
{
    if lits.is_empty() {
        return put_all(out, b" -");
    }
    put_all(out, b" ")?;
    put_literals(out, replay, lits)
}

/// Puts a time and the state at it.
fn put_time<W: Sink>(out: &mut W, time: u64, state: &[bool]) -> Result<(), Failed>
    requires { W.failed out.old < 2 ^ 64 - 1 }
    ensures puts { Puts result (W.contents out.old) (W.contents out.new) (time_text time state.now) }
    ensures counts { CountsFailure (W.failed out.old) (W.failed out.new) result }
{
    let mut buffer = Buffer::new();
    put_all(out, buffer.format(time).as_bytes())?;
    put_field(out, state)
}

/// Puts the inputs, the outputs and the bad literals at the time stepped last, and a line end.
fn put_rest<W: Sink>(
    out: &mut W,
    parts: &Parts,
    replay: &Replay<'_>,
    line: &[bool],
) -> Result<(), Failed>
    requires sink { W.failed out.old < 2 ^ 64 - 1 }
    requires stepped { IsSome replay.now.now }
    requires outputs { All (λ a. variable a ≤ replay.now.circuit.max_var) parts.now.outputs }
    requires bad { All (λ a. variable a ≤ replay.now.circuit.max_var) parts.now.bad }
    ensures puts { (w : Valuation) → replay.now.now ≡ Some w → inputs_of parts.now w ≡ line.now → Puts result (W.contents out.old) (W.contents out.new) (values_text parts.now w) }
    ensures counts { CountsFailure (W.failed out.old) (W.failed out.new) result }
{
    put_field(out, line)?;
    put_literal_field(out, replay, parts.outputs.as_slice())?;
    put_literal_field(out, replay, parts.bad.as_slice())?;
    put_all(out, b"\n")
}

/// Steps one line, and puts its row.
fn put_row<W: Sink>(
    out: &mut W,
    circuit: &Model,
    replay: &mut Replay<'_>,
    time: u64,
    line: &[bool],
) -> Result<(), Failed>
    requires sink { W.failed out.old < 2 ^ 64 - 1 }
    requires circuit { replay.old.circuit ≡ circuit.now }
    requires line_fits { length line.now ≡ length circuit.now.inputs }
    ensures row { OnOk result (PutsRow circuit.now replay.old replay.new line.now time (W.contents out.old) (W.contents out.new)) }
    ensures beginning { OnErr result ((w : Valuation) → IsAt circuit.now replay.old.state line.now w → PutsBeginning (W.contents out.old) (W.contents out.new) (row_text circuit.now time w)) }
    ensures counts { CountsFailure (W.failed out.old) (W.failed out.new) result }
{
    put_time(out, time, replay.state())?;
    replay.step(line);
    put_rest(out, circuit.parts(), replay, line)
}

/// Steps the lines, and puts the row of each.
fn put_rows<W: Sink>(
    out: &mut W,
    circuit: &Model,
    replay: &mut Replay<'_>,
    lines: &[Seq<bool>],
) -> Result<(), Failed>
    requires sink { W.failed out.old < 2 ^ 64 - 1 }
    requires circuit { replay.old.circuit ≡ circuit.now }
    requires lines_fit { All (λ line. length line ≡ length circuit.now.inputs) lines.now }
    ensures rows { OnOk result (PutsRows circuit.now replay.old.state lines.now (length lines.now) replay.new (W.contents out.old) (W.contents out.new)) }
    ensures beginning { OnErr result ((x : List Valuation) → Course circuit.now replay.old.state lines.now x → PutsBeginning (W.contents out.old) (W.contents out.new) (rows_text circuit.now 0 x)) }
    ensures counts { CountsFailure (W.failed out.old) (W.failed out.new) result }
{
    for (t, line) in lines.iter().enumerate() {
        put_row(out, circuit, replay, t as u64, line.as_slice())?;
    }
    Ok(())
}

/// Steps all lines, and puts the table.
fn put_replay<W: Sink>(
    out: &mut W,
    circuit: &Model,
    replay: &mut Replay<'_>,
    lines: &[Seq<bool>],
) -> Result<(), Failed>
    requires sink { W.failed out.old < 2 ^ 64 - 1 }
    requires circuit { replay.old.circuit ≡ circuit.now }
    requires lines_fit { All (λ line. length line ≡ length circuit.now.inputs) lines.now }
    requires some { lines.now ≢ [] }
    ensures table { OnOk result (PutsReplay circuit.now replay.old.state lines.now (W.contents out.old) (W.contents out.new)) }
    ensures beginning { OnErr result ((x : List Valuation) → IsReplay circuit.now replay.old.state lines.now x → PutsBeginning (W.contents out.old) (W.contents out.new) (table_text circuit.now x)) }
    ensures counts { CountsFailure (W.failed out.old) (W.failed out.new) result }
{
    put_rows(out, circuit, replay, lines)?;
    put_time(out, lines.len() as u64, replay.state())?;
    put_all(out, b"\n")
}

/// Whether the lines have their lengths, and there is an input line.
pub fn check_playable(parts: &Parts, initial: &[bool], inputs: &[Seq<bool>]) -> Result<(), SimError>
    ensures playable { OnOk result (IsPlayable parts.now initial.now inputs.now) }
    ensures refused { IfErr result (λ e. (e ≢ SimError.Device) × ((before after : Option (List ℕ)) → HasSimCauseIn parts.now initial.now inputs.now before after e)) }
{
    if let Some(line) = wrong_line(parts, initial, inputs) {
        return Err(SimError::LineLength { line });
    }
    if inputs.is_empty() {
        return Err(SimError::NoInputLine);
    }
    Ok(())
}

/// Puts the table of the replay of these lines.
fn put_violated<W: Sink>(
    alloc: Global,
    circuit: &Model,
    initial: &[bool],
    inputs: &[Seq<bool>],
    out: &mut W,
) -> Result<(), SimError>
    requires { W.failed out.old < 2 ^ 64 - 1 }
    ensures put { OnOk result (PutsReplay circuit.now initial.now inputs.now (W.contents out.old) (W.contents out.new)) }
    ensures starts { OnOk result (Starts circuit.now.latches initial.now) }
    ensures refused { IfErr result (HasSimCauseIn circuit.now initial.now inputs.now (W.contents out.old) (W.contents out.new)) }
    ensures kept { OnOk result (W.failed out.new ≡ W.failed out.old) }
    ensures device { IfErr result (λ e. e ≡ SimError.Device → W.failed out.new ≡ W.failed out.old + 1) }
    ensures untouched { IfErr result (λ e. e ≢ SimError.Device → out.new ≡ out.old) }
{
    check_playable(circuit.parts(), initial, inputs)?;
    let mut replay = Replay::new(alloc, circuit, initial)?;
    put_replay(out, circuit, &mut replay, inputs)?;
    Ok(())
}

/// Puts the table of a stimulus's replay: for each time a line `TIME STATE INPUTS OUTPUTS BAD`, with
/// one space between, each list as digits 0 and 1 and an empty list as `-`; then a line `TIME STATE`
/// for the state after the last line. It looks neither at the constraints nor at the property.
///
/// It refuses the first of no violation (65), a line's length (66), no input line (64) and a latch
/// against its reset (60), with nothing put. Each row is put as its line is stepped: it takes memory
/// for a state and a valuation, and after a failure of the sink a beginning of the table was put.
pub fn put_table<W: Sink>(
    alloc: Global,
    circuit: &Model,
    stimulus: &Stimulus,
    out: &mut W,
) -> Result<(), SimError>
    requires { W.failed out.old < 2 ^ 64 - 1 }
    ensures table { OnOk result (PutsTable circuit.now stimulus.now (W.contents out.old) (W.contents out.new)) }
    ensures refused { IfErr result (HasSimCause circuit.now stimulus.now (W.contents out.old) (W.contents out.new)) }
    ensures kept { OnOk result (W.failed out.new ≡ W.failed out.old) }
    ensures device { IfErr result (λ e. e ≡ SimError.Device → W.failed out.new ≡ W.failed out.old + 1) }
    ensures untouched { IfErr result (λ e. e ≢ SimError.Device → out.new ≡ out.old) }
{
    match stimulus {
        Stimulus::Violated {
            initial,
            inputs,
            ..
        } => put_violated(alloc, circuit, initial.as_slice(), inputs.as_slice(), out),
        _ => Err(SimError::NotViolated),
    }
}
