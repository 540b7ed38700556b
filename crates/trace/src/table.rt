//! Traces: a line for each signal, with a value for each time, in columns.

ghost use Rattle.std.specs.Prelude.{◌≡◌, ◌≢◌, ◌≤◌, ◌+◌, ◌*◌, ◌-◌, ◌^◌, ◌<◌, List, All, Some, length, map, IfErr, OnOk, flat_map};
ghost use Rattle.std.specs.Io.KnownBytes.{Appends};
ghost use Rattle.base.specs.Devices.{CountsFailure, Puts};
ghost use Rattle.wave_signals.specs.Columns.{rows_of};
ghost use Rattle.wave_signals.specs.declared.signals.Signal.{Signal as ASignal};
ghost use Rattle.wave_signals.specs.Signals.{signal_name};
ghost use Rattle.trace.specs.OpenTraces.{HasOpenTraceCause, PutsOpenTrace};
ghost use Rattle.trace.specs.Traces.{HasTraceCause, HasTraceCauseIn, PutsTrace, PutsTraceIn, IsCutShort, cell_text, loop_text, names_width as width_of_names, number_cell, row_text, trace_text, values_width};
ghost use Rattle.trace.specs.Widths.{at_left};

use crate::lines::lines_of;
use crate::widths::{names_width, put_spaces, values_widths};
use base::{Failed, Seq, Sink, put_all};
use bit_numbers::{number_length, put_number};
use graph::{AigerFile, Property};
use signal_values::SignalValues;
use std::alloc::Global;
use stimulus::{SimError, Stimulus};
use wave_signals::{Bit, Signal, put_counted, put_signal_name, signal_name_length};

/// Puts the name of a signal of these bits in a column of this width.
fn put_name<W: Sink>(out: &mut W, bits: &[Bit<'_>], width: usize) -> Result<(), Failed>
    requires { W.failed out.old < 2 ^ 64 - 1 }
    ensures puts { Puts result (W.contents out.old) (W.contents out.new) (at_left width (signal_name bits.now)) }
    ensures counts { CountsFailure (W.failed out.old) (W.failed out.new) result }
{
    put_signal_name(out, bits)?;
    put_spaces(out, width.saturating_sub(signal_name_length(bits)))
}

/// Puts a space, and the number of some bits in a column of this width.
fn put_value<W: Sink>(out: &mut W, bits: &[Option<bool>], width: usize) -> Result<(), Failed>
    requires { W.failed out.old < 2 ^ 64 - 1 }
    ensures puts { Puts result (W.contents out.old) (W.contents out.new) (number_cell width bits.now) }
    ensures counts { CountsFailure (W.failed out.old) (W.failed out.new) result }
{
    put_all(out, b" ")?;
    put_spaces(out, width.saturating_sub(number_length(bits)))?;
    put_number(out, bits)
}

/// Puts the values of a signal, one for each time, in columns of these widths. `values` has those of all bits, time
/// after time.
fn put_values<W: Sink>(
    out: &mut W,
    bits: &[Bit<'_>],
    signal: Signal,
    values: &[Option<bool>],
    widths: &[usize],
) -> Result<(), Failed>
    requires sink { W.failed out.old < 2 ^ 64 - 1 }
    requires inside { (signal.first < signal.end) × (signal.end ≤ length bits.now) }
    requires values { length values.now ≡ length widths.now * length bits.now }
    ensures puts { (signals : List ASignal) → widths.now ≡ map (values_width signals) (rows_of (length bits.now) (length widths.now) values.now) → Puts result (W.contents out.old) (W.contents out.new) (flat_map (cell_text signals signal) (rows_of (length bits.now) (length widths.now) values.now)) }
    ensures counts { CountsFailure (W.failed out.old) (W.failed out.new) result }
{
    let mut rest = values;
    for width in widths {
        let (now, later) = rest.split_at(bits.len());
        put_value(out, &now[signal.first..signal.end], *width)?;
        rest = later;
    }
    Ok(())
}

/// Puts the line of a signal: its name, its value at each time, and a line end.
fn put_row<W: Sink>(
    out: &mut W,
    bits: &[Bit<'_>],
    signal: Signal,
    values: &[Option<bool>],
    names: usize,
    widths: &[usize],
) -> Result<(), Failed>
    requires sink { W.failed out.old < 2 ^ 64 - 1 }
    requires inside { (signal.first < signal.end) × (signal.end ≤ length bits.now) }
    requires values { length values.now ≡ length widths.now * length bits.now }
    ensures puts { (signals : List ASignal) → names ≡ width_of_names bits.now signals → widths.now ≡ map (values_width signals) (rows_of (length bits.now) (length widths.now) values.now) → Puts result (W.contents out.old) (W.contents out.new) (row_text bits.now signals (rows_of (length bits.now) (length widths.now) values.now) signal) }
    ensures counts { CountsFailure (W.failed out.old) (W.failed out.new) result }
{
    put_name(out, &bits[signal.first..signal.end], names)?;
    put_values(out, bits, signal, values, widths)?;
    put_all(out, b"\n")
}

/// Puts the line of each signal.
fn put_rows<W: Sink>(
    out: &mut W,
    bits: &[Bit<'_>],
    signals: &[Signal],
    values: &[Option<bool>],
    widths: &[usize],
) -> Result<(), Failed>
    requires sink { W.failed out.old < 2 ^ 64 - 1 }
    requires inside { All (λ s. (s.first < s.end) × (s.end ≤ length bits.now)) signals.now }
    requires values { length values.now ≡ length widths.now * length bits.now }
    ensures puts { widths.now ≡ map (values_width signals.now) (rows_of (length bits.now) (length widths.now) values.now) → Puts result (W.contents out.old) (W.contents out.new) (flat_map (row_text bits.now signals.now (rows_of (length bits.now) (length widths.now) values.now)) signals.now) }
    ensures counts { CountsFailure (W.failed out.old) (W.failed out.new) result }
{
    let names = names_width(bits, signals);
    for signal in signals {
        put_row(out, bits, *signal, values, names, widths)?;
    }
    Ok(())
}

/// Puts the line that tells that the loop begins at this time.
fn put_loop_line<W: Sink>(out: &mut W, time: usize) -> Result<(), Failed>
    requires { W.failed out.old < 2 ^ 64 - 1 }
    ensures puts { Puts result (W.contents out.old) (W.contents out.new) (loop_text (Some time)) }
    ensures counts { CountsFailure (W.failed out.old) (W.failed out.new) result }
{
    put_counted(out, b"loop ", time as u64)?;
    put_all(out, b"\n")
}

/// Puts the line that tells where the loop begins, where there is one.
fn put_loop<W: Sink>(out: &mut W, start: Option<usize>) -> Result<(), Failed>
    requires { W.failed out.old < 2 ^ 64 - 1 }
    ensures puts { Puts result (W.contents out.old) (W.contents out.new) (loop_text start) }
    ensures counts { CountsFailure (W.failed out.old) (W.failed out.new) result }
{
    match start {
        None => Ok(()),
        Some(time) => put_loop_line(out, time),
    }
}

/// Puts the line of each signal, and the loop.
fn put_table<W: Sink>(
    out: &mut W,
    bits: &[Bit<'_>],
    signals: &[Signal],
    values: &[Option<bool>],
    widths: &[usize],
    start: Option<usize>,
) -> Result<(), Failed>
    requires sink { W.failed out.old < 2 ^ 64 - 1 }
    requires inside { All (λ s. (s.first < s.end) × (s.end ≤ length bits.now)) signals.now }
    requires values { length values.now ≡ length widths.now * length bits.now }
    ensures puts { widths.now ≡ map (values_width signals.now) (rows_of (length bits.now) (length widths.now) values.now) → Puts result (W.contents out.old) (W.contents out.new) (trace_text bits.now signals.now (rows_of (length bits.now) (length widths.now) values.now) start) }
    ensures counts { CountsFailure (W.failed out.old) (W.failed out.new) result }
{
    put_rows(out, bits, signals, values, widths)?;
    put_loop(out, start)
}

/// Puts the trace of these values at this number of times.
fn put_shown<W: Sink>(
    alloc: Global,
    shown: &SignalValues<'_>,
    times: usize,
    out: &mut W,
) -> Result<(), SimError>
    requires sink { W.failed out.old < 2 ^ 64 - 1 }
    requires inside { All (λ s. (s.first < s.end) × (s.end ≤ length shown.now.bits.items)) shown.now.signals.items }
    requires values { length shown.now.values.items ≡ times * length shown.now.bits.items }
    ensures put { OnOk result (Appends (W.contents out.old) (W.contents out.new) (trace_text shown.now.bits.items shown.now.signals.items (rows_of (length shown.now.bits.items) times shown.now.values.items) shown.now.start)) }
    ensures cut { IfErr result (IsCutShort (W.contents out.old) (W.contents out.new) (trace_text shown.now.bits.items shown.now.signals.items (rows_of (length shown.now.bits.items) times shown.now.values.items) shown.now.start)) }
    ensures kept { OnOk result (W.failed out.new ≡ W.failed out.old) }
    ensures device { IfErr result (λ e. e ≡ SimError.Device → W.failed out.new ≡ W.failed out.old + 1) }
    ensures untouched { IfErr result (λ e. e ≢ SimError.Device → out.new ≡ out.old) }
{
    let widths = values_widths(alloc, &shown.bits, &shown.signals, &shown.values, times)?;
    put_table(
        out,
        &shown.bits,
        &shown.signals,
        &shown.values,
        &widths,
        shown.start,
    )?;
    Ok(())
}

/// Puts the trace of these lines.
fn put_violated<W: Sink>(
    alloc: Global,
    file: &AigerFile,
    property: Property,
    initial: &[bool],
    inputs: &[Seq<bool>],
    all: bool,
    out: &mut W,
) -> Result<(), SimError>
    requires { W.failed out.old < 2 ^ 64 - 1 }
    ensures put { OnOk result (PutsTraceIn file.now all property initial.now inputs.now (W.contents out.old) (W.contents out.new)) }
    ensures refused { IfErr result (HasTraceCauseIn file.now all property initial.now inputs.now (W.contents out.old) (W.contents out.new)) }
    ensures kept { OnOk result (W.failed out.new ≡ W.failed out.old) }
    ensures device { IfErr result (λ e. e ≡ SimError.Device → W.failed out.new ≡ W.failed out.old + 1) }
    ensures untouched { IfErr result (λ e. e ≢ SimError.Device → out.new ≡ out.old) }
{
    let shown = SignalValues::new(alloc, file, property, initial, inputs, all)?;
    put_shown(alloc, &shown, inputs.len(), out)
}

/// Puts the trace of a stimulus's replay: for each signal a line `NAME VALUE VALUE ..`, with a value for each time.
/// Signals are in the order inputs, latches, outputs, bad literals, constraints and fairness literals, each kind by its
/// names. Without `all`, names that begin with a dollar sign are left out. A value is in decimal, or where a vector has
/// more than 64 bits in hexadecimal behind `0x`. Names are put as they are, so a name may hold spaces. Behind each name
/// are spaces up to the length of the longest, and before each value up to that of the longest at its time.
///
/// Where the replay closes a lasso of a justice property, the last line is `loop TIME`, with the first time at which it
/// begins. It looks neither at the constraints nor, apart from that, at the property.
///
/// It refuses the first of no violation (65), a line's length (66), no input line (64) and a latch against its reset
/// (60), with nothing put. After a failure of the sink a beginning of the trace was put.
pub fn put_trace<W: Sink>(
    alloc: Global,
    file: &AigerFile,
    stimulus: &Stimulus,
    all: bool,
    out: &mut W,
) -> Result<(), SimError>
    requires { W.failed out.old < 2 ^ 64 - 1 }
    ensures trace { OnOk result (PutsTrace file.now all stimulus.now (W.contents out.old) (W.contents out.new)) }
    ensures refused { IfErr result (HasTraceCause file.now all stimulus.now (W.contents out.old) (W.contents out.new)) }
    ensures kept { OnOk result (W.failed out.new ≡ W.failed out.old) }
    ensures device { IfErr result (λ e. e ≡ SimError.Device → W.failed out.new ≡ W.failed out.old + 1) }
    ensures untouched { IfErr result (λ e. e ≢ SimError.Device → out.new ≡ out.old) }
{
    let (property, initial, inputs) = lines_of(stimulus)?;
    put_violated(alloc, file, property, initial, inputs, all, out)
}

/// Puts the trace of all replays that have what is given of the first state and of the lines: a value is put where it
/// is known, so where it is the same in each of them. An open bit is `x`, and a vector with an open bit is in binary
/// behind `0b`, the highest bit first. Otherwise the text is that of `put_trace`; no loop is told.
///
/// It refuses the first of a line's length (66), no input line (64) and a latch that is given against its reset (60),
/// with nothing put. After a failure of the sink a beginning of the trace was put.
pub fn put_open_trace<W: Sink>(
    alloc: Global,
    file: &AigerFile,
    initial: &[Option<bool>],
    inputs: &[Seq<Option<bool>>],
    all: bool,
    out: &mut W,
) -> Result<(), SimError>
    requires { W.failed out.old < 2 ^ 64 - 1 }
    ensures trace { OnOk result (PutsOpenTrace file.now all initial.now inputs.now (W.contents out.old) (W.contents out.new)) }
    ensures refused { IfErr result (HasOpenTraceCause file.now all initial.now inputs.now (W.contents out.old) (W.contents out.new)) }
    ensures kept { OnOk result (W.failed out.new ≡ W.failed out.old) }
    ensures device { IfErr result (λ e. e ≡ SimError.Device → W.failed out.new ≡ W.failed out.old + 1) }
    ensures untouched { IfErr result (λ e. e ≢ SimError.Device → out.new ≡ out.old) }
{
    let shown = SignalValues::open(alloc, file, initial, inputs, all)?;
    put_shown(alloc, &shown, inputs.len(), out)
}
