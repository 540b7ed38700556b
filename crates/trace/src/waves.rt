//! Waveforms: a replay as a value change dump.

ghost use Rattle.std.specs.Prelude.{◌≡◌, ◌≢◌, ◌≤◌, ◌+◌, ◌*◌, ◌-◌, ◌^◌, ◌<◌, ◌++◌, All, length, IfOk, IfErr, OnOk};
ghost use Rattle.std.specs.Io.KnownBytes.{Appends};
ghost use Rattle.wave_signals.specs.Columns.{rows_of};
ghost use Rattle.trace.specs.OpenTraces.{HasOpenWaveCause, PutsOpenWave};
ghost use Rattle.trace.specs.Traces.{IsCutShort};
ghost use Rattle.trace.specs.Waves.{HasWaveCause, HasWaveCauseIn, PutsWave, PutsWaveIn, comment_text, head_text, wave_text};

use crate::lines::lines_of;
use base::{Refused, Seq, Sink, extend, put_all};
use graph::{AigerFile, Property};
use signal_values::SignalValues;
use std::alloc::Global;
use stimulus::{SimError, Stimulus};
use wave_signals::{Bit, Signal};
use wave_texts::{push_number, push_times, push_variables};

/// Adds the comment that tells where the loop begins.
fn push_comment(text: &mut Vec<u8>, start: Option<usize>) -> Result<(), Refused>
    ensures { OnOk result (text.new.items ≡ text.old.items ++ comment_text start) }
{
    let Some(time) = start else {
        return Ok(());
    };
    extend(text, b"$comment loop ")?;
    push_number(text, time as u64)?;
    extend(text, b" $end\n")?;
    Ok(())
}

/// Adds what comes before the first time.
fn push_head(
    text: &mut Vec<u8>,
    bits: &[Bit<'_>],
    signals: &[Signal],
    start: Option<usize>,
) -> Result<(), Refused>
    requires { All (λ s. (s.first < s.end) × (s.end ≤ length bits.now)) signals.now }
    ensures { OnOk result (text.new.items ≡ text.old.items ++ head_text bits.now signals.now start) }
{
    extend(text, b"$timescale 1 ns $end\n")?;
    push_variables(text, bits, signals)?;
    push_comment(text, start)?;
    extend(text, b"$enddefinitions $end\n")?;
    Ok(())
}

/// The waveform of the values of all bits at this number of times, time after time.
fn wave(
    alloc: Global,
    bits: &[Bit<'_>],
    signals: &[Signal],
    values: &[Option<bool>],
    times: usize,
    start: Option<usize>,
) -> Result<Vec<u8>, Refused>
    requires inside { All (λ s. (s.first < s.end) × (s.end ≤ length bits.now)) signals.now }
    requires values { length values.now ≡ times * length bits.now }
    ensures { IfOk result (λ v. v.items ≡ wave_text bits.now signals.now (rows_of (length bits.now) times values.now) start) }
{
    let mut text = Vec::new(alloc);
    push_head(&mut text, bits, signals, start)?;
    push_times(&mut text, bits, signals, values, times)?;
    Ok(text)
}

/// Puts the waveform of these values at this number of times.
fn put_shown<W: Sink>(
    alloc: Global,
    shown: &SignalValues<'_>,
    times: usize,
    out: &mut W,
) -> Result<(), SimError>
    requires sink { W.failed out.old < 2 ^ 64 - 1 }
    requires inside { All (λ s. (s.first < s.end) × (s.end ≤ length shown.now.bits.items)) shown.now.signals.items }
    requires values { length shown.now.values.items ≡ times * length shown.now.bits.items }
    ensures put { OnOk result (Appends (W.contents out.old) (W.contents out.new) (wave_text shown.now.bits.items shown.now.signals.items (rows_of (length shown.now.bits.items) times shown.now.values.items) shown.now.start)) }
    ensures cut { IfErr result (IsCutShort (W.contents out.old) (W.contents out.new) (wave_text shown.now.bits.items shown.now.signals.items (rows_of (length shown.now.bits.items) times shown.now.values.items) shown.now.start)) }
    ensures kept { OnOk result (W.failed out.new ≡ W.failed out.old) }
    ensures device { IfErr result (λ e. e ≡ SimError.Device → W.failed out.new ≡ W.failed out.old + 1) }
    ensures untouched { IfErr result (λ e. e ≢ SimError.Device → out.new ≡ out.old) }
{
    let text = wave(
        alloc,
        &shown.bits,
        &shown.signals,
        &shown.values,
        times,
        shown.start,
    )?;
    put_all(out, text.as_slice())?;
    Ok(())
}

/// Puts the waveform of these lines.
fn put_violated<W: Sink>(
    alloc: Global,
    file: &AigerFile,
    property: Property,
    initial: &[bool],
    inputs: &[Seq<bool>],
    all: bool,
    out: &mut W,
) -> Result<(), SimError>
    requires { W.failed out.old < 2 ^ 64 - 1 }
    ensures put { OnOk result (PutsWaveIn file.now all property initial.now inputs.now (W.contents out.old) (W.contents out.new)) }
    ensures refused { IfErr result (HasWaveCauseIn file.now all property initial.now inputs.now (W.contents out.old) (W.contents out.new)) }
    ensures kept { OnOk result (W.failed out.new ≡ W.failed out.old) }
    ensures device { IfErr result (λ e. e ≡ SimError.Device → W.failed out.new ≡ W.failed out.old + 1) }
    ensures untouched { IfErr result (λ e. e ≢ SimError.Device → out.new ≡ out.old) }
{
    let shown = SignalValues::new(alloc, file, property, initial, inputs, all)?;
    put_shown(alloc, &shown, inputs.len(), out)
}

/// Puts a stimulus's replay as a value change dump (IEEE 1364), which viewers of waveforms read. It has a variable for
/// each signal, in the order of `put_trace`, and without `all` none whose name begins with a dollar sign.
///
/// A name `a.b.c` is the variable `c` in the scope `b` of the scope `a`. A vector has its indices behind its name, the
/// greatest first. The code of a variable is the letter of its kind and the position of its lowest bit, as `l3`; where
/// there is no symbol it is the name too. In names a byte that is no printable character of ASCII is put as `_`, an
/// empty part as `_`, and a part that begins with a dollar sign gets a backslash before it.
///
/// Time `t` of the replay is time `t` of the dump, a nanosecond each; at time 0 each variable has its value, and at
/// each later time those that changed. The last line is the time after the last, so that the last values last as long
/// as the others. It has no date.
///
/// Where the replay closes a lasso of a justice property, the last declaration is `$comment loop TIME $end`, with the
/// first time at which it begins. It looks neither at the constraints nor, apart from that, at the property.
///
/// The text is made in memory and then put. It refuses the first of no violation (65), a line's length (66), no input
/// line (64) and a latch against its reset (60), with nothing put. After a failure of the sink a beginning was put.
pub fn put_vcd<W: Sink>(
    alloc: Global,
    file: &AigerFile,
    stimulus: &Stimulus,
    all: bool,
    out: &mut W,
) -> Result<(), SimError>
    requires { W.failed out.old < 2 ^ 64 - 1 }
    ensures wave { OnOk result (PutsWave file.now all stimulus.now (W.contents out.old) (W.contents out.new)) }
    ensures refused { IfErr result (HasWaveCause file.now all stimulus.now (W.contents out.old) (W.contents out.new)) }
    ensures kept { OnOk result (W.failed out.new ≡ W.failed out.old) }
    ensures device { IfErr result (λ e. e ≡ SimError.Device → W.failed out.new ≡ W.failed out.old + 1) }
    ensures untouched { IfErr result (λ e. e ≢ SimError.Device → out.new ≡ out.old) }
{
    let (property, initial, inputs) = lines_of(stimulus)?;
    put_violated(alloc, file, property, initial, inputs, all, out)
}

/// Puts all replays that have what is given of the first state and of the lines as a value change dump: a value is put
/// where it is known, so where it is the same in each of them. An open bit is `x`. Otherwise the text is that of
/// `put_vcd`; no loop is told.
///
/// It refuses the first of a line's length (66), no input line (64) and a latch that is given against its reset (60),
/// with nothing put. After a failure of the sink a beginning was put.
pub fn put_open_vcd<W: Sink>(
    alloc: Global,
    file: &AigerFile,
    initial: &[Option<bool>],
    inputs: &[Seq<Option<bool>>],
    all: bool,
    out: &mut W,
) -> Result<(), SimError>
    requires { W.failed out.old < 2 ^ 64 - 1 }
    ensures wave { OnOk result (PutsOpenWave file.now all initial.now inputs.now (W.contents out.old) (W.contents out.new)) }
    ensures refused { IfErr result (HasOpenWaveCause file.now all initial.now inputs.now (W.contents out.old) (W.contents out.new)) }
    ensures kept { OnOk result (W.failed out.new ≡ W.failed out.old) }
    ensures device { IfErr result (λ e. e ≡ SimError.Device → W.failed out.new ≡ W.failed out.old + 1) }
    ensures untouched { IfErr result (λ e. e ≢ SimError.Device → out.new ≡ out.old) }
{
    let shown = SignalValues::open(alloc, file, initial, inputs, all)?;
    put_shown(alloc, &shown, inputs.len(), out)
}
