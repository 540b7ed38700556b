//! The values of a waveform, at each time those that changed.

ghost use Rattle.std.specs.Prelude.{◌≡◌, ◌≤◌, ◌<◌, ◌*◌, ◌++◌, [], All, OnOk, length};
ghost use Rattle.wave_signals.specs.Columns.{rows_of};
ghost use Rattle.wave_texts.specs.Changes.{change_text, changes_text, part_of as part_of_row, stamp_text, times_text, told_text, vector_text, wave_value};
ghost use Rattle.bit_numbers.specs.Numbers.{binary_text};

use crate::variables::{push_code, push_number};
use base::{Refused, push};
use bit_numbers::binary_digit;
use wave_signals::{Bit, Signal};

/// Adds the digits of the bits, the highest first.
fn push_digits(text: &mut Vec<u8>, bits: &[Option<bool>]) -> Result<(), Refused>
    ensures { OnOk result (text.new.items ≡ text.old.items ++ binary_text bits.now) }
{
    for k in (0..bits.len()).rev() {
        push(text, binary_digit(bits[k]))?;
    }
    Ok(())
}

/// Adds the value of a vector.
fn push_vector(text: &mut Vec<u8>, bits: &[Option<bool>]) -> Result<(), Refused>
    ensures { OnOk result (text.new.items ≡ text.old.items ++ vector_text bits.now) }
{
    push(text, b'b')?;
    push_digits(text, bits)?;
    push(text, b' ')?;
    Ok(())
}

/// Adds the value of a variable.
fn push_value(text: &mut Vec<u8>, bits: &[Option<bool>]) -> Result<(), Refused>
    ensures { OnOk result (text.new.items ≡ text.old.items ++ wave_value bits.now) }
{
    match bits {
        [] => push_vector(text, bits),
        [bit] => push(text, binary_digit(*bit)),
        [_, ..] => push_vector(text, bits),
    }
}

/// Adds a signal's value and code.
fn push_told(text: &mut Vec<u8>, bits: &[Bit<'_>], values: &[Option<bool>]) -> Result<(), Refused>
    ensures { OnOk result (text.new.items ≡ text.old.items ++ told_text bits.now values.now) }
{
    push_value(text, values)?;
    push_code(text, bits)?;
    push(text, b'\n')?;
    Ok(())
}

/// What a signal has of a row of values, or nothing of a row of none.
fn part_of(row: &[Option<bool>], signal: Signal) -> &[Option<bool>]
    requires order { signal.first < signal.end }
    requires inside { 0 < length row.now → signal.end ≤ length row.now }
    ensures { result.now ≡ part_of_row row.now signal }
{
    if row.is_empty() {
        return row;
    }
    &row[signal.first..signal.end]
}

/// Adds a signal's change from a row of values, or from none, to the next.
fn push_change(
    text: &mut Vec<u8>,
    bits: &[Bit<'_>],
    signal: Signal,
    before: &[Option<bool>],
    now: &[Option<bool>],
) -> Result<(), Refused>
    requires inside { (signal.first < signal.end) × (signal.end ≤ length bits.now) }
    requires before { 0 < length before.now → length before.now ≡ length bits.now }
    requires now { length now.now ≡ length bits.now }
    ensures { OnOk result (text.new.items ≡ text.old.items ++ change_text bits.now before.now now.now signal) }
{
    let values = part_of(now, signal);
    if part_of(before, signal) == values {
        return Ok(());
    }
    push_told(text, &bits[signal.first..signal.end], values)?;
    Ok(())
}

/// Adds the changes of all signals from a row of values, or from none, to the next.
fn push_changes(
    text: &mut Vec<u8>,
    bits: &[Bit<'_>],
    signals: &[Signal],
    before: &[Option<bool>],
    now: &[Option<bool>],
) -> Result<(), Refused>
    requires inside { All (λ s. (s.first < s.end) × (s.end ≤ length bits.now)) signals.now }
    requires before { 0 < length before.now → length before.now ≡ length bits.now }
    requires now { length now.now ≡ length bits.now }
    ensures { OnOk result (text.new.items ≡ text.old.items ++ changes_text bits.now signals.now before.now now.now) }
{
    for signal in signals {
        push_change(text, bits, *signal, before, now)?;
    }
    Ok(())
}

/// Adds the beginning of a time.
fn push_stamp(text: &mut Vec<u8>, time: u64) -> Result<(), Refused>
    ensures { OnOk result (text.new.items ≡ text.old.items ++ stamp_text time) }
{
    push(text, b'#')?;
    push_number(text, time)?;
    push(text, b'\n')?;
    Ok(())
}

/// Adds each time with its changes, and the time after the last. `values` has those of all bits, time after time.
pub fn push_times(
    text: &mut Vec<u8>,
    bits: &[Bit<'_>],
    signals: &[Signal],
    values: &[Option<bool>],
    times: usize,
) -> Result<(), Refused>
    requires inside { All (λ s. (s.first < s.end) × (s.end ≤ length bits.now)) signals.now }
    requires values { length values.now ≡ times * length bits.now }
    ensures { OnOk result (text.new.items ≡ text.old.items ++ times_text bits.now signals.now 0 [] (rows_of (length bits.now) times values.now)) }
{
    let mut before = &values[..0];
    let mut rest = values;
    for time in 0..times {
        let (now, later) = rest.split_at(bits.len());
        push_stamp(text, time as u64)?;
        push_changes(text, bits, signals, before, now)?;
        before = now;
        rest = later;
    }
    push_stamp(text, times as u64)?;
    Ok(())
}
