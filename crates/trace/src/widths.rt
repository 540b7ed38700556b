//! The widths of a table's columns.

ghost use Rattle.std.specs.Prelude.{◌≡◌, ◌≤◌, ◌<◌, ◌*◌, ◌-◌, ◌^◌, All, length, map, IfOk};
ghost use Rattle.base.specs.Devices.{CountsFailure, Puts};
ghost use Rattle.wave_texts.specs.Changes.{part_of};
ghost use Rattle.wave_signals.specs.Columns.{rows_of};
ghost use Rattle.bit_numbers.specs.Numbers.{number_text};
ghost use Rattle.trace.specs.Traces.{names_width as width_of_names, values_width as width_of_values};
ghost use Rattle.trace.specs.Widths.{spaces, width_of};

use base::{Failed, Refused, Sink, push, put_all};
use bit_numbers::number_length;
use std::alloc::Global;
use wave_signals::{Bit, Signal, signal_name_length};

/// Puts this many spaces.
pub fn put_spaces<W: Sink>(out: &mut W, count: usize) -> Result<(), Failed>
    requires { W.failed out.old < 2 ^ 64 - 1 }
    ensures puts { Puts result (W.contents out.old) (W.contents out.new) (spaces count) }
    ensures counts { CountsFailure (W.failed out.old) (W.failed out.new) result }
{
    for _space in 0..count {
        put_all(out, b" ")?;
    }
    Ok(())
}

/// The width of the names of the signals.
pub fn names_width(bits: &[Bit<'_>], signals: &[Signal]) -> usize
    requires { All (λ s. (s.first < s.end) × (s.end ≤ length bits.now)) signals.now }
    ensures { result ≡ width_of_names bits.now signals.now }
{
    let mut width = 0usize;
    for signal in signals {
        width = width.max(signal_name_length(&bits[signal.first..signal.end]));
    }
    width
}

/// The width of the values of the signals in a row.
fn row_width(row: &[Option<bool>], signals: &[Signal]) -> usize
    requires { All (λ s. (s.first < s.end) × (s.end ≤ length row.now)) signals.now }
    ensures { result ≡ width_of (map (λ s. number_text (part_of row.now s)) signals.now) }
{
    let mut width = 0usize;
    for signal in signals {
        width = width.max(number_length(&row[signal.first..signal.end]));
    }
    width
}

/// The width of the values at each time. `values` has those of all bits, time after time.
pub fn values_widths(
    alloc: Global,
    bits: &[Bit<'_>],
    signals: &[Signal],
    values: &[Option<bool>],
    times: usize,
) -> Result<Vec<usize>, Refused>
    requires inside { All (λ s. (s.first < s.end) × (s.end ≤ length bits.now)) signals.now }
    requires values { length values.now ≡ times * length bits.now }
    ensures { IfOk result (λ v. v.items ≡ map (width_of_values signals.now) (rows_of (length bits.now) times values.now)) }
{
    let mut widths = Vec::new(alloc);
    let mut rest = values;
    for _time in 0..times {
        let (now, later) = rest.split_at(bits.len());
        push(&mut widths, row_width(now, signals))?;
        rest = later;
    }
    Ok(widths)
}
