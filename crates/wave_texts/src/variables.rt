//! Variables of a waveform: what declares a signal.

ghost use Rattle.std.specs.Prelude.{◌≡◌, ◌≤◌, ◌<◌, ◌^◌, ◌++◌, [], All, OnOk, Some, decimal, length, map};
ghost use Rattle.wave_signals.specs.Signals.{bits_of, range_text};
ghost use Rattle.wave_texts.specs.Variables.{called_text, code_of, declared_text, indices_text, plain_name, scopes_of as scopes_of_bits, variable_text, variables_text};

use crate::scopes::{path_length, push_closed, push_moved, push_part};
use base::{Refused, extend, push};
use graph::SymbolKind;
use itoa::Buffer;
use wave_signals::{Bit, Signal, letter};

/// Adds a number in decimal.
pub fn push_number(text: &mut Vec<u8>, number: u64) -> Result<(), Refused>
    ensures { OnOk result (text.new.items ≡ text.old.items ++ decimal number) }
{
    let mut buffer = Buffer::new();
    extend(text, buffer.format(number).as_bytes())?;
    Ok(())
}

/// Adds the name of what has no symbol.
fn push_plain_name(text: &mut Vec<u8>, kind: SymbolKind, position: usize) -> Result<(), Refused>
    ensures { OnOk result (text.new.items ≡ text.old.items ++ plain_name kind position) }
{
    extend(text, letter(kind))?;
    push_number(text, position as u64)?;
    Ok(())
}

/// Adds the code of a signal of these bits.
pub fn push_code(text: &mut Vec<u8>, bits: &[Bit<'_>]) -> Result<(), Refused>
    ensures { OnOk result (text.new.items ≡ text.old.items ++ code_of bits.now) }
{
    match bits {
        [] => Ok(()),
        [bit, ..] => push_plain_name(text, bit.kind, bit.position),
    }
}

/// Adds what a variable is called in its scope.
fn push_called(
    text: &mut Vec<u8>,
    kind: SymbolKind,
    position: usize,
    name: &[u8],
) -> Result<(), Refused>
    ensures { OnOk result (text.new.items ≡ text.old.items ++ called_text kind position name.now) }
{
    match name {
        [] => push_plain_name(text, kind, position),
        [_, ..] => push_part(text, &name[path_length(name)..]),
    }
}

/// Adds the greatest and the lowest index of a vector in brackets.
fn push_range(text: &mut Vec<u8>, high: u64, low: u64) -> Result<(), Refused>
    ensures { OnOk result (text.new.items ≡ text.old.items ++ range_text high low) }
{
    push(text, b'[')?;
    push_number(text, high)?;
    push(text, b':')?;
    push_number(text, low)?;
    push(text, b']')?;
    Ok(())
}

/// Adds a space and the indices of this number of bits from the lowest on.
fn push_indices(text: &mut Vec<u8>, count: usize, low: u32) -> Result<(), Refused>
    requires some { 0 < count }
    requires few { count < 2 ^ 63 }
    ensures { OnOk result (text.new.items ≡ text.old.items ++ indices_text count (Some low)) }
{
    push(text, b' ')?;
    push_range(text, u64::from(low) + count as u64 - 1, u64::from(low))?;
    Ok(())
}

/// Adds the indices of a variable, where its bits are of a vector.
fn push_place(text: &mut Vec<u8>, count: usize, index: Option<u32>) -> Result<(), Refused>
    requires some { 0 < count }
    requires few { count < 2 ^ 63 }
    ensures { OnOk result (text.new.items ≡ text.old.items ++ indices_text count index) }
{
    match index {
        None => Ok(()),
        Some(low) => push_indices(text, count, low),
    }
}

/// Adds what declares a variable of this number of bits, of which this is the first.
fn push_declared(text: &mut Vec<u8>, bit: &Bit<'_>, count: usize) -> Result<(), Refused>
    requires some { 0 < count }
    requires few { count < 2 ^ 63 }
    ensures { OnOk result (text.new.items ≡ text.old.items ++ declared_text bit.now count) }
{
    extend(text, b"$var wire ")?;
    push_number(text, count as u64)?;
    push(text, b' ')?;
    push_plain_name(text, bit.kind, bit.position)?;
    push(text, b' ')?;
    push_called(text, bit.kind, bit.position, bit.base)?;
    push_place(text, count, bit.index)?;
    extend(text, b" $end\n")?;
    Ok(())
}

/// Adds what declares the variable of a signal of these bits.
fn push_variable(text: &mut Vec<u8>, bits: &[Bit<'_>]) -> Result<(), Refused>
    ensures { OnOk result (text.new.items ≡ text.old.items ++ variable_text bits.now) }
{
    match bits {
        [] => Ok(()),
        [bit, ..] => push_declared(text, bit, bits.len()),
    }
}

/// The path of a signal of these bits.
fn scopes_of<'a>(bits: &[Bit<'a>]) -> &'a [u8]
    ensures { result.now ≡ scopes_of_bits bits.now }
{
    match bits {
        [] => b"",
        [bit, ..] => &bit.base[..path_length(bit.base)],
    }
}

/// Adds the variables of the signals, each in its scopes.
pub fn push_variables(
    text: &mut Vec<u8>,
    bits: &[Bit<'_>],
    signals: &[Signal],
) -> Result<(), Refused>
    requires inside { All (λ s. (s.first < s.end) × (s.end ≤ length bits.now)) signals.now }
    ensures { OnOk result (text.new.items ≡ text.old.items ++ variables_text [] (map (bits_of bits.now) signals.now)) }
{
    let mut path = scopes_of(&bits[..0]);
    for signal in signals {
        let of_signal = &bits[signal.first..signal.end];
        let next = scopes_of(of_signal);
        push_moved(text, path, next)?;
        push_variable(text, of_signal)?;
        path = next;
    }
    push_closed(text, path)?;
    Ok(())
}
