//! Signals: the bits of a vector together.

ghost use Rattle.std.specs.Prelude.{◌≡◌, ◌≤◌, ◌<◌, ◌-◌, ◌^◌, ◌++◌, IsTrue, IfOk, take, length, decimal};
ghost use Rattle.base.specs.Devices.{CountsFailure, Puts};
ghost use Rattle.wave_signals.specs.Bits.{bit_name, letter_of};
ghost use Rattle.wave_signals.specs.Signals.{AreApart, AreSignals, IsVector, range_text, signal_name, vector_name};

use crate::bits::Bit;
use base::{Failed, Refused, Sink, push, put_all};
use bit_numbers::decimal_length;
use graph::SymbolKind;
use itoa::Buffer;
use std::alloc::Global;

/// A signal: where its bits begin in the list of all, and where they end.
#[derive(Clone, Copy)]
pub struct Signal {
    pub first: usize,
    pub end: usize,
}

/// Whether two bits of one kind have the names `a[l]` and `a[l + k]`.
fn are_apart(first: &Bit<'_>, k: usize, bit: &Bit<'_>) -> bool
    ensures { IsTrue result → AreApart first.now k bit.now }
{
    let (Some(low), Some(index)) = (first.index, bit.index) else {
        return false;
    };
    bit.kind == first.kind && bit.base == first.base && index >= low && (index - low) as usize == k
}

/// How many of the bits, from the first on, are a vector.
fn vector_length(bits: &[Bit<'_>]) -> usize
    requires { 0 < length bits.now }
    ensures some { 0 < result }
    ensures within { result ≤ length bits.now }
    ensures vector { IsVector (take result bits.now) }
{
    for k in 1..bits.len() {
        if !are_apart(&bits[0], k, &bits[k]) {
            return k;
        }
    }
    bits.len()
}

/// The signals of bits that are in the order of their names.
pub fn signals_of(alloc: Global, bits: &[Bit<'_>]) -> Result<Vec<Signal>, Refused>
    ensures { IfOk result (λ v. AreSignals bits.now v.items) }
{
    let mut signals = Vec::new(alloc);
    let mut first = 0;
    'grouping: while first < bits.len() {
        let end = first + vector_length(&bits[first..]);
        push(&mut signals, Signal { first, end })?;
        first = end;
    }
    Ok(signals)
}

/// The letter of a kind.
pub fn letter(kind: SymbolKind) -> &'static [u8]
    ensures { result.now ≡ letter_of kind }
{
    match kind {
        SymbolKind::Input => b"i",
        SymbolKind::Latch => b"l",
        SymbolKind::Output => b"o",
        SymbolKind::Bad => b"b",
        SymbolKind::Constraint => b"c",
        SymbolKind::Justice => b"j",
        SymbolKind::Fairness => b"f",
    }
}

/// The length of the name of a bit.
fn bit_name_length(bit: &Bit<'_>) -> usize
    ensures { result ≡ length (bit_name bit.now) }
{
    match bit.name {
        [] => letter(bit.kind).len() + decimal_length(bit.position as u64),
        [_, ..] => bit.name.len(),
    }
}

/// The length of the name of a vector of `count` bits.
fn vector_name_length(base: &[u8], low: u32, count: usize) -> usize
    requires some { 0 < count }
    requires few { count < 2 ^ 63 }
    ensures { result ≡ length (vector_name base.now low count) }
{
    if low == 0 {
        return base.len();
    }
    let low = u64::from(low);
    base.len() + (decimal_length(low + count as u64 - 1) + decimal_length(low) + 3)
}

/// The length of the name of a signal of these bits.
pub fn signal_name_length(bits: &[Bit<'_>]) -> usize
    ensures { result ≡ length (signal_name bits.now) }
{
    match bits {
        [] => 0,
        [bit] => bit_name_length(bit),
        [first, ..] => match first.index {
            None => bit_name_length(first),
            Some(low) => vector_name_length(first.base, low, bits.len()),
        },
    }
}

/// Puts the name of what has no symbol: its kind's letter and its position.
fn put_plain_name<W: Sink>(out: &mut W, kind: SymbolKind, position: usize) -> Result<(), Failed>
    requires { W.failed out.old < 2 ^ 64 - 1 }
    ensures puts { Puts result (W.contents out.old) (W.contents out.new) (letter_of kind ++ decimal position) }
    ensures counts { CountsFailure (W.failed out.old) (W.failed out.new) result }
{
    let mut buffer = Buffer::new();
    put_all(out, letter(kind))?;
    put_all(out, buffer.format(position).as_bytes())
}

/// Puts the name of a bit.
fn put_bit_name<W: Sink>(out: &mut W, bit: &Bit<'_>) -> Result<(), Failed>
    requires { W.failed out.old < 2 ^ 64 - 1 }
    ensures puts { Puts result (W.contents out.old) (W.contents out.new) (bit_name bit.now) }
    ensures counts { CountsFailure (W.failed out.old) (W.failed out.new) result }
{
    match bit.name {
        [] => put_plain_name(out, bit.kind, bit.position),
        [_, ..] => put_all(out, bit.name),
    }
}

/// Puts these bytes, and a number.
pub fn put_counted<W: Sink>(out: &mut W, before: &[u8], number: u64) -> Result<(), Failed>
    requires { W.failed out.old < 2 ^ 64 - 1 }
    ensures puts { Puts result (W.contents out.old) (W.contents out.new) (before.now ++ decimal number) }
    ensures counts { CountsFailure (W.failed out.old) (W.failed out.new) result }
{
    let mut buffer = Buffer::new();
    put_all(out, before)?;
    put_all(out, buffer.format(number).as_bytes())
}

/// Puts the greatest and the lowest index of a vector in brackets.
fn put_range<W: Sink>(out: &mut W, high: u64, low: u64) -> Result<(), Failed>
    requires { W.failed out.old < 2 ^ 64 - 1 }
    ensures puts { Puts result (W.contents out.old) (W.contents out.new) (range_text high low) }
    ensures counts { CountsFailure (W.failed out.old) (W.failed out.new) result }
{
    put_counted(out, b"[", high)?;
    put_counted(out, b":", low)?;
    put_all(out, b"]")
}

/// Puts the name of a vector of `count` bits.
fn put_vector_name<W: Sink>(out: &mut W, base: &[u8], low: u32, count: usize) -> Result<(), Failed>
    requires sink { W.failed out.old < 2 ^ 64 - 1 }
    requires some { 0 < count }
    requires few { count < 2 ^ 63 }
    ensures puts { Puts result (W.contents out.old) (W.contents out.new) (vector_name base.now low count) }
    ensures counts { CountsFailure (W.failed out.old) (W.failed out.new) result }
{
    if low == 0 {
        return put_all(out, base);
    }
    put_all(out, base)?;
    put_range(out, u64::from(low) + count as u64 - 1, u64::from(low))
}

/// Puts the name of a signal of these bits.
pub fn put_signal_name<W: Sink>(out: &mut W, bits: &[Bit<'_>]) -> Result<(), Failed>
    requires { W.failed out.old < 2 ^ 64 - 1 }
    ensures puts { Puts result (W.contents out.old) (W.contents out.new) (signal_name bits.now) }
    ensures counts { CountsFailure (W.failed out.old) (W.failed out.new) result }
{
    match bits {
        [] => Ok(()),
        [bit] => put_bit_name(out, bit),
        [first, ..] => match first.index {
            None => put_bit_name(out, first),
            Some(low) => put_vector_name(out, first.base, low, bits.len()),
        },
    }
}
