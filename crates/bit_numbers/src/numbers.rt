//! The texts of numbers that are given by their bits, the lowest first. A bit may be open.

ghost use Rattle.std.specs.Prelude.{◌≡◌, ◌+◌, ◌-◌, ◌*◌, ◌/◌, ◌^◌, ◌<◌, ◌≤◌, length, take, drop, decimal};
ghost use Rattle.base.specs.Devices.{CountsFailure, Puts};
ghost use Rattle.bit_numbers.specs.Numbers.{are_known as are_known_bits, binary_digit as digit_of_bit, binary_text, bit_number, digit_of, hex_below, known_text, number_of, number_text, open_text};

use base::{Failed, Sink, put_all};
use itoa::Buffer;

/// The digit of a bit.
pub fn binary_digit(bit: Option<bool>) -> u8
    ensures { result ≡ digit_of_bit bit }
{
    match bit {
        None => b'x',
        Some(value) => { if value { b'1' } else { b'0' } }
    }
}

/// Whether no bit is open.
fn are_known(bits: &[Option<bool>]) -> bool
    ensures { result ≡ are_known_bits bits.now }
{
    for bit in bits {
        if bit.is_none() {
            return false;
        }
    }
    true
}

/// The number of one bit.
fn number_of_bit(bit: Option<bool>) -> u64
    ensures value { result ≡ bit_number bit }
    ensures small { result < 2 }
{
    match bit {
        None => 0,
        Some(value) => u64::from(value),
    }
}

/// The number of the bits.
fn number(bits: &[Option<bool>]) -> u64
    requires { length bits.now ≤ 64 }
    ensures value { result ≡ number_of bits.now }
    ensures small { result < 2 ^ length bits.now }
{
    let mut number = 0u64;
    for k in (0..bits.len()).rev() {
        number = number * 2 + number_of_bit(bits[k]);
    }
    number
}

/// The hexadecimal digit of four bits at most.
fn digit(bits: &[Option<bool>]) -> u8
    requires { length bits.now ≤ 4 }
    ensures { result ≡ digit_of (number_of bits.now) }
{
    let number = number(bits) as u8;
    if number < 10 {
        b'0' + number
    } else {
        b'a' + (number - 10)
    }
}

/// The bits of a hexadecimal digit, by its place from below.
fn bits_of_digit(bits: &[Option<bool>], place: usize) -> &[Option<bool>]
    requires { 4 * place ≤ length bits.now }
    ensures bits { result.now ≡ take 4 (drop (4 * place) bits.now) }
    ensures few { length result.now ≤ 4 }
{
    let rest = &bits[4 * place..];
    if rest.len() <= 4 { rest } else { &rest[..4] }
}

/// Puts the bits as hexadecimal digits.
fn put_hex<W: Sink>(out: &mut W, bits: &[Option<bool>]) -> Result<(), Failed>
    requires { W.failed out.old < 2 ^ 64 - 1 }
    ensures puts { Puts result (W.contents out.old) (W.contents out.new) (hex_below ((length bits.now + 3) / 4) bits.now) }
    ensures counts { CountsFailure (W.failed out.old) (W.failed out.new) result }
{
    for k in (0..bits.len().div_ceil(4)).rev() {
        put_all(out, &[digit(bits_of_digit(bits, k))])?;
    }
    Ok(())
}

/// The length of a number in decimal.
pub fn decimal_length(number: u64) -> usize
    ensures length { result ≡ length (decimal number) }
    ensures short { result ≤ 40 }
{
    let mut buffer = Buffer::new();
    buffer.format(number).len()
}

/// The length of the text of the number of bits that are known.
fn known_length(bits: &[Option<bool>]) -> usize
    ensures { result ≡ length (known_text bits.now) }
{
    if bits.len() <= 64 {
        decimal_length(number(bits))
    } else {
        2 + bits.len().div_ceil(4)
    }
}

/// The length of the digits of bits of which one is open.
fn open_length(bits: &[Option<bool>]) -> usize
    ensures { result ≡ length (open_text bits.now) }
{
    match bits {
        [] => 0,
        [_bit] => 1,
        [_, _, ..] => 2 + bits.len(),
    }
}

/// The length of the text of the number of the bits.
pub fn number_length(bits: &[Option<bool>]) -> usize
    ensures { result ≡ length (number_text bits.now) }
{
    if are_known(bits) {
        known_length(bits)
    } else {
        open_length(bits)
    }
}

/// Puts the digits of the bits in binary, the highest first.
fn put_binary<W: Sink>(out: &mut W, bits: &[Option<bool>]) -> Result<(), Failed>
    requires { W.failed out.old < 2 ^ 64 - 1 }
    ensures puts { Puts result (W.contents out.old) (W.contents out.new) (binary_text bits.now) }
    ensures counts { CountsFailure (W.failed out.old) (W.failed out.new) result }
{
    for k in (0..bits.len()).rev() {
        put_all(out, &[binary_digit(bits[k])])?;
    }
    Ok(())
}

/// Puts the digits of bits of which one is open.
fn put_open<W: Sink>(out: &mut W, bits: &[Option<bool>]) -> Result<(), Failed>
    requires { W.failed out.old < 2 ^ 64 - 1 }
    ensures puts { Puts result (W.contents out.old) (W.contents out.new) (open_text bits.now) }
    ensures counts { CountsFailure (W.failed out.old) (W.failed out.new) result }
{
    match bits {
        [] => Ok(()),
        [bit] => put_all(out, &[binary_digit(*bit)]),
        [_, _, ..] => {
            put_all(out, b"0b")?;
            put_binary(out, bits)
        }
    }
}

/// Puts the number of bits that are known.
fn put_known<W: Sink>(out: &mut W, bits: &[Option<bool>]) -> Result<(), Failed>
    requires { W.failed out.old < 2 ^ 64 - 1 }
    ensures puts { Puts result (W.contents out.old) (W.contents out.new) (known_text bits.now) }
    ensures counts { CountsFailure (W.failed out.old) (W.failed out.new) result }
{
    if bits.len() <= 64 {
        let mut buffer = Buffer::new();
        return put_all(out, buffer.format(number(bits)).as_bytes());
    }
    put_all(out, b"0x")?;
    put_hex(out, bits)
}

/// Puts the number of the bits: in decimal, in hexadecimal where there are more than 64, or where one is open in
/// binary.
pub fn put_number<W: Sink>(out: &mut W, bits: &[Option<bool>]) -> Result<(), Failed>
    requires { W.failed out.old < 2 ^ 64 - 1 }
    ensures puts { Puts result (W.contents out.old) (W.contents out.new) (number_text bits.now) }
    ensures counts { CountsFailure (W.failed out.old) (W.failed out.new) result }
{
    if are_known(bits) {
        put_known(out, bits)
    } else {
        put_open(out, bits)
    }
}
