//! A text in which latches have their own literals as resets, in place of functions.

ghost use Rattle.std.specs.Prelude.{◌≡◌, ◌+◌, ◌≤◌, ◌++◌, ◌∷◌, [], decimal, drop, length, IfOk, OnOk};
ghost use Rattle.scan.specs.Reading.{Gives};
ghost use Rattle.reset_functions.specs.Lines.{line_text, own_text, reset_text};
ghost use Rattle.reset_functions.specs.Plain.{Replaces, function_in, function_of, functions_in, literal_of, plain_at, plain_line, plain_lines, reset_for};

use crate::latch_lines::{LatchText, LineForm, PlainFault, front, is_binary};
use base::{Refused, copied, extend, push};
use graph::Lit;
use itoa::Buffer;
use scan::lines;
use std::alloc::Global;

/// A text in which latches have their own literals as resets, in place of functions.
#[derive(Drop)]
pub struct PlainText {
    /// the text
    pub text: Vec<u8>,
    /// for each latch line the function that stood there, where there was one
    pub resets: Vec<Option<Lit>>,
}

/// The latch's literal: the one that stands in its line, or else that of the variable.
fn literal_of(own: Option<Lit>, variable: u32) -> Lit
    requires { variable ≤ 4194303 }
    ensures { result ≡ literal_of own variable }
{
    match own {
        Some(own) => own,
        None => Lit(2 * variable),
    }
}

/// The reset, where it is none of 0, 1 and the latch's own literal.
fn function_of(own: Lit, reset: Option<Lit>) -> Option<Lit>
    ensures { result ≡ function_of own reset }
{
    match reset {
        Some(reset) if reset.0 <= 1 || reset.0 == own.0 => None,
        _ => reset,
    }
}

/// The reset, with the latch's own literal in place of a function.
fn reset_for(own: Lit, reset: Option<Lit>, function: Option<Lit>) -> Option<Lit>
    ensures { result ≡ reset_for own reset function }
{
    match function {
        Some(_) => Some(own),
        None => reset,
    }
}

/// Adds the number's digits.
fn put_number(text: &mut Vec<u8>, number: u32) -> Result<(), Refused>
    ensures { OnOk result (text.new.items ≡ text.old.items ++ decimal number) }
{
    let mut buffer = Buffer::new();
    extend(text, buffer.format(number).as_bytes())
}

/// Adds the latch's literal and a space, where it stands in its line.
fn put_own(text: &mut Vec<u8>, own: Option<Lit>) -> Result<(), Refused>
    ensures { OnOk result (text.new.items ≡ text.old.items ++ own_text own) }
{
    match own {
        Some(own) => {
            put_number(text, own.0)?;
            push(text, b' ')
        }
        None => Ok(()),
    }
}

/// Adds a space and the reset, where there is one.
fn put_reset(text: &mut Vec<u8>, reset: Option<Lit>) -> Result<(), Refused>
    ensures { OnOk result (text.new.items ≡ text.old.items ++ reset_text reset) }
{
    match reset {
        Some(reset) => {
            push(text, b' ')?;
            put_number(text, reset.0)
        }
        None => Ok(()),
    }
}

/// Adds the latch's line with this reset.
fn put_line(text: &mut Vec<u8>, line: LatchText, reset: Option<Lit>) -> Result<(), Refused>
    ensures { OnOk result (text.new.items ≡ text.old.items ++ line_text line reset) }
{
    put_own(text, line.own)?;
    put_number(text, line.next.0)?;
    put_reset(text, reset)?;
    push(text, b'\n')
}

impl PlainText {
    /// Adds the latch's line, without its function.
    fn add(&mut self, variable: u32, line: LatchText) -> Result<(), Refused>
        requires { variable ≤ 4194303 }
        ensures text { OnOk result (self.new.text.items ≡ self.old.text.items ++ plain_line variable line) }
        ensures resets { OnOk result (self.new.resets.items ≡ self.old.resets.items ++ function_in variable line ∷ []) }
    {
        let own = literal_of(line.own, variable);
        let function = function_of(own, line.reset);
        put_line(&mut self.text, line, reset_for(own, line.reset, function))?;
        push(&mut self.resets, function)
    }

    /// Adds the latches' lines, without their functions, from the variable on.
    fn add_all(&mut self, first: u32, lines: &[LatchText]) -> Result<(), Refused>
        requires { first + length lines.now ≤ 4194304 }
        ensures text { OnOk result (self.new.text.items ≡ self.old.text.items ++ plain_lines first lines.now) }
        ensures resets { OnOk result (self.new.resets.items ≡ self.old.resets.items ++ functions_in first lines.now) }
    {
        for k in 0..lines.len() {
            self.add(first + k as u32, lines[k])?;
        }
        Ok(())
    }

    /// The text of the front, the latches' lines without their functions, and what stands behind them.
    fn of(
        alloc: Global,
        front: &[u8],
        first: u32,
        lines: &[LatchText],
        behind: &[u8],
    ) -> Result<PlainText, Refused>
        requires { first + length lines.now ≤ 4194304 }
        ensures text { IfOk result (λ x. x.text.items ≡ front.now ++ plain_lines first lines.now ++ behind.now) }
        ensures resets { IfOk result (λ x. x.resets.items ≡ functions_in first lines.now) }
    {
        let mut plain = PlainText {
            text: copied(alloc, front)?,
            resets: Vec::new(alloc),
        };
        plain.add_all(first, lines)?;
        extend(&mut plain.text, behind)?;
        Ok(plain)
    }
}

/// The text of a circuit (AIGER 1.9, in either layout) with the latch's own literal in place of each reset that is none of
/// 0, 1 and that; and those resets. A text without a header, its lines of inputs and its latch lines, or with another literal
/// there than one up to the greatest, is refused. It takes time and memory by the text's length.
#[tactic(auto, unfolding(crate::specs::Plain::plain_at), using(crate::proofs::Texts::replaces, crate::proofs::Texts::count))]
pub fn replaced(alloc: Global, text: &[u8]) -> Result<PlainText, PlainFault>
    ensures value { Gives (λ x. (x.text.items, x.resets.items)) result (plain_at text.now) }
    ensures replaces { IfOk result (λ x. Replaces text.now x.text.items x.resets.items) }
{
    let is_binary = is_binary(text);
    let (header, rest) = front(alloc, text, is_binary)?;
    let form = LineForm {
        is_binary,
        max_var: header.max_var,
    };
    let (lines, behind) = lines::<LatchText>(alloc, header.latches, rest, form)?;
    let front = &text[..text.len().saturating_sub(rest.len())];
    let plain = PlainText::of(alloc, front, header.inputs + 1, lines.as_slice(), behind)?;
    Ok(plain)
}
