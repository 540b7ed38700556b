//! The lines of latches whose resets may be any literals, and what stands before them.

ghost use Rattle.std.specs.Prelude.{◌≡◌, ◌+◌, ◌≤◌, IfOk};
ghost use Rattle.scan.specs.Reading.{Gives};
ghost use Rattle.scan.specs.Words.{any};
ghost use Rattle.aag.specs.Lines.{greatest, literal_at};
ghost use Rattle.reset_functions.specs.Lines.{front_at, header_in, is_binary, line_at, own_at, reset_at};

use aag::{Header, ReadFault, next, read_header};
use graph::Lit;
use scan::{Fault, LineKind, field, lines};
use std::alloc::Global;

/// Why a text is no circuit up to its last latch line.
pub type PlainFault = Fault<ReadFault<()>>;

/// How a latch's line is read: whether its literal is left out, and the greatest variable.
#[derive(Clone, Copy)]
pub struct LineForm {
    pub is_binary: bool,
    pub max_var: u32,
}

/// A latch's line: its literal, where that stands there, the next literal, and the reset, where one stands there.
#[derive(Clone, Copy)]
pub struct LatchText {
    pub own: Option<Lit>,
    pub next: Lit,
    pub reset: Option<Lit>,
}

/// The latch's literal, where it stands there, and what follows the space behind it.
fn own_literal(text: &[u8], form: LineForm) -> Result<(Option<Lit>, &[u8]), PlainFault>
    requires { form.max_var ≤ greatest }
    ensures { Gives (λ x. (x.0, x.1.now)) result (own_at form.is_binary form.max_var text.now) }
{
    if form.is_binary {
        return Ok((None, text));
    }
    let kinds = ReadFault::<()>::IN_LITERAL;
    let (own, rest) = field(text, 2 * form.max_var + 1, b' ', kinds)?;
    Ok((Some(Lit(own)), rest))
}

/// The reset behind the byte that ends the next literal, where one stands there, and what follows the line.
fn reset(text: &[u8], max_var: u32, end: u8) -> Result<(Option<Lit>, &[u8]), PlainFault>
    requires { max_var ≤ greatest }
    ensures { Gives (λ x. (x.0, x.1.now)) result (reset_at max_var end text.now) }
{
    if end == b'\n' {
        return Ok((None, text));
    }
    let kinds = ReadFault::<()>::IN_RESET;
    let (reset, rest) = field(text, 2 * max_var + 1, b'\n', kinds)?;
    Ok((Some(Lit(reset)), rest))
}

impl LineKind for LatchText {
    type Item = LatchText;

    type Context = LineForm;

    type Fault = ReadFault<()>;

    ghost allows = { λ form. form.max_var ≤ greatest };

    ghost at = { line_at };

    #[tactic(auto, unfolding(crate::specs::Lines::line_at))]
    fn line(
        _alloc: Global,
        text: &[u8],
        form: LineForm,
    ) -> Result<(LatchText, &[u8]), Fault<ReadFault<()>>> {
        let (own, rest) = own_literal(text, form)?;
        let (next, end, rest) = next::<()>(rest, form.max_var)?;
        let (reset, rest) = reset(rest, form.max_var, end)?;
        Ok((LatchText { own, next, reset }, rest))
    }
}

/// A line of an input.
pub struct InputLine;

impl LineKind for InputLine {
    type Item = Lit;

    type Context = u32;

    type Fault = ReadFault<()>;

    ghost allows = { λ max_var. max_var ≤ greatest };

    ghost at = { λ max_var. literal_at max_var any 10 };

    #[tactic(auto, unfolding(aag::specs::Lines::literal_at))]
    fn line(
        _alloc: Global,
        text: &[u8],
        max_var: u32,
    ) -> Result<(Lit, &[u8]), Fault<ReadFault<()>>> {
        let kinds = ReadFault::<()>::IN_LITERAL;
        let (input, rest) = field(text, 2 * max_var + 1, b'\n', kinds)?;
        Ok((Lit(input), rest))
    }
}

/// Whether the text is binary: its second byte is `i`, as in `aig`.
pub fn is_binary(text: &[u8]) -> bool
    ensures { result ≡ is_binary text.now }
{
    text.len() > 1 && text[1] == b'i'
}

/// The header that begins with this word and has variables for its inputs and latches, and what follows it.
#[tactic(auto, unfolding(crate::specs::Lines::header_in))]
fn header<'a>(text: &'a [u8], word: &[u8]) -> Result<(Header, &'a [u8]), PlainFault>
    ensures value { Gives (λ x. (x.0, x.1.now)) result (header_in word.now text.now) }
    ensures within { IfOk result (λ x. x.0.max_var ≤ greatest) }
    ensures room { IfOk result (λ x. x.0.inputs + x.0.latches ≤ x.0.max_var) }
{
    let (header, rest) = read_header::<()>(text, word)?;
    if u64::from(header.inputs) + u64::from(header.latches) > u64::from(header.max_var) {
        return Err(Fault::Text {
            kind: ReadFault::Counts,
            left: rest.len(),
        });
    }
    Ok((header, rest))
}

/// What stands before the latch lines, the header and the lines of inputs, and what follows that.
#[tactic(auto, unfolding(crate::specs::Lines::front_at))]
pub fn front(alloc: Global, text: &[u8], is_binary: bool) -> Result<(Header, &[u8]), PlainFault>
    ensures value { Gives (λ x. (x.0, x.1.now)) result (front_at is_binary text.now) }
    ensures within { IfOk result (λ x. x.0.max_var ≤ greatest) }
    ensures room { IfOk result (λ x. x.0.inputs + x.0.latches ≤ x.0.max_var) }
{
    if is_binary {
        return header(text, b"aig ");
    }
    let (header, rest) = header(text, b"aag ")?;
    let (_, rest) = lines::<InputLine>(alloc, header.inputs, rest, header.max_var)?;
    Ok((header, rest))
}
