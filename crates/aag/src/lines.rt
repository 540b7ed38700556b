//! The lines of a circuit.

ghost use Rattle.std.specs.Prelude.{◌≤◌};
ghost use Rattle.scan.specs.Reading.{Gives};
ghost use Rattle.scan.specs.Words.{any};
ghost use Rattle.graph.specs.declared.error.ReadError.TheVariants.{Defining};
ghost use Rattle.aag.specs.Lines.{greatest, literal_at, defines, next_at, reset_at, latch_at, gate_at};

use crate::read_fault::{LayoutFault, ReadFault};
use graph::{Gate, Latch, Lit, MOST_VARIABLES, ReadError};
use scan::{Fault, Kinds, LineKind, byte, field, number, word};
use std::alloc::Global;

/// The greatest variable and the greatest count.
pub const GREATEST: u32 = MOST_VARIABLES;

/// A literal that defines nothing.
#[derive(Clone, Copy)]
pub struct NotDefining;

impl LayoutFault for NotDefining {
    ghost at_byte = { λ _. Defining };

    fn at(self, place: u64) -> ReadError {
        ReadError::Defining(place)
    }
}

/// A literal, and what follows the byte behind it.
#[tactic(auto, unfolding(crate::specs::Lines::literal_at))]
#[inline(always)]
fn literal<K: Copy>(
    text: &[u8],
    max_var: u32,
    end: u8,
    kinds: Kinds<K>,
) -> Result<(Lit, &[u8]), Fault<K>>
    requires { max_var ≤ GREATEST }
    ensures { Gives (λ x. (x.0, x.1.now)) result (literal_at max_var any end text.now) }
{
    let (lit, rest) = field(text, 2 * max_var + 1, end, kinds)?;
    Ok((Lit(lit), rest))
}

/// A literal that defines its variable, and what follows the byte behind it.
#[tactic(auto, unfolding(crate::specs::Lines::literal_at, scan::specs::Words::field_at))]
#[inline(always)]
fn defining(
    text: &[u8],
    max_var: u32,
    end: u8,
) -> Result<(Lit, &[u8]), Fault<ReadFault<NotDefining>>>
    requires { max_var ≤ GREATEST }
    ensures { Gives (λ x. (x.0, x.1.now)) result (literal_at max_var defines end text.now) }
{
    let kinds = ReadFault::<NotDefining>::IN_LITERAL;
    let (lit, rest) = number(text, 2 * max_var + 1, kinds)?;
    if lit % 2 == 1 || lit < 2 {
        return Err(Fault::Text {
            kind: ReadFault::Layout(NotDefining),
            left: text.len(),
        });
    }
    let rest = byte(rest, end, kinds)?;
    Ok((Lit(lit), rest))
}

/// A latch's next literal, the byte that ends it, and what follows that.
#[tactic(auto, unfolding(crate::specs::Lines::next_at))]
pub fn next<L: Copy>(text: &[u8], max_var: u32) -> Result<(Lit, u8, &[u8]), Fault<ReadFault<L>>>
    requires { max_var ≤ GREATEST }
    ensures { Gives (λ x. ((x.0, x.1), x.2.now)) result (next_at max_var text.now) }
{
    let (lit, end, rest) = word(
        text,
        2 * max_var + 1,
        (b' ', b'\n'),
        ReadFault::<L>::IN_LITERAL,
    )?;
    Ok((Lit(lit), end, rest))
}

/// The reset of the latch with this literal, and what follows its line.
#[tactic(auto, unfolding(crate::specs::Lines::reset_at, scan::specs::Words::field_at))]
pub fn reset<L: Copy>(text: &[u8], lit: Lit) -> Result<(Lit, &[u8]), Fault<ReadFault<L>>>
    ensures { Gives (λ x. (x.0, x.1.now)) result (reset_at lit text.now) }
{
    let kinds = ReadFault::<L>::IN_RESET;
    let (reset, rest) = number(text, u32::MAX, kinds)?;
    if reset > 1 && reset != lit.0 {
        return Err(Fault::Text {
            kind: ReadFault::Reset,
            left: text.len(),
        });
    }
    let rest = byte(rest, b'\n', kinds)?;
    Ok((Lit(reset), rest))
}

/// A line of an input.
pub struct InputLine;

impl LineKind for InputLine {
    type Item = Lit;

    type Context = u32;

    type Fault = ReadFault<NotDefining>;

    ghost allows = { λ max_var. max_var ≤ greatest };

    ghost at = { λ max_var. literal_at max_var defines 10 };

    fn line(
        _alloc: Global,
        text: &[u8],
        max_var: u32,
    ) -> Result<(Lit, &[u8]), Fault<ReadFault<NotDefining>>> {
        defining(text, max_var, b'\n')
    }
}

/// A line of a literal that is only used.
pub struct LiteralLine;

/// How a line of a literal that is only used is read: the greatest variable, and what the reader
/// calls the faults.
#[derive(Clone, Copy)]
pub struct UseLine<K> {
    pub max_var: u32,
    pub kinds: Kinds<K>,
}

impl<K: Copy> LineKind for UseLine<K> {
    type Item = Lit;

    type Context = UseLine<K>;

    type Fault = K;

    ghost allows = { λ line. line.max_var ≤ greatest };

    ghost at = { λ line. literal_at line.max_var any 10 };

    fn line(_alloc: Global, text: &[u8], line: UseLine<K>) -> Result<(Lit, &[u8]), Fault<K>> {
        literal(text, line.max_var, b'\n', line.kinds)
    }
}

/// A line of a latch.
pub struct LatchLine;

impl LineKind for LatchLine {
    type Item = Latch;

    type Context = u32;

    type Fault = ReadFault<NotDefining>;

    ghost allows = { λ max_var. max_var ≤ greatest };

    ghost at = { latch_at };

    #[tactic(auto, unfolding(crate::specs::Lines::latch_at, crate::specs::Lines::latch_end_at))]
    fn line(
        _alloc: Global,
        text: &[u8],
        max_var: u32,
    ) -> Result<(Latch, &[u8]), Fault<ReadFault<NotDefining>>> {
        let (lit, rest) = defining(text, max_var, b' ')?;
        let (next, end, rest) = next::<NotDefining>(rest, max_var)?;
        if end == b'\n' {
            let reset = Lit(0);
            return Ok((Latch { lit, next, reset }, rest));
        }
        let (reset, rest) = reset::<NotDefining>(rest, lit)?;
        Ok((Latch { lit, next, reset }, rest))
    }
}

/// A line of a gate.
pub struct GateLine;

impl LineKind for GateLine {
    type Item = Gate;

    type Context = u32;

    type Fault = ReadFault<NotDefining>;

    ghost allows = { λ max_var. max_var ≤ greatest };

    ghost at = { gate_at };

    #[tactic(auto, unfolding(crate::specs::Lines::gate_at))]
    fn line(
        _alloc: Global,
        text: &[u8],
        max_var: u32,
    ) -> Result<(Gate, &[u8]), Fault<ReadFault<NotDefining>>> {
        let (lhs, rest) = defining(text, max_var, b' ')?;
        let kinds = ReadFault::<NotDefining>::IN_LITERAL;
        let (rhs0, rest) = literal(rest, max_var, b' ', kinds)?;
        let (rhs1, rest) = literal(rest, max_var, b'\n', kinds)?;
        Ok((Gate { lhs, rhs0, rhs1 }, rest))
    }
}
