//! The lines before the sections.

ghost use Rattle.std.specs.Prelude.{List};
ghost use Rattle.graph.specs.declared.circuit.Lit.{Lit as ALit};
ghost use Rattle.scan.specs.Reading.{Gives};
ghost use Rattle.certificate.specs.Reading.{first_line_at, version_at, property_at, spaced_at, literals_at, clause_at};

use crate::cert_fault::{CertFault, IN_LINE, IN_PROPERTY, IN_VERSION};
use base::Seq;
use graph::{Lit, MOST_VARIABLES, Property};
use pieces::BufferKind;
use scan::{Fault, LineKind, byte, field, lines_into, number, tag};
use std::alloc::Global;

/// The greatest count of clauses, and of literals in a clause.
pub const GREATEST: u32 = MOST_VARIABLES;

/// The version of a text.
#[derive(Clone, Copy)]
pub enum Version {
    /// Without lemmas.
    One,
    /// With a section of lemmas before the others.
    Two,
}

/// The digit of the version, and what follows it.
#[tactic(auto, unfolding(crate::specs::Reading::version_at))]
fn version_digit(text: &[u8]) -> Result<(Version, &[u8]), Fault<CertFault>>
    ensures { Gives (λ x. (x.0, x.1.now)) result (version_at text.now) }
{
    match text {
        [b'2', behind @ ..] => Ok((Version::Two, behind)),
        _ => {
            let behind = byte(text, b'1', IN_VERSION)?;
            Ok((Version::One, behind))
        }
    }
}

/// The version that the first line names, and what follows that line.
#[tactic(auto, unfolding(crate::specs::Reading::first_line_at))]
pub fn first_line(text: &[u8]) -> Result<(Version, &[u8]), Fault<CertFault>>
    ensures { Gives (λ x. (x.0, x.1.now)) result (first_line_at text.now) }
{
    let rest = tag(text, b"aigcert ", IN_VERSION)?;
    let (version, rest) = version_digit(rest)?;
    let rest = byte(rest, b'\n', IN_VERSION)?;
    Ok((version, rest))
}

/// The property that the second line names, and what follows that line.
#[tactic(auto, unfolding(crate::specs::Reading::property_at, crate::specs::Reading::bad_at, crate::specs::Reading::justice_at, crate::specs::Reading::output_at))]
pub fn property(text: &[u8]) -> Result<(Property, &[u8]), Fault<CertFault>>
    ensures { Gives (λ x. (x.0, x.1.now)) result (property_at text.now) }
{
    match text {
        [b'b', behind @ ..] => {
            let (position, rest) = field(behind, u32::MAX, b'\n', IN_PROPERTY)?;
            Ok((Property::Bad(position), rest))
        }
        [b'j', behind @ ..] => {
            let (position, rest) = field(behind, u32::MAX, b'\n', IN_PROPERTY)?;
            Ok((Property::Justice(position), rest))
        }
        _ => {
            let behind = byte(text, b'o', IN_PROPERTY)?;
            let (position, rest) = field(behind, u32::MAX, b'\n', IN_PROPERTY)?;
            Ok((Property::Output(position), rest))
        }
    }
}

/// A literal behind a space.
struct SpacedLiteral;

impl LineKind for SpacedLiteral {
    type Item = Lit;

    type Context = ();

    type Fault = CertFault;

    ghost allows = { λ _. Unit {0} };

    ghost at = { λ _ bytes. spaced_at bytes };

    #[tactic(auto, unfolding(crate::specs::Reading::spaced_at))]
    fn line(_alloc: Global, text: &[u8], _context: ()) -> Result<(Lit, &[u8]), Fault<CertFault>> {
        let rest = byte(text, b' ', IN_LINE)?;
        let (literal, rest) = number(rest, u32::MAX, IN_LINE)?;
        Ok((Lit(literal), rest))
    }
}

/// As many literals as `count` says, put into a list that is emptied first, and what follows the
/// line end behind them.
#[tactic(auto, unfolding(crate::specs::Reading::literals_at))]
fn literals_into<'t>(
    alloc: Global,
    literals: &mut Vec<Lit>,
    count: u32,
    text: &'t [u8],
) -> Result<&'t [u8], Fault<CertFault>>
    ensures { Gives (λ x. (literals.new.items, x.now)) result (literals_at count text.now) }
{
    let rest = lines_into::<SpacedLiteral>(alloc, literals, count, text, ())?;
    let rest = byte(rest, b'\n', IN_LINE)?;
    Ok(rest)
}

/// The literals of the clause of a line, put into a list that is emptied first and keeps its memory,
/// and what follows the line.
#[tactic(auto, unfolding(crate::specs::Reading::clause_at))]
fn clause_into<'t>(
    alloc: Global,
    clause: &mut Vec<Lit>,
    text: &'t [u8],
) -> Result<&'t [u8], Fault<CertFault>>
    ensures { Gives (λ x. (clause.new.items, x.now)) result (clause_at text.now) }
{
    let (count, rest) = number(text, GREATEST, IN_LINE)?;
    literals_into(alloc, clause, count, rest)
}

/// A line of a clause.
pub struct ClauseLine;

impl LineKind for ClauseLine {
    type Item = Seq<Lit>;

    type Context = ();

    type Fault = CertFault;

    ghost allows = { λ _. Unit {0} };

    ghost at = { λ _ bytes. clause_at bytes };

    fn line(
        alloc: Global,
        text: &[u8],
        _context: (),
    ) -> Result<(Seq<Lit>, &[u8]), Fault<CertFault>> {
        let mut clause = Vec::new(alloc);
        let rest = clause_into(alloc, &mut clause, text)?;
        Ok((Seq::from_vec(clause), rest))
    }
}

impl BufferKind for ClauseLine {
    type Buffer = Vec<Lit>;

    type Item = ();

    type Context = ();

    type Fault = CertFault;

    ghost Value = { List ALit };

    ghost allows = { λ _. Unit {0} };

    ghost at = { λ _ bytes. clause_at bytes };

    ghost seen = { λ _ clause. clause.items };

    fn line_into<'t>(
        alloc: Global,
        clause: &mut Vec<Lit>,
        text: &'t [u8],
        _context: (),
    ) -> Result<((), &'t [u8]), Fault<CertFault>> {
        let rest = clause_into(alloc, clause, text)?;
        Ok(((), rest))
    }
}
