//! The map of equal latches that `equal` makes.

use aigmc_files::{ExitError, is_same, make_map};
use base::{Refused, Seq, extend, filled_like};
use explanations::Quoted;
use graph::{AigerFile, Latch, Lit, SymbolKind};
use latch_map::{Line, latch_map};
use portfolio::Conclusion;
use std::alloc::Global;
use std::fmt;
use verdict::Verdict;

/// The name of what has no symbol.
const NO_NAME: &[u8] = &[];
/// How long the letter is that stands before the name of a latch in a miter.
const LETTER: usize = 2;

/// The file to make of the map, and the position of the second circuit's first latch in the miter.
#[derive(Clone, Copy)]
pub struct MapFile<'a> {
    /// the file's name
    pub name: &'a str,
    /// the position
    pub position: usize,
}

/// A latch as a map has it: the circuit's letter, and the position there.
#[derive(Clone, Copy)]
struct Spot {
    letter: &'static str,
    number: usize,
}

impl fmt::Display for Spot {
    fn fmt<W: fmt::Write>(&self, f: &mut fmt::Formatter<W>) -> fmt::Result {
        let (letter, number) = (self.letter, self.number);
        write!(f, "{letter}{number}")
    }
}

/// The latches of a miter, their names there, and the position of the second circuit's first one.
#[derive(Clone, Copy)]
struct Latches<'a> {
    latches: &'a [Latch],
    names: &'a [&'a [u8]],
    inputs: usize,
    position: usize,
}

impl<'a> Latches<'a> {
    /// The latch at a place.
    fn spot(self, place: usize) -> Spot {
        if place < self.position {
            return Spot {
                letter: "a",
                number: place,
            };
        }
        Spot {
            letter: "b",
            number: place.saturating_sub(self.position),
        }
    }

    /// The name of the latch at a place, in its own circuit.
    fn name(self, place: usize) -> Quoted<'a> {
        match self.names.get(place) {
            Some(name) => Quoted(name.get(LETTER..).unwrap_or(NO_NAME)),
            None => Quoted(NO_NAME),
        }
    }

    /// The place of the literal's latch: a miter has the numbering of the binary layout.
    fn place(self, lit: Lit) -> Option<usize> {
        let variable = lit.variable() as usize;
        let place = variable.checked_sub(self.inputs.saturating_add(1))?;
        let latch = self.latches.get(place)?;
        if latch.lit.variable() == lit.variable() {
            Some(place)
        } else {
            None
        }
    }

    /// Whether the line at a place says again what an earlier one says: that of the latch that it names.
    fn is_said(self, lines: &[Line], place: usize, line: Line) -> bool {
        if place < self.position {
            return false;
        }
        let Some(same) = line.same else {
            return false;
        };
        let Some(other) = self.place(same) else {
            return false;
        };
        let Some(earlier) = lines.get(other) else {
            return false;
        };
        match earlier.same {
            Some(named) => named.variable() == line.latch.variable(),
            None => false,
        }
    }

    /// The text of the line at a place.
    fn text(self, alloc: Global, place: usize, same: Option<Lit>) -> Result<String, ExitError> {
        let (spot, name) = (self.spot(place), self.name(place));
        let text = match same {
            Some(same) if same.variable() == 0 => {
                let value = u8::from(same.is_negated());
                format!(in alloc; "{spot} = {value} {name}\n")
            }
            Some(same) => match self.place(same) {
                Some(other) => {
                    let sign = if same.is_negated() { "!=" } else { "=" };
                    let (there, called) = (self.spot(other), self.name(other));
                    format!(in alloc; "{spot} {sign} {there} {name} {called}\n")
                }
                None => format!(in alloc; "{spot} ? {name}\n"),
            },
            None => format!(in alloc; "{spot} ? {name}\n"),
        };
        match text {
            Ok(text) => Ok(text),
            Err(_) => Err(ExitError::Memory),
        }
    }

    /// The text of the lines.
    fn texts(self, alloc: Global, lines: &[Line]) -> Result<Vec<u8>, ExitError> {
        let mut bytes = Vec::new(alloc);
        for (place, line) in lines.iter().enumerate() {
            if !self.is_said(lines, place, *line) {
                let text = self.text(alloc, place, line.same)?;
                extend(&mut bytes, text.as_bytes())?;
            }
        }
        Ok(bytes)
    }
}

/// The name of each latch, empty where it has none.
fn latch_names<'a>(alloc: Global, file: &'a AigerFile) -> Result<Vec<&'a [u8]>, Refused> {
    let mut names: Vec<&'a [u8]> = filled_like(alloc, NO_NAME, file.model().latches())?;
    for symbol in file.symbols() {
        if let Some(name) = names.get_mut(symbol.position as usize)
            && symbol.kind == SymbolKind::Latch
        {
            *name = symbol.name.as_slice();
        }
    }
    Ok(names)
}

/// The text of the map that these lines of the miter are.
fn text_of(
    alloc: Global,
    miter: &AigerFile,
    position: usize,
    lines: &Seq<Line>,
) -> Result<Vec<u8>, ExitError> {
    let names = latch_names(alloc, miter)?;
    let latches = Latches {
        latches: miter.model().latches(),
        names: names.as_slice(),
        inputs: miter.model().inputs().len(),
        position,
    };
    latches.texts(alloc, lines.as_slice())
}

/// The text of the latches that the miter's certificate says are equal, or nothing where there is no certificate.
pub(crate) fn map_text(
    rt: &HostRuntime,
    miter: &AigerFile,
    conclusion: &Conclusion,
    position: usize,
) -> Result<Option<Vec<u8>>, ExitError> {
    let Conclusion::Decided(Verdict::Safe(certificate)) = conclusion else {
        return Ok(None);
    };
    let lines = latch_map(rt.alloc(), miter.model(), certificate, position)?;
    let text = text_of(rt.alloc(), miter, position, &lines)?;
    Ok(Some(text))
}

/// Says that nothing is known of equal latches.
pub(crate) fn tell_no_map(rt: &HostRuntime) {
    let _ = eprintln!(rt; "aigmc: no map: nothing is known of equal latches");
}

/// Refuses a map that is the file of the evidence, which is there.
fn expect_other(rt: &HostRuntime, map: MapFile<'_>, evidence: &str) -> Result<(), ExitError> {
    if is_same(rt, map.name, evidence) {
        return Err(ExitError::BadArgument);
    }
    Ok(())
}

/// Makes the file of the map, which is not that of the evidence, which is there where one is named.
pub(crate) fn keep_map(
    rt: &HostRuntime,
    map: MapFile<'_>,
    text: &[u8],
    evidence: Option<&str>,
) -> Result<(), ExitError> {
    if let Some(evidence) = evidence {
        expect_other(rt, map, evidence)?;
    }
    make_map(rt, map.name, text)
}
