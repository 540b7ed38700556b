//! Which inputs and latches a witness circuit shares with the model.

ghost use Rattle.std.specs.Prelude.{◌≡◌, None, IfErr, get_or};
ghost use Rattle.witness_pairs.specs.Pairs.{IsOther};

use crate::pair_error::PairError;
use base::{Refused, filled, filled_like};
use graph::{AigerFile, Latch, Lit, Model, Symbol, SymbolKind};
use scan::{Kinds, number};
use std::alloc::Global;

/// The faults of a name, which are not told apart.
const IN_NAME: Kinds<()> = Kinds {
    truncated: (),
    number: (),
    over: (),
    byte: (),
};

/// The model's literals of the witness's inputs and latches, by their positions. One of the witness's own has none. And the
/// resets of its latches that are functions.
#[derive(Drop)]
pub struct Shared {
    /// those of the inputs
    pub inputs: Vec<Option<Lit>>,
    /// those of the latches
    pub latches: Vec<Option<Lit>>,
    /// the witness's literals with whose values its latches begin, by their positions; in the circuit each such latch is
    /// its own reset
    pub resets: Vec<Option<Lit>>,
}

/// The model's literal at the position, where it is shared.
pub fn given_at(shared: &[Option<Lit>], position: usize) -> Option<Lit>
    ensures { result ≡ get_or shared.now position None }
{
    match shared.get(position) {
        Some(given) => *given,
        None => None,
    }
}

/// What a variable of the model is.
#[derive(Clone, Copy, PartialEq, Eq)]
enum Kind {
    /// An input that no name of the witness has yet.
    Input,
    /// A latch that no name of the witness has yet.
    Latch,
    /// Something else.
    Other,
}

/// The literal that a name has behind its equals sign.
fn literal_behind(name: &[u8]) -> Option<Lit> {
    let digits = match name.iter().position(|byte| *byte != b' ') {
        Some(first) => &name[first..],
        None => &[],
    };
    match number(digits, u32::MAX, IN_NAME) {
        Ok((found, rest)) if rest.is_empty() => Some(Lit(found)),
        _ => None,
    }
}

/// Notes what the variables of these literals are.
fn note_inputs(kinds: &mut [Kind], inputs: &[Lit]) {
    for lit in inputs {
        if let Some(kind) = kinds.get_mut(lit.variable() as usize) {
            *kind = Kind::Input;
        }
    }
}

/// Notes what the variables of these latches are.
fn note_latches(kinds: &mut [Kind], latches: &[Latch]) {
    for latch in latches {
        if let Some(kind) = kinds.get_mut(latch.lit.variable() as usize) {
            *kind = Kind::Latch;
        }
    }
}

/// What each variable of the model is.
fn kinds_of(alloc: Global, model: &Model) -> Result<Vec<Kind>, Refused> {
    model.well_formed();
    let mut kinds = filled(alloc, Kind::Other, model.max_var() as usize + 1)?;
    note_inputs(kinds.as_mut_slice(), model.inputs());
    note_latches(kinds.as_mut_slice(), model.latches());
    Ok(kinds)
}

/// Takes a literal of the model that is of this kind, where no name had it.
fn take(kinds: &mut [Kind], lit: Lit, kind: Kind) -> bool {
    if lit.is_negated() {
        return false;
    }
    match kinds.get_mut(lit.variable() as usize) {
        Some(found) if *found == kind => {
            *found = Kind::Other;
            true
        }
        _ => false,
    }
}

/// What a symbol of this kind is to name: an input or a latch, or nothing else.
fn kind_of(kind: SymbolKind) -> Kind {
    match kind {
        SymbolKind::Input => Kind::Input,
        SymbolKind::Latch => Kind::Latch,
        _ => Kind::Other,
    }
}

/// The literal that a symbol of an input or a latch names behind an equals sign, where its name begins with one.
fn named_by(symbol: &Symbol) -> Result<Option<Lit>, PairError>
    ensures { IfErr result IsOther }
{
    let [b'=', behind @ ..] = symbol.name.as_slice() else {
        return Ok(None);
    };
    match literal_behind(behind) {
        Some(lit) => Ok(Some(lit)),
        None => Err(PairError::Symbol(symbol.position)),
    }
}

/// Puts the literal at the position, where there is one.
fn put(places: &mut [Option<Lit>], position: usize, lit: Lit) {
    if let Some(place) = places.get_mut(position) {
        *place = Some(lit);
    }
}

/// Puts the inputs at their positions.
fn put_inputs(places: &mut [Option<Lit>], inputs: &[Lit]) {
    for (position, lit) in inputs.iter().enumerate() {
        put(places, position, *lit);
    }
}

/// Puts the latches at their positions.
fn put_latches(places: &mut [Option<Lit>], latches: &[Latch]) {
    for (position, latch) in latches.iter().enumerate() {
        put(places, position, latch.lit);
    }
}

impl Shared {
    /// Nothing is shared yet with this witness.
    fn none(alloc: Global, witness: &Model) -> Result<Shared, Refused> {
        Ok(Shared {
            inputs: filled_like(alloc, None, witness.inputs())?,
            latches: filled_like(alloc, None, witness.latches())?,
            resets: Vec::new(alloc),
        })
    }

    /// Puts the literal at the position of its kind.
    fn put(&mut self, kind: Kind, position: usize, lit: Lit) {
        match kind {
            Kind::Input => put(self.inputs.as_mut_slice(), position, lit),
            Kind::Latch => put(self.latches.as_mut_slice(), position, lit),
            Kind::Other => {}
        }
    }

    /// Shares the model's literal that a symbol of the witness names, where it names one. Answers whether it does.
    fn take_symbol(&mut self, kinds: &mut [Kind], symbol: &Symbol) -> Result<bool, PairError>
        ensures { IfErr result IsOther }
    {
        let kind = kind_of(symbol.kind);
        if kind == Kind::Other {
            return Ok(false);
        }
        let Some(lit) = named_by(symbol)? else {
            return Ok(false);
        };
        if !take(kinds, lit, kind) {
            return Err(PairError::Symbol(symbol.position));
        }
        self.put(kind, symbol.position as usize, lit);
        Ok(true)
    }

    /// Shares what the symbols name. Answers whether they name something.
    fn take_symbols(&mut self, kinds: &mut [Kind], symbols: &[Symbol]) -> Result<bool, PairError>
        ensures { IfErr result IsOther }
    {
        let mut is_named = false;
        for symbol in symbols {
            if self.take_symbol(kinds, symbol)? {
                is_named = true;
            }
        }
        Ok(is_named)
    }

    /// Shares the first inputs and latches.
    fn take_first(&mut self, model: &Model) {
        put_inputs(self.inputs.as_mut_slice(), model.inputs());
        put_latches(self.latches.as_mut_slice(), model.latches());
    }

    /// What a witness shares with the model: what its symbols name, by the model's literals; or, where they name nothing
    /// so, the first inputs and latches of both. No reset is a function yet. Refused is the first symbol that names no input or latch of the model of
    /// its kind, or one that another one names.
    pub fn of(alloc: Global, model: &Model, witness: &AigerFile) -> Result<Shared, PairError>
        ensures { IfErr result IsOther }
    {
        let mut shared = Shared::none(alloc, witness.model())?;
        let mut kinds = kinds_of(alloc, model)?;
        if !shared.take_symbols(kinds.as_mut_slice(), witness.symbols())? {
            shared.take_first(model);
        }
        Ok(shared)
    }
}
