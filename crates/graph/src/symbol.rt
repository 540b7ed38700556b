//! Names of a circuit's literals.

ghost use Rattle.std.specs.Prelude.{◌≡◌, ◌<◌, ◌++◌, ◌∷◌, [], ◌↔◌, ℕ, List, false, map, replicate, length, slice_index_or, IsTrue, IfOk, OnOk, OnErr, MatchOption};
ghost use Rattle.std.specs.Bool.{OnTrue, OnFalse};
ghost use Rattle.std.specs.Mem.{type_size};
ghost use Rattle.base.specs.Sizes.{IsItemSize};
ghost use Rattle.graph.specs.Symbols.{index_of, symbol_counts, IsName, IsFree, AreSymbols, IsFirstWrong};
ghost use Rattle.graph.specs.Taken.{rows_of, marked_at, IsUnmarked, AreTaken};

use crate::parts::Parts;
use base::{Refused, Seq, filled_like, push};
use std::alloc::Global;
use std::marker::Model;

/// What a symbol names: the letters `i l o b c j f` of AIGER 1.9.
#[derive(Clone, Copy, PartialEq, Eq)]
pub enum SymbolKind {
    Input,
    Latch,
    Output,
    Bad,
    Constraint,
    Justice,
    Fairness,
}

impl SymbolKind {
    /// The kind's position in the list of kinds.
    fn index(self) -> usize
        ensures { result ≡ index_of self }
    {
        match self {
            SymbolKind::Input => 0,
            SymbolKind::Latch => 1,
            SymbolKind::Output => 2,
            SymbolKind::Bad => 3,
            SymbolKind::Constraint => 4,
            SymbolKind::Justice => 5,
            SymbolKind::Fairness => 6,
        }
    }
}

/// A name for what stands at a position among its kind.
#[derive(Drop)]
pub struct Symbol {
    pub kind: SymbolKind,
    pub position: u32,
    /// One or more bytes, none of them a line end.
    pub name: Seq<u8>,
}

/// Whether the bytes can be a symbol's name: one or more, none of them a line end.
pub fn is_name(name: &[u8]) -> bool
    ensures { IsTrue result ↔ IsName name.now }
{
    !name.is_empty() && name.iter().all(|byte| *byte != b'\n')
}

/// Symbols of some parts, each of what is there, no two of the same.
#[derive(Drop)]
pub struct Symbols {
    // for each kind, which positions have a symbol
    taken: Vec<Vec<bool>>,
    symbols: Vec<Symbol>,
}

impl Model for Symbols {
    ghost use Rattle.graph.specs.Symbols.{Labels};
    ghost use Rattle.graph.specs.Taken.{AreTaken, labels_of, rows_of};

    ghost Value = { Labels };

    ghost view = { λ s. labels_of (rows_of s.taken.items) s.symbols.items };

    ghost invariant = { λ s. AreTaken (rows_of s.taken.items) s.symbols.items };
}

/// Whether there is something at this position of its kind, and no symbol names it.
fn is_free(taken: &[Vec<bool>], kind: usize, position: usize) -> bool
    requires { kind < length taken.now }
    ensures { IsTrue result ↔ IsUnmarked (rows_of taken.now) kind position }
{
    matches!(taken[kind].get(position), Some(false))
}

/// Marks a position of a kind.
fn mark(taken: &mut [Vec<bool>], kind: usize, position: usize)
    requires kinds { kind < length taken.old }
    requires inside { position < length (slice_index_or (rows_of taken.old) kind []) }
    ensures { rows_of taken.new ≡ marked_at (rows_of taken.old) kind position }
{
    taken[kind][position] = true;
}

/// Adds a row of marks, one for each item of the list, none of them set.
fn push_row<T>(alloc: Global, taken: &mut Vec<Vec<bool>>, list: &[T]) -> Result<(), Refused>
    requires { IsItemSize (type_size T.row) }
    ensures { OnOk result (rows_of taken.new.items ≡ rows_of taken.old.items ++ replicate (length list.now) false ∷ []) }
{
    push(taken, filled_like(alloc, false, list)?)
}

/// A row of marks for each kind, none of them set.
fn unmarked(alloc: Global, parts: &Parts) -> Result<Vec<Vec<bool>>, Refused>
    ensures { IfOk result (λ taken. rows_of taken.items ≡ map (λ n. replicate n false) (symbol_counts parts.now)) }
{
    let mut taken = Vec::new(alloc);
    push_row(alloc, &mut taken, parts.inputs.as_slice())?;
    push_row(alloc, &mut taken, parts.latches.as_slice())?;
    push_row(alloc, &mut taken, parts.outputs.as_slice())?;
    push_row(alloc, &mut taken, parts.bad.as_slice())?;
    push_row(alloc, &mut taken, parts.constraints.as_slice())?;
    push_row(alloc, &mut taken, parts.justice.as_slice())?;
    push_row(alloc, &mut taken, parts.fairness.as_slice())?;
    Ok(taken)
}

/// A mark for each thing of the parts that can have a name, none of them set.
fn marks_for(alloc: Global, parts: &Parts) -> Result<Vec<Vec<bool>>, Refused>
    ensures taken { IfOk result (λ taken. AreTaken (rows_of taken.items) []) }
    ensures counts { IfOk result (λ taken. map length (rows_of taken.items) ≡ symbol_counts parts.now) }
{
    let taken = unmarked(alloc, parts)?;
    Ok(taken)
}

impl Symbols {
    /// No symbols yet, of these parts. It takes a mark for each thing that can have a name.
    pub fn new(alloc: Global, parts: &Parts) -> Result<Symbols, Refused>
        ensures { IfOk result (λ s. s ≡ record { counts = symbol_counts parts.now; symbols = [] }) }
    {
        Ok(Symbols {
            taken: marks_for(alloc, parts)?,
            symbols: Vec::new(alloc),
        })
    }

    /// Whether there is something of this kind at this position, and no symbol names it.
    pub fn is_free(&self, kind: SymbolKind, position: u32) -> bool
        ensures { (name : List ℕ) → IsTrue result ↔ IsFree self.now.counts self.now.symbols (record { kind = kind; position = position; name = name }) }
    {
        is_free(&self.taken, kind.index(), position as usize)
    }

    /// Adds a symbol at the end and answers true, where it names something that is there and that
    /// has no name yet; otherwise, and without memory, nothing changes.
    pub fn add(&mut self, symbol: Symbol) -> Result<bool, Refused>
        requires { IsName symbol.name }
        ensures added { IfOk result (λ added. OnTrue added (self.new ≡ record { counts = self.old.counts; symbols = self.old.symbols ++ symbol ∷ [] })) }
        ensures free { IfOk result (λ added. IsTrue added ↔ IsFree self.old.counts self.old.symbols symbol) }
        ensures refused { IfOk result (λ added. OnFalse added (self.new ≡ self.old)) }
        ensures err { OnErr result (self.new ≡ self.old) }
    {
        let kind = symbol.kind.index();
        let position = symbol.position as usize;
        if !is_free(&self.taken, kind, position) {
            return Ok(false);
        }
        push(&mut self.symbols, symbol)?;
        mark(&mut self.taken, kind, position);
        Ok(true)
    }
}

impl Symbols {
    /// The symbols, in the order in which they were added.
    pub fn into_list(self) -> Seq<Symbol>
        ensures list { result ≡ self.symbols }
        ensures symbols { AreSymbols self.counts self.symbols }
    {
        let Symbols { taken: _, symbols } = self;
        Seq::from_vec(symbols)
    }
}

/// Whether each symbol names something of these parts and no two the same: the position of the
/// first that does not. It is linear in the parts and the symbols.
pub(crate) fn first_wrong(
    alloc: Global,
    parts: &Parts,
    symbols: &[Symbol],
) -> Result<Option<usize>, Refused>
    ensures { IfOk result (λ wrong. MatchOption wrong (AreSymbols (symbol_counts parts.now) symbols.now) (IsFirstWrong (symbol_counts parts.now) symbols.now)) }
{
    let mut taken = marks_for(alloc, parts)?;
    for (i, symbol) in symbols.iter().enumerate() {
        let kind = symbol.kind.index();
        let position = symbol.position as usize;
        if !is_name(symbol.name.as_slice()) {
            return Ok(Some(i));
        }
        if !is_free(&taken, kind, position) {
            return Ok(Some(i));
        }
        mark(&mut taken, kind, position);
    }
    Ok(None)
}
