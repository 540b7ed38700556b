//! A whole AIGER file.

ghost use Rattle.std.specs.Prelude.{◌≡◌, ◌⊎◌, ℕ, option_map, IfOk, IfErr, OnOk};
ghost use Rattle.base.specs.Witness.{witness};
ghost use Rattle.graph.specs.Symbols.{symbol_counts, AreSymbols, IsFirstWrong};

use crate::error::ReadError;
use crate::model::Model;
use crate::symbol::{Symbol, Symbols, first_wrong};
use base::Seq;
use std::alloc::Global;

/// What an AIGER file says: a circuit, names of its literals in the file's order, and a comment.
#[derive(Drop)]
pub struct AigerFile {
    model: Model,
    symbols: Seq<Symbol>,
    comment: Option<Seq<u8>>,
}

impl std::marker::Model for AigerFile {
    ghost use Rattle.graph.specs.File.{File};
    ghost use Rattle.graph.specs.Symbols.{AreSymbols, symbol_counts};

    ghost Value = { File };

    ghost view = { λ f. record { model = f.model; symbols = f.symbols; comment = f.comment } };

    ghost invariant = { λ f. AreSymbols (symbol_counts f.model) f.symbols };
}

/// Whether the symbols name each something of the circuit that has no name yet.
fn check_symbols(alloc: Global, model: &Model, symbols: &[Symbol]) -> Result<(), ReadError>
    ensures ok { OnOk result (AreSymbols (symbol_counts model.now) symbols.now) }
    ensures refused { IfErr result (λ e. (e ≡ ReadError.OutOfMemory witness) ⊎ ((i : ℕ) × (e ≡ ReadError.Symbol i) × IsFirstWrong (symbol_counts model.now) symbols.now i)) }
{
    match first_wrong(alloc, model.parts(), symbols)? {
        Some(i) => Err(ReadError::Symbol(i as u64)),
        None => Ok(()),
    }
}

impl AigerFile {
    /// A file of this circuit, these symbols and this comment. It takes time by their length.
    pub fn new(
        alloc: Global,
        model: Model,
        symbols: Seq<Symbol>,
        comment: Option<Seq<u8>>,
    ) -> Result<AigerFile, ReadError>
        ensures ok { IfOk result (λ f. f ≡ record { model = model; symbols = symbols; comment = comment }) }
        // The first symbol that names nothing, or what has a name already, or has no name.
        ensures refused { IfErr result (λ e. (e ≡ ReadError.OutOfMemory witness) ⊎ ((i : ℕ) × (e ≡ ReadError.Symbol i) × IsFirstWrong (symbol_counts model) symbols i)) }
    {
        check_symbols(alloc, &model, symbols.as_slice())?;
        Ok(AigerFile {
            model,
            symbols,
            comment,
        })
    }

    /// A file of this circuit, symbols that were checked against its parts, and this comment.
    pub fn from_symbols(model: Model, symbols: Symbols, comment: Option<Seq<u8>>) -> AigerFile
        requires { symbols.counts ≡ symbol_counts model }
        ensures { result ≡ record { model = model; symbols = symbols.symbols; comment = comment } }
    {
        AigerFile {
            model,
            symbols: symbols.into_list(),
            comment,
        }
    }

    /// The circuit.
    pub fn model(&self) -> &Model
        ensures { result.now ≡ self.now.model }
    {
        &self.model
    }

    /// The same names and comment for another circuit, which has as many of each kind that can have
    /// a name.
    pub fn with_model(self, model: Model) -> AigerFile
        requires { symbol_counts model ≡ symbol_counts self.model }
        ensures { result ≡ record { model = model; symbols = self.symbols; comment = self.comment } }
    {
        AigerFile { model, ..self }
    }

    /// The symbols, in the order of the file.
    pub fn symbols(&self) -> &[Symbol]
        ensures list { result.now ≡ self.now.symbols }
        ensures symbols { AreSymbols (symbol_counts self.now.model) self.now.symbols }
    {
        self.symbols.as_slice()
    }

    /// The comment's bytes, where there is one.
    pub fn comment(&self) -> Option<&[u8]>
        ensures { option_map (λ bytes. bytes.now) result ≡ self.now.comment }
    {
        match &self.comment {
            Some(comment) => Some(comment.as_slice()),
            None => None,
        }
    }
}
