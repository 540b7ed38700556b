//! Why a line is refused.

ghost use Rattle.std.specs.Prelude.{◌≡◌};
ghost use Rattle.base.specs.Witness.{witness};
ghost use Rattle.lrat.specs.Numbers.{number_of};
ghost use Rattle.lrat.specs.declared.fault.Fault.TheVariants.{OutOfMemory};

use base::Refused;
use std::fmt;
use thiserror::Error;

/// Why a line of a proof, or a whole proof, is refused.
#[derive(Clone, Copy, Debug, Error)]
pub enum Fault {
    /// out of memory
    OutOfMemory(Refused),
    /// a hint or a deletion names no clause that is present
    UnknownId,
    /// the id of an addition is not above all ids so far
    IdOrder,
    /// a hint before the last leaves two or more distinct literals
    SeveralLeft,
    /// the one literal that a hint leaves is true already
    TrueAlready,
    /// the last hint's clause is not false
    NotFalse,
    /// the clause of a hint before the last is false
    EarlyConflict,
    /// an addition has no hints
    NoHints,
    /// an addition has a negative hint
    NegativeHint,
    /// a clause repeats a literal, or has its negation
    RepeatedLiteral,
    /// no line adds the empty clause
    NoEmptyClause,
    /// a line follows the empty clause
    AfterEmpty,
    /// a clause has a variable that the formula lacks
    VariableRange,
    /// a line that several refutations are to share adds the empty clause
    EmptyLemma,
    /// the last unit's id would pass 4,294,967,295
    NoIds,
}

impl From<Refused> for Fault {
    ghost from_gives = { λ _ e. e ≡ OutOfMemory witness };

    fn from(refused: Refused) -> Fault {
        Fault::OutOfMemory(refused)
    }
}

impl fmt::Display for Fault {
    fn fmt<W: fmt::Write>(&self, f: &mut fmt::Formatter<W>) -> fmt::Result {
        f.write_str(self.words())
    }
}

impl Fault {
    /// The number of this refusal.
    pub fn number(self) -> u8
        ensures { result ≡ number_of self }
    {
        match self {
            Fault::OutOfMemory(_) => 20,
            Fault::UnknownId => 40,
            Fault::IdOrder => 41,
            Fault::SeveralLeft => 42,
            Fault::TrueAlready => 43,
            Fault::NotFalse => 44,
            Fault::EarlyConflict => 45,
            Fault::NoHints => 46,
            Fault::NegativeHint => 47,
            Fault::RepeatedLiteral => 48,
            Fault::NoEmptyClause => 49,
            Fault::AfterEmpty => 50,
            Fault::VariableRange => 51,
            Fault::EmptyLemma => 52,
            Fault::NoIds => 53,
        }
    }

    /// What the refusal says.
    fn words(self) -> &'static str {
        match self {
            Fault::OutOfMemory(_) => "out of memory",
            Fault::UnknownId => "no clause has this id",
            Fault::IdOrder => "the id is not above all ids so far",
            Fault::SeveralLeft => "a hint leaves several literals",
            Fault::TrueAlready => "the literal that a hint leaves is true already",
            Fault::NotFalse => "the last hint's clause is not false",
            Fault::EarlyConflict => "a hint before the last is false already",
            Fault::NoHints => "there are no hints",
            Fault::NegativeHint => "a hint is negative",
            Fault::RepeatedLiteral => "a literal is repeated or opposed",
            Fault::NoEmptyClause => "no line adds the empty clause",
            Fault::AfterEmpty => "a line follows the empty clause",
            Fault::VariableRange => "a variable is out of range",
            Fault::EmptyLemma => "the empty clause is a lemma",
            Fault::NoIds => "the units' ids would pass 4,294,967,295",
        }
    }
}
