//! Clauses that a refuter takes over.

ghost use Rattle.std.specs.Prelude.{◌≡◌, ◌<◌, ◌^◌, ◌++◌, ◌∷◌, [], All, OnOk, flat_map, get_or, length, map};
ghost use Rattle.lrat.specs.Found.{found_literals};
ghost use Rattle.lrat.specs.Rows.{AreRowed, FitsMoved, HasNegations, and_clauses, gate_count, moved_gate, rows};

use crate::clause::Clause;
use crate::found_clause::FoundClause;
use crate::gate_literals::GateLiterals;
use crate::run::Run;
use base::{Lists, Refused, Seq, push};
use std::alloc::Global;
use std::marker::Model;

/// A list of clauses in the making.
pub trait AddClause {
    ghost use Rattle.std.specs.Prelude.{ℤ, List};

    /// the clauses in their order
    ghost clauses: { Self → List (List ℤ) };

    /// Adds a clause behind the others.
    fn add_clause(&mut self, alloc: Global, clause: &[i32]) -> Result<(), Refused>
        ensures { OnOk result (clauses self.new ≡ clauses self.old ++ clause.now ∷ []) };

    /// Adds the three clauses of an AND gate behind the others.
    fn add_gate(&mut self, alloc: Global, gate: GateLiterals) -> Result<(), Refused>
        requires { HasNegations gate }
        ensures { OnOk result (clauses self.new ≡ clauses self.old ++ and_clauses gate) };
}

impl AddClause for Seq<Clause> {
    ghost clauses = { λ s. s };

    fn add_clause(&mut self, alloc: Global, clause: &[i32]) -> Result<(), Refused> {
        self.push(Clause::from_slice(alloc, clause)?)
    }

    fn add_gate(&mut self, alloc: Global, gate: GateLiterals) -> Result<(), Refused> {
        for index in 0..3 {
            self.add_clause(alloc, gate.clause(index).as_slice())?;
        }
        Ok(())
    }
}

/// Clauses in the form in which a `Refuter` keeps those of a formula: it takes them over and copies
/// nothing. A clause costs 16 bytes and 4 for each literal. Gates that are kept elsewhere stand among
/// them, for one time or for several, and cost nothing but that. A contract sees the list of the
/// clauses.
#[derive(Drop)]
pub struct ClauseRow<'a> {
    /// the clauses that were added as such
    lists: Lists<i32>,
    /// the gates among them
    runs: Vec<Run<'a>>,
}

impl<'a> Model for ClauseRow<'a> {
    ghost use Rattle.std.specs.Prelude.{ℤ, List};
    ghost use Rattle.lrat.specs.Rows.{AreRowed, rows};

    ghost Value = { List (List ℤ) };

    ghost view = { λ r. rows r.lists r.runs.items };

    ghost invariant = { λ r. AreRowed r.lists r.runs.items };
}

impl<'a> ClauseRow<'a> {
    /// No clauses, which take no memory.
    pub fn new(alloc: Global) -> ClauseRow<'a>
        ensures { result ≡ [] }
    {
        ClauseRow {
            lists: Lists::new(alloc),
            runs: Vec::new(alloc),
        }
    }

    /// Adds the three clauses of each of these gates behind the others, over variables that are greater
    /// by `shift`. The gates stay where they are.
    pub fn add_gates(&mut self, gates: &'a [GateLiterals], shift: u32) -> Result<(), Refused>
        requires { All (FitsMoved shift) gates.now }
        ensures { OnOk result (self.new ≡ self.old ++ flat_map and_clauses (map (moved_gate shift) gates.now)) }
    {
        let run = Run {
            lists: self.lists.len(),
            gates,
            shift,
        };
        push(&mut self.runs, run)?;
        Ok(())
    }

    /// Drops all clauses, and gives their memory back.
    pub(crate) fn clear(&mut self, alloc: Global)
        ensures { self.new ≡ [] }
    {
        self.lists = Lists::new(alloc);
        self.runs.clear();
    }

    /// How many clauses there are.
    pub(crate) fn len(&self) -> usize
        requires few { length self.now < 2 ^ 32 }
        ensures { result ≡ length self.now }
    {
        self.lists.len() + 3 * count_gates(self.runs.as_slice())
    }

    /// The clause at the index. It costs the number of times that gates were added.
    #[inline(always)]
    pub(crate) fn clause(&self, index: usize) -> FoundClause<'_>
        requires { index < length self.now }
        ensures { found_literals result ≡ get_or self.now index [] }
    {
        clause_at(&self.lists, self.runs.as_slice(), index)
    }
}

impl<'a> AddClause for ClauseRow<'a> {
    ghost clauses = { λ r. r };

    #[inline(always)]
    fn add_clause(&mut self, _alloc: Global, clause: &[i32]) -> Result<(), Refused> {
        self.lists.push(clause)?;
        Ok(())
    }

    fn add_gate(&mut self, alloc: Global, gate: GateLiterals) -> Result<(), Refused> {
        for index in 0..3 {
            self.add_clause(alloc, gate.clause(index).as_slice())?;
        }
        Ok(())
    }
}

/// How many gates there are.
fn count_gates(runs: &[Run<'_>]) -> usize
    requires few { gate_count runs.now < 2 ^ 32 }
    ensures { result ≡ gate_count runs.now }
{
    let mut count = 0;
    for run in runs {
        count += run.gates.len();
    }
    count
}

/// The clause at the index.
#[inline(always)]
fn clause_at<'a>(lists: &'a Lists<i32>, runs: &[Run<'_>], index: usize) -> FoundClause<'a>
    requires are { AreRowed lists.now runs.now }
    requires within { index < length (rows lists.now runs.now) }
    ensures { found_literals result ≡ get_or (rows lists.now runs.now) index [] }
{
    let mut left = index;
    for run in runs {
        if left >= run.lists {
            let behind = left - run.lists;
            let count = 3 * run.gates.len();
            if behind < count {
                let place = behind / 3;
                return run.gates[place].moved_clause(run.shift, behind - 3 * place);
            }
            left -= count;
        }
    }
    FoundClause::Slice(lists.list(left))
}
