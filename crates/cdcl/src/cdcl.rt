//! The conflict-driven solver.

ghost use Rattle.std.specs.Prelude.{◌≡◌, ◌≤◌, []};

use base::Budget;
use cdcl_log::LoggedKernel;
use cdcl_search::{Guide, search};
use solver::{Answer, Part, PartSat, Sat, SatError, Statistics};
use std::alloc::Global;
use std::marker::Model;

/// A conflict-driven solver, to which clauses are added between the calls. What it learns follows
/// from the clauses alone and serves the later calls; a call that ends in a core costs what it
/// propagates, whatever the number of clauses and variables. The first assumptions cost nothing that the
/// call before began with too, but where one of both is about a part.
#[derive(Drop)]
pub struct Cdcl {
    kernel: LoggedKernel,
    guide: Guide,
}

impl Model for Cdcl {
    ghost use Rattle.cdcl_log.specs.Logged.{is_wanted};
    ghost use Rattle.cdcl.specs.Solving.{Solving};
    ghost use Rattle.std.specs.Prelude.{◌≡◌, false};

    ghost Value = { Solving };

    ghost view = { λ s. record { vars = s.kernel.vars; clauses = s.kernel.clauses; ids = s.kernel.ids } };

    ghost invariant = { λ s. (is_wanted s.kernel.log ≡ false) × (s.kernel.room ≡ 0) };
}

impl Cdcl {
    /// A solver over no variables and without clauses, which takes no memory.
    pub fn new(alloc: Global) -> Cdcl
        ensures { result ≡ record { vars = 0; clauses = []; ids = 0 } }
    {
        Cdcl {
            kernel: LoggedKernel::new(alloc),
            guide: Guide::new(alloc),
        }
    }
}

impl Sat for Cdcl {
    ghost vars = { λ s. s.vars };

    ghost clauses = { λ s. s.clauses };

    ghost is_full = { λ s. 4294967295 ≤ s.ids };

    /// It costs the number of variables, and a byte of memory for each.
    fn reset(&mut self, alloc: Global, count: u32) -> Result<(), SatError> {
        self.kernel.reset(alloc, count)?;
        self.guide.renew(alloc);
        Ok(())
    }

    fn vars(&self) -> u32 {
        self.kernel.known().vars()
    }

    /// It costs the clause's literals. The clause is looked at when `solve` is called.
    fn add(&mut self, _alloc: Global, clause: &[i32]) -> Result<(), SatError> {
        self.kernel.add(clause)?;
        let _ids = self.kernel.known().clauses();
        Ok(())
    }

    /// A step of the budget is a clause that is visited in propagation, or a decision or a
    /// conflict. After a refusal the clauses are watched anew. What it learns takes ids too.
    fn solve(
        &mut self,
        alloc: Global,
        assume: &[i32],
        budget: &mut Budget,
    ) -> Result<Answer, SatError> {
        let answer = search(&mut self.kernel, &mut self.guide, None, assume, budget);
        if answer.is_err() {
            self.guide.renew(alloc);
        }
        answer
    }

    /// How often the search did what, over all calls since `new`. Where `refused_learned` or `refused_cores`
    /// is not 0, the search was wrong somewhere, which costs time alone.
    fn statistics(&self) -> Statistics {
        self.guide.statistics()
    }
}

impl PartSat for Cdcl {
    /// As `solve`. It decides what gives a false gate of the part a false side, of two open sides the first, then the part's other
    /// variables, most active first; and passes clauses over that lead out of the part.
    fn solve_part(
        &mut self,
        alloc: Global,
        part: &Part,
        assume: &[i32],
        budget: &mut Budget,
    ) -> Result<Answer, SatError> {
        let kernel = &mut self.kernel;
        let answer = search(kernel, &mut self.guide, Some(part), assume, budget);
        if answer.is_err() {
            self.guide.renew(alloc);
        }
        answer
    }
}
