//! How a command looks at a question.

ghost use Rattle.std.specs.Prelude.{IfOk};
ghost use Rattle.portfolio.specs.Conclusions.{IsConcluded};

use crate::vacuity;
use aigmc_files::{CommandError, ExitError, Role, about, finished, is_terminal};
use arguments::Search;
use base::Seq;
use graph::{Lit, Model};
use portfolio::{Answered, Deadline, Question, Shown, Timing};
use std::time::Instant;

/// How the search is shown on standard error: by lines where they are asked for, and else by one line where that is a
/// terminal.
fn shown_of(rt: &HostRuntime, search: Search) -> Shown {
    if search.verbose {
        Shown::Lines
    } else if !search.quiet && is_terminal(rt) {
        Shown::OneLine
    } else {
        Shown::Nothing
    }
}

/// This search, whose time begins now.
pub fn begin(rt: &HostRuntime, search: Search) -> Result<Timing, ExitError> {
    let deadline = finished(Deadline::after(rt, search.timeout))?;
    Ok(Timing {
        search,
        deadline,
        shown: shown_of(rt, search),
    })
}

/// What the engines say of the question. IC3 tries these clauses first.
pub fn ask(
    rt: &HostRuntime,
    question: Question<'_>,
    candidates: Seq<Seq<Lit>>,
) -> Result<Answered, ExitError>
    ensures { IfOk result (λ a. IsConcluded question.entry.circuit.now question.entry.property a.conclusion) }
{
    let answered = question.ask(rt, candidates).map_err(CommandError::from)?;
    Ok(answered)
}

/// When a search begins now, where JSON is to say how long it took and the clock says so.
pub fn now(rt: &HostRuntime, timing: Timing) -> Option<Instant> {
    if timing.search.json {
        Instant::now(rt).ok()
    } else {
        None
    }
}

/// Whether it is shown that no run keeps the constraints, where anything is said of the search: standard error says so
/// too, but where only JSON does.
pub fn is_vacuous(rt: &HostRuntime, timing: Timing, circuit: &Model) -> Result<bool, ExitError> {
    let is_told = timing.shown != Shown::Nothing;
    if !is_told && !timing.search.json {
        return Ok(false);
    }
    let is_vacuous = vacuity::is_vacuous(rt.alloc(), circuit, timing.deadline);
    let is_vacuous = about(Role::Circuit, is_vacuous)?;
    if is_vacuous && is_told {
        let _ = eprintln!(rt; "aigmc: no run keeps the constraints, so every property holds");
    }
    Ok(is_vacuous)
}
