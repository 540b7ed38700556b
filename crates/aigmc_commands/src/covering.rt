//! The command `cover`: a run that keeps the constraints.

use crate::telling::Why;
use crate::timing::{ask, begin};
use aigmc_files::{DONE, ExitError, Role, UNKNOWN, about, circuit, print_stimulus};
use arguments::Search;
use base::Seq;
use engine::Reason;
use graph::{Model, Property};
use portfolio::{Answered, Conclusion, Question, Timing};
use stimulus::Stimulus;
use transforms::{bad_behind, no_bad};
use verdict::Verdict;

/// The status where no run keeps the constraints so long.
const NO_RUN: u8 = 1;

/// Prints a run of the circuit that counts as one of the circuit itself. Its property is a bad literal that the circuit does
/// not have: the run is to violate none.
fn print_run(
    rt: &HostRuntime,
    circuit: &Model,
    initial: Seq<bool>,
    inputs: Seq<Seq<bool>>,
) -> Result<u8, ExitError> {
    let mut initial = initial.into_vec();
    initial.truncate(circuit.latches().len());
    let run = Stimulus::Violated {
        property: no_bad(circuit),
        initial: Seq::from_vec(initial),
        inputs,
    };
    print_stimulus(rt, &run)?;
    Ok(DONE)
}

/// Says that no run keeps the constraints for so many steps.
fn tell_none(rt: &HostRuntime, steps: u8) -> u8 {
    let _ = eprintln!(rt; "aigmc: no run keeps the constraints for {steps} steps");
    NO_RUN
}

/// Says why nothing is known.
fn tell_unknown(rt: &HostRuntime, reason: Reason, is_over: bool) -> u8 {
    let _ = eprintln!(rt; "aigmc: {}", Why { reason, is_over });
    UNKNOWN
}

/// What is known of the circuit's first bad literal. None where a certificate's text says that it is never set.
fn verdict_on(
    rt: &HostRuntime,
    circuit: &Model,
    timing: Timing,
) -> Result<Option<Verdict>, ExitError> {
    let question = Question {
        circuit,
        property: Property::Bad(0),
        timing,
        by_text: false,
    };
    let Answered {
        conclusion,
        steps: _,
        counters: _,
    } = ask(rt, question, Seq::new(rt.alloc()))?;
    match conclusion {
        Conclusion::Decided(verdict) => Ok(Some(verdict)),
        Conclusion::Shown(_) => Ok(None),
        // no rounds are counted of a bad literal
        Conclusion::Counted(_) => unreachable!(),
    }
}

/// What is known of the bad literal that is set behind so many steps.
fn verdict_behind(
    rt: &HostRuntime,
    circuit: &Model,
    timing: Timing,
) -> Result<Option<Verdict>, ExitError> {
    let made = bad_behind(rt.alloc(), circuit, timing.search.depth).map_err(ExitError::from);
    let made = about(Role::Circuit, made)?;
    about(Role::Circuit, verdict_on(rt, made.model(), timing))
}

/// Prints a run of the circuit that keeps the constraints, as long as the search is deep.
fn cover_in(rt: &HostRuntime, circuit: &Model, timing: Timing) -> Result<u8, ExitError> {
    let depth = timing.search.depth;
    let Some(verdict) = verdict_behind(rt, circuit, timing)? else {
        return Ok(tell_none(rt, depth));
    };
    match verdict {
        Verdict::Unsafe(
            Stimulus::Violated {
                initial,
                inputs,
                ..
            },
        ) => print_run(rt, circuit, initial, inputs),
        Verdict::Safe(_) => Ok(tell_none(rt, depth)),
        Verdict::Unknown(Reason::Depth(_)) => Ok(tell_none(rt, depth)),
        Verdict::Unknown(reason) => Ok(tell_unknown(rt, reason, timing.deadline.is_over())),
        Verdict::Unsafe(_) => Ok(tell_unknown(rt, Reason::NoEvidence, false)),
    }
}

/// Prints a run of the circuit in the file of this name that keeps the constraints, as long as the search is deep.
pub fn cover(rt: &HostRuntime, name: &str, search: Search) -> Result<u8, ExitError> {
    let timing = begin(rt, search)?;
    let file = circuit(rt, name)?;
    cover_in(rt, file.model(), timing)
}
