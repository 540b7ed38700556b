//! The command `certify`: of clauses that are no invariant IC3 looks for one.

ghost use Rattle.std.specs.Prelude.{◌≡◌, IfOk};
ghost use Rattle.portfolio.specs.Conclusions.{status_in};
ghost use Rattle.verdict.specs.Verdicts.{status_of};

use crate::telling::conclude;
use crate::timing::{ask, begin};
use aigmc_certificates::{Adopted, NO_INVARIANT};
use aigmc_files::{DONE, EvidenceFile, ExitError, Role, UNKNOWN, about, keep, make_bytes};
use arguments::{Claim, EngineKind, Search};
use base::Seq;
use graph::{AigerFile, Lit, Property};
use portfolio::{Conclusion, Question};
use property_names::symbol_of;
use rounds::Counted;
use verdict::Verdict;

/// What is asked of IC3.
fn search_for(asked: Claim<'_>) -> Search {
    Search {
        engine: EngineKind::Inductive,
        depth: 0,
        budget: asked.budget,
        seed: 0,
        timeout: asked.timeout,
        quiet: false,
        json: false,
        verbose: asked.verbose,
    }
}

/// Says that nothing is known.
fn tell_unknown(rt: &HostRuntime) -> u8
    ensures { result ≡ 2 }
{
    let _ = eprintln!(rt; "aigmc: nothing is known of the property");
    UNKNOWN
}

/// Makes the file of that name with the certificate of a property that holds. Of another verdict standard error says what it
/// is.
fn keep_safe(
    rt: &HostRuntime,
    out: &str,
    property: Property,
    verdict: &Verdict,
) -> Result<u8, ExitError>
    ensures { IfOk result (λ status. status ≡ status_of verdict.now) }
{
    match verdict {
        Verdict::Safe(_) => {
            keep(rt, EvidenceFile::plain(out), property, verdict)?;
            Ok(DONE)
        }
        Verdict::Unsafe(_) => {
            let _ = eprintln!(rt; "aigmc: the property is violated");
            Ok(NO_INVARIANT)
        }
        Verdict::Unknown(_) => Ok(tell_unknown(rt)),
    }
}

/// The same of what was found, where rounds may have been counted.
fn keep_found(
    rt: &HostRuntime,
    out: &str,
    property: Property,
    conclusion: &Conclusion,
) -> Result<u8, ExitError>
    ensures { IfOk result (λ status. status ≡ status_in conclusion.now) }
{
    match conclusion {
        Conclusion::Decided(verdict) => keep_safe(rt, out, property, verdict),
        Conclusion::Counted(Counted::Bounded { certificate, .. })
        | Conclusion::Shown(certificate) => {
            make_bytes(rt, out, certificate.as_slice())?;
            Ok(DONE)
        }
        Conclusion::Counted(Counted::Unknown { .. }) => Ok(tell_unknown(rt)),
    }
}

/// Looks by IC3 for an invariant, beginning with the clauses, of which nothing is believed.
fn strengthened(
    rt: &HostRuntime,
    asked: Claim<'_>,
    property: Property,
    file: &AigerFile,
    clauses: Seq<Seq<Lit>>,
) -> Result<u8, ExitError> {
    let timing = begin(rt, search_for(asked))?;
    let question = Question {
        circuit: file.model(),
        property,
        timing,
        by_text: true,
    };
    let conclusion = ask(rt, question, clauses)?.conclusion;
    if asked.verbose {
        let symbol = symbol_of(file, property);
        conclude(rt, property, &conclusion, symbol, timing.deadline.is_over());
    }
    keep_found(rt, asked.certificate, property, &conclusion)
}

/// Makes a certificate of the clauses in a file, in the file of that name.
pub fn certify_clauses(rt: &HostRuntime, asked: Claim<'_>) -> Result<u8, ExitError> {
    match aigmc_certificates::certify_clauses(rt, asked)? {
        Adopted::Ended(status) => Ok(status),
        Adopted::Strengthen {
            file,
            property,
            clauses,
        } => about(
            Role::Circuit,
            strengthened(rt, asked, property, &file, clauses),
        ),
    }
}
