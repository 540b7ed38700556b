//! The commands `check` and `all`.

ghost use Rattle.std.specs.Prelude.{◌≡◌, ◌≢◌, ◌<◌, ◌≤◌, ◌⊎◌, IfOk, length};
ghost use Rattle.portfolio.specs.Conclusions.{status_in};

use crate::mapping::{MapFile, map_text, tell_no_map};
use crate::showing::Found;
use crate::timing::{ask, begin, is_vacuous, now};
use aigmc_files::{
    CommandError, DONE, EvidenceFile, ExitError, Fitted, Role, UNKNOWN, VIOLATED, about, asked_for,
    at, circuit, expect_folder, expect_safety, expect_witness_file, fault_of, is_taken,
    property_in, witness_in,
};
use arguments::{Kept, Search};
use base::Seq;
use engine::Counter;
use graph::{AigerFile, Lit, Model, Property};
use portfolio::{Answered, Conclusion, Question, Timing};
use properties::{Evidence, all_properties, evidence_name};
use property_names::Asked;
use rounds::Counted;
use std::alloc::Global;
use std::time::Instant;
use transforms::relevant_clauses;
use verdict::Verdict;

/// How long a search was.
#[derive(Clone, Copy)]
struct Spent<'a> {
    /// when it began, where that is to be said
    begun: Option<Instant>,
    /// how many steps of its budget are spent
    steps: u64,
    /// what the engines counted
    counters: &'a [Counter],
}

impl<'a> Spent<'a> {
    /// What this answer cost, by a search that began then.
    fn by(answered: &'a Answered, begun: Option<Instant>) -> Spent<'a> {
        Spent {
            begun,
            steps: answered.steps,
            counters: answered.counters.as_slice(),
        }
    }
}

/// What commands ask about: the circuit's file and its name, the folder for the evidence, where one is named, how the
/// search is to go, and whether it is shown that no run keeps the constraints.
#[derive(Clone, Copy)]
struct Whole<'a> {
    name: &'a str,
    file: &'a AigerFile,
    folder: Option<&'a str>,
    timing: Timing,
    is_vacuous: bool,
}

impl<'a> Whole<'a> {
    /// What was found of a property by a search of this length.
    fn found(
        self,
        property: Property,
        conclusion: &'a Conclusion,
        evidence: Option<EvidenceFile<'a>>,
        spent: Spent<'a>,
    ) -> Found<'a>
        ensures { result.conclusion.now ≡ conclusion.now }
    {
        Found {
            name: self.name,
            file: self.file,
            property,
            conclusion,
            evidence,
            search: self.timing.search,
            begun: spent.begun,
            steps: spent.steps,
            counters: spent.counters,
            is_over: self.timing.deadline.is_over(),
            is_vacuous: self.is_vacuous,
        }
    }
}

/// Which evidence there is.
fn evidence_of(conclusion: &Conclusion) -> Option<Evidence> {
    match conclusion {
        Conclusion::Decided(Verdict::Safe(_)) => Some(Evidence::Certificate),
        Conclusion::Decided(Verdict::Unsafe(_)) => Some(Evidence::Stimulus),
        Conclusion::Decided(Verdict::Unknown(_)) => None,
        Conclusion::Counted(Counted::Bounded { .. }) => Some(Evidence::Certificate),
        Conclusion::Counted(Counted::Unknown { .. }) => None,
        Conclusion::Shown(_) => Some(Evidence::Certificate),
    }
}

/// The file of this name for evidence, which gets a witness circuit where there is one.
fn file_for<'a>(name: &'a str, witness: Option<&'a Fitted>) -> EvidenceFile<'a> {
    EvidenceFile { name, witness }
}

/// The witness circuit of a property that holds, as the file of that name takes it.
fn witness_of(
    alloc: Global,
    circuit: &Model,
    property: Property,
    conclusion: &Conclusion,
    out: &str,
) -> Result<Option<Fitted>, ExitError> {
    let Conclusion::Decided(Verdict::Safe(certificate)) = conclusion else {
        return Ok(None);
    };
    let clauses = certificate.invariant.as_slice();
    let witness = witness_in(alloc, circuit, property, clauses, out)?;
    Ok(Some(witness))
}

/// Prints what was found by a search of this length. Its evidence goes to the file first, where there is to be one.
fn show<'a>(
    rt: &HostRuntime,
    whole: Whole<'a>,
    property: Property,
    conclusion: &'a Conclusion,
    evidence: Option<EvidenceFile<'a>>,
    spent: Spent<'a>,
) -> Result<u8, ExitError>
    ensures { IfOk result (λ status. status ≡ status_in conclusion.now) }
{
    whole.found(property, conclusion, evidence, spent).show(rt)
}

/// Prints what was found by a search of this length. The witness circuit of a property that holds goes to the file of that
/// name first.
fn show_witness(
    rt: &HostRuntime,
    whole: Whole<'_>,
    property: Property,
    conclusion: &Conclusion,
    out: &str,
    spent: Spent<'_>,
) -> Result<u8, ExitError>
    ensures { IfOk result (λ status. status ≡ status_in conclusion.now) }
{
    match witness_of(rt.alloc(), whole.file.model(), property, conclusion, out)? {
        Some(witness) => {
            let to = file_for(out, Some(&witness));
            show(rt, whole, property, conclusion, Some(to), spent)
        }
        None => show(rt, whole, property, conclusion, None, spent),
    }
}

/// Prints what was found by a search that began then. A certificate or its witness circuit goes to the file of that name
/// first, where one is named, or evidence to the folder.
fn keep_and_show(
    rt: &HostRuntime,
    whole: Whole<'_>,
    property: Property,
    kept: Kept<'_>,
    answered: &Answered,
    begun: Option<Instant>,
) -> Result<u8, ExitError>
    ensures { IfOk result (λ status. status ≡ status_in answered.now.conclusion) }
{
    let (conclusion, spent) = (&answered.conclusion, Spent::by(answered, begun));
    match (evidence_of(conclusion), kept) {
        (Some(Evidence::Certificate), Kept::Certificate(out)) => {
            let to = EvidenceFile::plain(out);
            show(rt, whole, property, conclusion, Some(to), spent)
        }
        (_, Kept::Witness(out)) => show_witness(rt, whole, property, conclusion, out, spent),
        _ => keep_in_and_print(rt, whole, property, conclusion, spent),
    }
}

/// Looks for evidence about the property of the circuit, and prints the verdict. A certificate or its witness circuit goes
/// to the file of that name first, where one is named, or evidence to the folder.
fn check_in(
    rt: &HostRuntime,
    name: &str,
    file: &AigerFile,
    property: Property,
    kept: Kept<'_>,
    timing: Timing,
) -> Result<u8, ExitError> {
    let whole = Whole {
        name,
        file,
        folder: kept.folder(),
        timing,
        is_vacuous: is_vacuous(rt, timing, file.model())?,
    };
    let begun = now(rt, timing);
    let question = Question {
        circuit: file.model(),
        property,
        timing,
        by_text: !matches!(kept, Kept::Witness(_)),
    };
    match about(Role::Circuit, ask(rt, question, Seq::new(rt.alloc()))) {
        Ok(answered) => keep_and_show(rt, whole, property, kept, &answered, begun),
        Err(stop) => Err(fault_of(rt.alloc(), file.model(), property, stop)),
    }
}

/// Refuses a file for a certificate that is taken, one for a witness circuit that no circuit can be written to, and a folder
/// for evidence that is none.
fn expect_place(rt: &HostRuntime, name: &str, kept: Kept<'_>) -> Result<(), ExitError> {
    match kept {
        Kept::Certificate(out) if is_taken(rt, name, out) => Err(ExitError::Taken),
        Kept::Witness(out) => expect_witness_file(rt, name, out),
        Kept::Folder(folder) => at(Role::Made, expect_folder(rt, folder)),
        _ => Ok(()),
    }
}

/// The same as `check` of a circuit that was read.
fn check_file(
    rt: &HostRuntime,
    name: &str,
    file: &AigerFile,
    asked: Asked<'_>,
    kept: Kept<'_>,
    timing: Timing,
) -> Result<u8, ExitError> {
    let property = property_in(rt, name, file, asked, timing.search.verbose)?;
    if matches!(kept, Kept::Witness(_)) {
        expect_safety(rt, property)?;
    }
    check_in(rt, name, file, property, kept, timing)
}

/// Looks for evidence about the property of this name, and prints the verdict. A certificate or its witness circuit goes to
/// the file of that name first, where one is named, or evidence to the folder.
pub fn check(
    rt: &HostRuntime,
    name: &str,
    property: &str,
    kept: Kept<'_>,
    search: Search,
) -> Result<u8, ExitError> {
    let timing = begin(rt, search)?;
    let asked = asked_for(property)?;
    expect_place(rt, name, kept)?;
    let file = circuit(rt, name)?;
    check_file(rt, name, &file, asked, kept, timing)
}

/// The file of the folder to make of the verdict's evidence, where it has some and a folder is named.
fn evidence_in(
    rt: &HostRuntime,
    whole: Whole<'_>,
    property: Property,
    conclusion: &Conclusion,
) -> Result<Option<String>, ExitError> {
    let Some(folder) = whole.folder else {
        return Ok(None);
    };
    let Some(evidence) = evidence_of(conclusion) else {
        return Ok(None);
    };
    let Ok(out) = evidence_name(rt.alloc(), folder, property, evidence) else {
        return Err(ExitError::Memory);
    };
    if is_taken(rt, whole.name, out.as_str()) {
        return Err(ExitError::Taken);
    }
    Ok(Some(out))
}

/// Prints a verdict. Its evidence goes to the folder first, where one is named.
fn keep_in_and_print(
    rt: &HostRuntime,
    whole: Whole<'_>,
    property: Property,
    conclusion: &Conclusion,
    spent: Spent<'_>,
) -> Result<u8, ExitError>
    ensures { IfOk result (λ status. status ≡ status_in conclusion.now) }
{
    match evidence_in(rt, whole, property, conclusion)? {
        Some(out) => {
            let to = EvidenceFile::plain(out.as_str());
            show(rt, whole, property, conclusion, Some(to), spent)
        }
        None => show(rt, whole, property, conclusion, None, spent),
    }
}

/// A map's file, and the text that it gets.
#[derive(Clone, Copy)]
struct Mapped<'a> {
    file: MapFile<'a>,
    text: &'a [u8],
}

/// Prints a verdict about a miter that holds. Its evidence goes to the file first, where there is to be one, and then the map to
/// its own.
fn show_mapped<'a>(
    rt: &HostRuntime,
    whole: Whole<'a>,
    map: Mapped<'_>,
    conclusion: &'a Conclusion,
    evidence: Option<EvidenceFile<'a>>,
    spent: Spent<'a>,
) -> Result<u8, ExitError> {
    let found = whole.found(Property::Bad(0), conclusion, evidence, spent);
    found.show_with_map(rt, map.file, map.text)
}

/// The same with the file of the evidence in the folder, where one is named.
fn show_mapped_in(
    rt: &HostRuntime,
    whole: Whole<'_>,
    map: Mapped<'_>,
    conclusion: &Conclusion,
    spent: Spent<'_>,
) -> Result<u8, ExitError> {
    match evidence_in(rt, whole, Property::Bad(0), conclusion)? {
        Some(out) => {
            let to = EvidenceFile::plain(out.as_str());
            show_mapped(rt, whole, map, conclusion, Some(to), spent)
        }
        None => show_mapped(rt, whole, map, conclusion, None, spent),
    }
}

/// Prints a verdict about a miter. Its evidence goes to the folder first, where one is named, and then the map to its file;
/// without a certificate standard error says that there is none.
fn print_with_map(
    rt: &HostRuntime,
    whole: Whole<'_>,
    map: MapFile<'_>,
    conclusion: &Conclusion,
    spent: Spent<'_>,
) -> Result<u8, ExitError> {
    match map_text(rt, whole.file, conclusion, map.position)? {
        Some(text) => {
            let mapped = Mapped {
                file: map,
                text: text.as_slice(),
            };
            show_mapped_in(rt, whole, mapped, conclusion, spent)
        }
        None => {
            let status = keep_in_and_print(rt, whole, Property::Bad(0), conclusion, spent)?;
            tell_no_map(rt);
            Ok(status)
        }
    }
}

/// Looks for a run in which two circuits differ, or for a certificate that there is none: about the one bad literal of their miter,
/// which has this name. Prints the verdict. Evidence goes to the folder of that name first, where one is named, and then the
/// latches that the certificate says are equal to the file of the map.
pub fn check_miter<'a>(
    rt: &HostRuntime,
    name: &'a str,
    file: &'a AigerFile,
    folder: Option<&'a str>,
    map: Option<MapFile<'_>>,
    timing: Timing,
) -> Result<u8, ExitError> {
    let whole = Whole {
        name,
        file,
        folder,
        timing,
        is_vacuous: is_vacuous(rt, timing, file.model())?,
    };
    let begun = now(rt, timing);
    let property = Property::Bad(0);
    let question = Question {
        circuit: file.model(),
        property,
        timing,
        by_text: map.is_none(),
    };
    let answered = ask(rt, question, Seq::new(rt.alloc()))?;
    let spent = Spent::by(&answered, begun);
    match map {
        Some(map) => print_with_map(rt, whole, map, &answered.conclusion, spent),
        None => keep_in_and_print(rt, whole, property, &answered.conclusion, spent),
    }
}

/// The status of `all` before the first verdict: that of an unknown where there is no property.
fn first_status(properties: &[Property]) -> u8
    ensures none { length properties.now ≡ 0 → result ≡ 2 }
    ensures some { 0 < length properties.now → result ≡ 0 }
{
    if properties.is_empty() { UNKNOWN } else { DONE }
}

/// The status of two verdicts: that of a violation, else that of an unknown.
fn joined(one: u8, other: u8) -> u8
    ensures violated { (one ≡ 1) ⊎ (other ≡ 1) → result ≡ 1 }
    ensures greater { one ≢ 1 → other ≢ 1 → (one ≤ result) × (other ≤ result) × ((result ≡ one) ⊎ (result ≡ other)) }
{
    if one == VIOLATED || other == VIOLATED {
        VIOLATED
    } else {
        one.max(other)
    }
}

/// The clauses of the certificate, where it is of the circuit itself and not of a shadow circuit.
fn clauses_of(property: Property, conclusion: Conclusion) -> Option<Seq<Seq<Lit>>> {
    match (property, conclusion) {
        (Property::Justice(_), _) => None,
        (_, Conclusion::Decided(Verdict::Safe(certificate))) => Some(certificate.invariant),
        _ => None,
    }
}

/// Prints what was found by a search that began then. Evidence goes to the folder first, where one is named. The clauses of
/// a certificate of the circuit take the place of those before.
fn keep_next(
    rt: &HostRuntime,
    whole: Whole<'_>,
    property: Property,
    answered: Answered,
    begun: Option<Instant>,
    clauses: &mut Seq<Seq<Lit>>,
) -> Result<u8, ExitError>
    ensures { IfOk result (λ status. status ≡ status_in answered.conclusion) }
{
    let spent = Spent::by(&answered, begun);
    let status = keep_in_and_print(rt, whole, property, &answered.conclusion, spent)?;
    if let Some(found) = clauses_of(property, answered.conclusion) {
        *clauses = found;
    }
    Ok(status)
}

/// Looks for evidence about one of the circuit's properties, beginning with those of the clauses that may matter
/// to it, and prints the verdict. Evidence goes to the folder of that name first, where one is named. The clauses of a certificate of the
/// circuit take the place of those before.
fn check_next(
    rt: &HostRuntime,
    whole: Whole<'_>,
    property: Property,
    clauses: &mut Seq<Seq<Lit>>,
) -> Result<u8, ExitError> {
    let file = whole.file;
    let begun = now(rt, whole.timing);
    let candidates = relevant_clauses(rt.alloc(), file.model(), property, clauses.as_slice())?;
    let question = Question {
        circuit: file.model(),
        property,
        timing: whole.timing,
        by_text: true,
    };
    let answered = about(Role::Circuit, ask(rt, question, candidates))?;
    keep_next(rt, whole, property, answered, begun, clauses)
}

/// Looks for evidence about each of these properties in turn, and answers the status of all. Where there are none,
/// standard error says so.
fn check_each(
    rt: &HostRuntime,
    whole: Whole<'_>,
    properties: &[Property],
) -> Result<u8, ExitError> {
    let mut clauses = Seq::new(rt.alloc());
    let mut status = first_status(properties);
    if properties.is_empty() {
        let _ = eprintln!(rt; "aigmc: the circuit has no property");
    }
    for property in properties {
        let found = check_next(rt, whole, *property, &mut clauses)?;
        status = joined(status, found);
    }
    Ok(status)
}

/// The same as `check_all` of a circuit that was read.
fn check_all_in(
    rt: &HostRuntime,
    name: &str,
    file: &AigerFile,
    folder: Option<&str>,
    timing: Timing,
) -> Result<u8, ExitError> {
    let whole = Whole {
        name,
        file,
        folder,
        timing,
        is_vacuous: is_vacuous(rt, timing, file.model())?,
    };
    let properties = all_properties(rt.alloc(), file.model()).map_err(CommandError::from)?;
    check_each(rt, whole, properties.as_slice())
}

/// Looks for evidence about each property of the circuit in turn, and prints each verdict as it comes.
/// Evidence goes to the folder of that name first, where one is named. IC3 begins with clauses of the last
/// certificate of the circuit itself, which are asked for anew: those over latches on which the property or a constraint
/// rests. Where there are no properties, standard error says so, and nothing is known.
pub fn check_all(
    rt: &HostRuntime,
    name: &str,
    folder: Option<&str>,
    search: Search,
) -> Result<u8, ExitError> {
    let timing = begin(rt, search)?;
    if let Some(folder) = folder {
        at(Role::Made, expect_folder(rt, folder))?;
    }
    let file = circuit(rt, name)?;
    check_all_in(rt, name, &file, folder, timing)
}
