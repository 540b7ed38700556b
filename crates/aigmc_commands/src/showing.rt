//! How a verdict is kept and printed.

ghost use Rattle.std.specs.Prelude.{◌≡◌, IfOk};
ghost use Rattle.portfolio.specs.Conclusions.{status_in};
ghost use Rattle.aigmc_commands.specs.Words.{checked_word, verdict_word};

use crate::mapping::{MapFile, keep_map};
use crate::telling::{CountedWhy, Why, conclude, tell_counters};
use aigmc_files::{
    DONE, EvidenceFile, ExitError, UNKNOWN, finished, keep, keep_and_print, make_bytes,
    print_alone, print_status, status_of,
};
use arguments::Search;
use engine::Counter;
use graph::{AigerFile, Property};
use portfolio::Conclusion;
use property_names::{Line, symbol_of};
use rounds::Counted;
use std::fmt;
use std::time::{Duration, Instant};
use verdict::Verdict;

/// A verdict, and what it is of.
#[derive(Clone, Copy)]
pub struct Found<'a> {
    /// the circuit's file, as it was named
    pub name: &'a str,
    /// the circuit's file
    pub file: &'a AigerFile,
    /// the property
    pub property: Property,
    /// what was found of it
    pub conclusion: &'a Conclusion,
    /// the file to make of the evidence, where there is to be one
    pub evidence: Option<EvidenceFile<'a>>,
    /// how the search was to go
    pub search: Search,
    /// how many steps of its budget are spent
    pub steps: u64,
    /// what the engines counted
    pub counters: &'a [Counter],
    /// when it began, where the clock said so
    pub begun: Option<Instant>,
    /// whether its time is over
    pub is_over: bool,
    /// whether it is shown that no run keeps the constraints
    pub is_vacuous: bool,
}

/// Whether the judge accepted the evidence before the verdict was given, or nothing where none was asked: `verdict::decide` has each
/// run replayed, and no certificate that it makes; of counted rounds and of equal signals the certificate is judged.
fn checked(conclusion: &Conclusion) -> &'static str
    ensures { result.now ≡ checked_word conclusion.now }
{
    match conclusion {
        Conclusion::Decided(Verdict::Unsafe(_)) => "true",
        Conclusion::Decided(Verdict::Safe(_) | Verdict::Unknown(_)) => "null",
        Conclusion::Counted(Counted::Bounded { .. }) => "true",
        Conclusion::Counted(Counted::Unknown { .. }) => "null",
        Conclusion::Shown(_) => "true",
    }
}

/// The word for what was found.
fn word_of(conclusion: &Conclusion) -> &'static str
    ensures { result.now ≡ verdict_word conclusion.now }
{
    match conclusion {
        Conclusion::Decided(Verdict::Safe(_)) => "holds",
        Conclusion::Decided(Verdict::Unsafe(_)) => "violated",
        Conclusion::Decided(Verdict::Unknown(_)) => "unknown",
        Conclusion::Counted(Counted::Bounded { .. }) => "holds",
        Conclusion::Counted(Counted::Unknown { .. }) => "unknown",
        Conclusion::Shown(_) => "holds",
    }
}

/// The status of what was found.
fn status_for(conclusion: &Conclusion) -> u8
    ensures { result ≡ status_in conclusion.now }
{
    match conclusion {
        Conclusion::Decided(verdict) => status_of(verdict),
        Conclusion::Counted(Counted::Bounded { .. }) => DONE,
        Conclusion::Counted(Counted::Unknown { .. }) => UNKNOWN,
        Conclusion::Shown(_) => DONE,
    }
}

/// What engines counted, as an object of JSON.
#[derive(Clone, Copy)]
struct Statistics<'a>(&'a [Counter]);

impl fmt::Display for Statistics<'_> {
    fn fmt<W: fmt::Write>(&self, f: &mut fmt::Formatter<W>) -> fmt::Result {
        f.write_str("{")?;
        for (place, counter) in self.0.iter().enumerate() {
            let comma = if place == 0 { "" } else { "," };
            let (engine, name, count) = (counter.engine, counter.name, counter.count);
            write!(f, "{comma}\"{engine}: {name}\":{count}")?;
        }
        f.write_str("}")
    }
}

impl Found<'_> {
    /// How long it took, where the clock says so.
    fn time(self, rt: &HostRuntime) -> Option<Duration> {
        let begun = self.begun?;
        match Instant::now(rt) {
            Ok(now) => Some(now.duration_since(begun)),
            Err(_) => None,
        }
    }

    /// Prints what JSON says of it, and answers its status. It takes no memory.
    fn print_line(self, rt: &HostRuntime) -> Result<u8, ExitError>
        ensures { IfOk result (λ status. status ≡ status_in self.entry.conclusion.now) }
    {
        let line = Line {
            file: self.name,
            property: self.property,
            symbol: symbol_of(self.file, self.property),
            verdict: word_of(self.conclusion),
            evidence: self.evidence.map(|to| to.name),
            time: self.time(rt),
        };
        let (checked, steps, is_vacuous) = (checked(self.conclusion), self.steps, self.is_vacuous);
        let statistics = Statistics(self.counters);
        let printed = match self.conclusion {
            Conclusion::Decided(Verdict::Unknown(reason)) => {
                let why = Why {
                    reason: *reason,
                    is_over: self.is_over,
                };
                println!(rt;
                    "{line},\"checked\":{checked},\"steps\":{steps},\"reason\":\"{why}\",\"vacuous\":{is_vacuous},\"statistics\":{statistics}}}"
                )
            }
            Conclusion::Counted(Counted::Unknown { cause, held }) => {
                let why = CountedWhy {
                    cause: *cause,
                    held: *held,
                    is_over: self.is_over,
                };
                println!(rt;
                    "{line},\"checked\":{checked},\"steps\":{steps},\"reason\":\"{why}\",\"vacuous\":{is_vacuous},\"statistics\":{statistics}}}"
                )
            }
            _ => println!(rt;
                "{line},\"checked\":{checked},\"steps\":{steps},\"reason\":null,\"vacuous\":{is_vacuous},\"statistics\":{statistics}}}"
            ),
        };
        finished(printed)?;
        Ok(status_for(self.conclusion))
    }

    /// Makes the file of the evidence, where one is named.
    fn keep(self, rt: &HostRuntime) -> Result<(), ExitError> {
        let Some(to) = self.evidence else {
            return Ok(());
        };
        match self.conclusion {
            Conclusion::Decided(verdict) => keep(rt, to, self.property, verdict),
            Conclusion::Counted(Counted::Bounded { certificate, .. }) => {
                make_bytes(rt, to.name, certificate.as_slice())
            }
            Conclusion::Counted(Counted::Unknown { .. }) => Ok(()),
            Conclusion::Shown(certificate) => { make_bytes(rt, to.name, certificate.as_slice()) }
        }
    }

    /// Prints the verdict without a run. It takes no memory.
    fn print_short(self, rt: &HostRuntime) -> Result<u8, ExitError>
        ensures { IfOk result (λ status. status ≡ status_in self.entry.conclusion.now) }
    {
        match self.conclusion {
            Conclusion::Decided(verdict) => print_alone(rt, self.property, verdict),
            Conclusion::Counted(_) | Conclusion::Shown(_) => {
                print_status(rt, self.property, status_for(self.conclusion))
            }
        }
    }

    /// Prints the verdict alone or as JSON. It takes no memory.
    fn print(self, rt: &HostRuntime) -> Result<u8, ExitError>
        ensures { IfOk result (λ status. status ≡ status_in self.entry.conclusion.now) }
    {
        if self.search.json {
            self.print_line(rt)
        } else {
            self.print_short(rt)
        }
    }

    /// Makes the file of the evidence, where there is to be one, and prints the verdict alone or as JSON. Once there is that
    /// file, nothing takes memory.
    fn keep_and_print_short(self, rt: &HostRuntime) -> Result<u8, ExitError>
        ensures { IfOk result (λ status. status ≡ status_in self.entry.conclusion.now) }
    {
        self.keep(rt)?;
        self.print(rt)
    }

    /// Makes the file of the evidence, where one is named, and prints the verdict as it is asked for.
    fn keep_and_print(self, rt: &HostRuntime) -> Result<u8, ExitError>
        ensures { IfOk result (λ status. status ≡ status_in self.entry.conclusion.now) }
    {
        match self.conclusion {
            Conclusion::Decided(verdict) if !self.search.json && !self.search.quiet => {
                keep_and_print(rt, self.evidence, self.property, verdict)
            }
            _ => self.keep_and_print_short(rt),
        }
    }

    /// Standard error says what was found where that is asked for.
    fn tell(self, rt: &HostRuntime) {
        if self.search.verbose {
            let symbol = symbol_of(self.file, self.property);
            tell_counters(rt, self.counters);
            conclude(rt, self.property, self.conclusion, symbol, self.is_over);
        }
    }

    /// Makes the file of the evidence, where there is to be one, prints the verdict, and answers its status. Standard error says what
    /// was found where that is asked for.
    pub fn show(self, rt: &HostRuntime) -> Result<u8, ExitError>
        ensures { IfOk result (λ status. status ≡ status_in self.entry.conclusion.now) }
    {
        let status = self.keep_and_print(rt)?;
        self.tell(rt);
        Ok(status)
    }

    /// The same of a property that holds, with the file of a map behind that of the evidence. Once there is that file, nothing
    /// takes memory.
    pub fn show_with_map(
        self,
        rt: &HostRuntime,
        map: MapFile<'_>,
        text: &[u8],
    ) -> Result<u8, ExitError>
        ensures { IfOk result (λ status. status ≡ status_in self.entry.conclusion.now) }
    {
        self.keep(rt)?;
        keep_map(rt, map, text, self.evidence.map(|to| to.name))?;
        let status = self.print(rt)?;
        self.tell(rt);
        Ok(status)
    }
}
