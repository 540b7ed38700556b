//! The commands `safe` and `run`.

ghost use Rattle.std.specs.Prelude.{◌≡◌, ◌-◌, ◌<◌, ◌^◌, ℕ, None, Ok, IfOk, IfSome, IsSome, IsTrue, false};
ghost use Rattle.std.specs.Io.KnownBytes.{Appends};
ghost use Rattle.base.specs.Devices.{Reads};
ghost use Rattle.graph.specs.declared.circuit.Property.{Property as AProperty};
ghost use Rattle.checker.specs.Lines.{no_line, yes_line};
ghost use Rattle.property_names.specs.Symbols.{IsAskedFor};
ghost use Rattle.aigcheck.specs.Judged.{IsAccepted, IsNo, question_of};

use crate::detail::{put_line, tell_circuit, tell_unnamed};
use crate::exit_error::{ExitError, Role, opened};
use base::{FromBytes, FromRead, ReadToEndError, Sink, Source, ToVec, ToWrite, read_to_end};
use checker::{
    RunError, run_of_readers, run_safe, run_safe_for, run_stimulus, run_stimulus_for,
    safe_of_readers,
};
use graph::{AigerFile, LONGEST_TEXT, Property, ReadError};
use inputs::{Input, open};
use properties::Evidence;
use property_names::{Asked, property_called};
use std::alloc::Global;
use std::io;
use std::io::Read;

/// One byte more than the text of a circuit may have: a longer one is refused as too long by that.
const MOST: u64 = LONGEST_TEXT as u64 + 1;

/// What the two files of a command are called, of which the second may be a folder.
#[derive(Clone, Copy)]
pub struct Names<'a> {
    /// the circuit's
    pub circuit: &'a str,
    /// the evidence's
    pub evidence: &'a str,
}

/// What is asked.
#[derive(Clone, Copy)]
pub struct Question<'a> {
    /// the files
    pub names: Names<'a>,
    /// what the second file has
    pub evidence: Evidence,
    /// the property that is asked about alone, where one is named
    pub asked: Option<Asked<'a>>,
    /// whether standard error says why
    pub verbose: bool,
}

/// The bytes of a circuit's file.
// Its buffer is off the stack before anything is judged.
#[inline(never)]
pub fn text_of(rt: &HostRuntime, file: Input) -> Result<Vec<u8>, ExitError> {
    match read_to_end(rt.alloc(), &mut FromRead::new(file.take(MOST))) {
        Ok(text) => Ok(text),
        Err(ReadToEndError::OutOfMemory(refused)) => Err(ExitError::from(refused)),
        Err(ReadToEndError::Device) => Err(ExitError::Call(RunError::Device)),
    }
}

/// Whether evidence of this kind is accepted, for the property alone where one is named. It puts the line.
pub fn judge<M: Source, C: Source, W: Sink>(
    alloc: Global,
    evidence: Evidence,
    property: Option<Property>,
    circuit: &mut M,
    file: &mut C,
    out: &mut W,
) -> Result<bool, RunError>
    requires circuit { M.failed circuit.old < 2 ^ 64 - 1 }
    requires evidence { C.failed file.old < 2 ^ 64 - 1 }
    requires out { W.failed out.old < 2 ^ 64 - 1 }
    // Yes: it is accepted, for the property that is wanted, where one is, and the line says so.
    ensures yes { Reads (M.leaves circuit.old) (M.leaves circuit.new) (λ xs _. Reads (C.leaves file.old) (C.leaves file.new) (λ ys _. IfOk result (λ yes. IsTrue yes → (p : AProperty) × IfSome property (λ q. q ≡ p) × IsAccepted evidence xs ys p × Appends (W.contents out.old) (W.contents out.new) (yes_line (question_of evidence) p)))) }
    // No: there is a reason, and the line has its number.
    ensures no { Reads (M.leaves circuit.old) (M.leaves circuit.new) (λ xs _. Reads (C.leaves file.old) (C.leaves file.new) (λ ys _. IfOk result (λ yes. yes ≡ false → (n : ℕ) × IsNo evidence property xs ys n × Appends (W.contents out.old) (W.contents out.new) (no_line n)))) }
    // Whatever is accepted gets a yes, unless memory runs out or a device fails.
    ensures exact { Reads (M.leaves circuit.old) (M.leaves circuit.new) (λ xs _. Reads (C.leaves file.old) (C.leaves file.new) (λ ys _. (p : AProperty) → IfSome property (λ q. q ≡ p) → IsAccepted evidence xs ys p → IfOk result (λ yes. IsTrue yes))) }
{
    match (evidence, property) {
        (Evidence::Certificate, None) => run_safe(alloc, circuit, file, out),
        (Evidence::Certificate, Some(property)) => run_safe_for(
            alloc, property, circuit, file, out,
        ),
        (Evidence::Stimulus, None) => run_stimulus(alloc, circuit, file, out),
        (Evidence::Stimulus, Some(property)) => run_stimulus_for(
            alloc, property, circuit, file, out,
        ),
    }
}

/// The answer of a judge that puts its line into memory: where that fails, there is none left.
pub fn answer_in_memory(answer: Result<bool, RunError>, out: &ToVec) -> Result<bool, ExitError>
    ensures { IfOk result (λ yes. answer ≡ Ok yes) }
{
    match answer {
        Err(RunError::Device) if out.failures() > 0 => Err(ExitError::Memory),
        answer => Ok(answer?),
    }
}

impl Question<'_> {
    /// Whether the evidence is accepted: both files are opened first.
    pub fn answer(self, rt: &HostRuntime) -> Result<bool, ExitError> {
        let circuit = opened(Role::Circuit, open(rt, self.names.circuit))?;
        let file = opened(Role::Evidence, open(rt, self.names.evidence))?;
        let property = match self.asked {
            _ if self.verbose => return self.of_text(rt, circuit, file),
            Some(Asked::Symbol(_)) => return self.of_text(rt, circuit, file),
            Some(Asked::Property(property)) => Some(property),
            None => None,
        };
        let circuit = &mut FromRead::new(circuit);
        let file = &mut FromRead::new(file);
        let out = &mut ToWrite::new(io::writer(rt));
        let yes = match self.evidence {
            Evidence::Certificate => safe_of_readers(rt.alloc(), property, circuit, file, out)?,
            Evidence::Stimulus => run_of_readers(rt.alloc(), property, circuit, file, out)?,
        };
        Ok(yes)
    }

    /// The same, once the circuit was read for its symbol table, or for the place of its fault.
    fn of_text(self, rt: &HostRuntime, circuit: Input, file: Input) -> Result<bool, ExitError> {
        let text = text_of(rt, circuit)?;
        let (property, fault) = self.in_text(rt, text.as_slice())?;
        let yes = self.judged(rt, property, text.as_slice(), file, fault.is_none())?;
        if let Some(error) = fault
            && self.verbose
        {
            tell_circuit(rt, self.names.circuit, text.as_slice(), error);
        }
        Ok(yes)
    }

    /// The property of the text's circuit that is asked about alone, where one is named, or why the text is no circuit.
    fn in_text(
        self,
        rt: &HostRuntime,
        text: &[u8],
    ) -> Result<(Option<Property>, Option<ReadError>), ExitError> {
        match aiger::read(rt.alloc(), text) {
            Ok(circuit) => self.in_circuit(rt, &circuit),
            Err(ReadError::OutOfMemory(refused)) => Err(ExitError::from(refused)),
            Err(error) => Ok((None, Some(error))),
        }
    }

    /// The same of a text that was read as this circuit.
    fn in_circuit(
        self,
        rt: &HostRuntime,
        circuit: &AigerFile,
    ) -> Result<(Option<Property>, Option<ReadError>), ExitError> {
        let property = self.property_in(rt, circuit)?;
        Ok((property, None))
    }

    /// Whether the evidence is accepted for a circuit of this text. It puts the line; where the text is a circuit, standard
    /// error says why, if that is asked for.
    fn judged(
        self,
        rt: &HostRuntime,
        property: Option<Property>,
        text: &[u8],
        file: Input,
        is_circuit: bool,
    ) -> Result<bool, ExitError> {
        let circuit = &mut FromBytes::new(text);
        let file = &mut FromRead::new(file);
        let out = &mut ToVec::new(rt.alloc());
        let answer = judge(rt.alloc(), self.evidence, property, circuit, file, out);
        let yes = answer_in_memory(answer, out)?;
        let name = self.names.evidence;
        put_line(rt, out.as_slice(), name, self.verbose && is_circuit)?;
        Ok(yes)
    }

    /// The property that is asked about alone, where one is named.
    fn property_in(
        self,
        rt: &HostRuntime,
        circuit: &AigerFile,
    ) -> Result<Option<Property>, ExitError>
        ensures asked { IfSome self.entry.asked (λ asked. IfOk result (λ wanted. IsSome wanted × IfSome wanted (IsAskedFor circuit.now.symbols asked))) }
        ensures none { self.entry.asked ≡ None → result ≡ Ok None }
    {
        match self.asked {
            None => Ok(None),
            Some(Asked::Property(property)) => Ok(Some(property)),
            Some(Asked::Symbol(word)) => match property_called(circuit, word) {
                Ok(property) => Ok(Some(property)),
                Err(why) => {
                    let _ = eprintln!(rt; "aigcheck: bad argument");
                    if self.verbose {
                        tell_unnamed(rt, self.names.circuit, circuit, word, why);
                    }
                    Err(ExitError::Told)
                }
            },
        }
    }
}
