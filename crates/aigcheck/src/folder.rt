//! The command `all`.

ghost use Rattle.std.specs.Prelude.{◌≡◌, None, IfSome, false};

use crate::counts::{Counts, Shown};
use crate::detail::{number_of, put_line, tell_circuit, tell_meaning, tell_symbol};
use crate::exit_error::{ExitError, Role, given, opened};
use crate::judging::{Names, answer_in_memory, judge, text_of};
use crate::reporting::{Said, put_shown};
use crate::status::FAULT;
use aiger::read;
use base::{FromBytes, FromRead, ToVec, ToWrite};
use graph::{AigerFile, Property, ReadError};
use inputs::open;
use properties::{Evidence, all_properties, evidence_name};
use property_names::Name;
use std::fs::File;
use std::io::ErrorKind;
use std::time::Instant;
use std::{fs, io};

/// A circuit's text, and the folder with evidence about its properties.
#[derive(Clone, Copy)]
struct Folder<'a> {
    circuit: &'a [u8],
    names: Names<'a>,
    /// whether standard error says why evidence is refused, and what properties are called
    verbose: bool,
    /// whether JSON is put in place of the lines
    json: bool,
}

/// The file of this name, where there is one.
fn found(rt: &HostRuntime, name: &str) -> Result<Option<File>, ExitError> {
    match File::open(rt, name) {
        Err(error) if error.kind() == ErrorKind::NotFound => Ok(None),
        opened => Ok(Some(given(opened)?)),
    }
}

/// Whether a file was judged and accepted.
fn is_accepted(said: &Option<Said>) -> bool
    ensures judged { IfSome said.now (λ said. result ≡ said.is_yes) }
    ensures none { said.now ≡ None → result ≡ false }
{
    match said {
        Some(said) => said.is_yes,
        None => false,
    }
}

impl Folder<'_> {
    /// Whether a file with evidence of this kind is accepted for the property. It puts the line.
    fn accepts(
        &self,
        rt: &HostRuntime,
        property: Property,
        evidence: Evidence,
        file: File,
    ) -> Result<bool, ExitError> {
        let circuit = &mut FromBytes::new(self.circuit);
        let file = &mut FromRead::new(file);
        let out = &mut ToWrite::new(io::writer(rt));
        Ok(judge(rt.alloc(), evidence, Some(property), circuit, file, out)?)
    }

    /// The same. Where it is not, standard error says why.
    fn accepts_loudly(
        &self,
        rt: &HostRuntime,
        property: Property,
        evidence: Evidence,
        name: &str,
        file: File,
    ) -> Result<bool, ExitError> {
        let circuit = &mut FromBytes::new(self.circuit);
        let file = &mut FromRead::new(file);
        let out = &mut ToVec::new(rt.alloc());
        let answer = judge(rt.alloc(), evidence, Some(property), circuit, file, out);
        let yes = answer_in_memory(answer, out)?;
        put_line(rt, out.as_slice(), name, true)?;
        Ok(yes)
    }

    /// The name of the file with evidence of this kind.
    fn name_of(
        &self,
        rt: &HostRuntime,
        property: Property,
        evidence: Evidence,
    ) -> Result<String, ExitError> {
        match evidence_name(rt.alloc(), self.names.evidence, property, evidence) {
            Ok(name) => Ok(name),
            Err(_) => Err(ExitError::Memory),
        }
    }

    /// Whether the evidence of this kind is accepted for the property, where there is some.
    fn answer(
        &self,
        rt: &HostRuntime,
        property: Property,
        evidence: Evidence,
    ) -> Result<Option<bool>, ExitError> {
        let name = self.name_of(rt, property, evidence)?;
        let Some(file) = found(rt, name.as_str())? else {
            return Ok(None);
        };
        let yes = if self.verbose {
            self.accepts_loudly(rt, property, evidence, name.as_str(), file)?
        } else {
            self.accepts(rt, property, evidence, file)?
        };
        Ok(Some(yes))
    }

    /// What the evidence in the folder shows of a property: the certificate, or else the stimulus. Where it
    /// has neither, the line says so.
    fn shown(&self, rt: &HostRuntime, property: Property) -> Result<Shown, ExitError> {
        let safe = self.answer(rt, property, Evidence::Certificate)?;
        if safe == Some(true) {
            return Ok(Shown::Safe);
        }
        let run = self.answer(rt, property, Evidence::Stimulus)?;
        if run == Some(true) {
            return Ok(Shown::Violated);
        }
        if safe.is_none() && run.is_none() {
            given(println!(rt; "no evidence {}", Name(property)))?;
        }
        Ok(Shown::Nothing)
    }

    /// What the judge says of the evidence of this kind, where there is some.
    fn said(
        &self,
        rt: &HostRuntime,
        property: Property,
        evidence: Evidence,
    ) -> Result<Option<Said>, ExitError> {
        let name = self.name_of(rt, property, evidence)?;
        let Some(file) = found(rt, name.as_str())? else {
            return Ok(None);
        };
        let circuit = &mut FromBytes::new(self.circuit);
        let file = &mut FromRead::new(file);
        let out = &mut ToVec::new(rt.alloc());
        let answer = judge(rt.alloc(), evidence, Some(property), circuit, file, out);
        let is_yes = answer_in_memory(answer, out)?;
        if self.verbose {
            tell_meaning(rt, out.as_slice(), name.as_str());
        }
        let number = number_of(out.as_slice());
        Ok(Some(Said {
            name,
            is_yes,
            number,
        }))
    }

    /// The same as `shown`, by a line of JSON.
    fn shown_in_json(
        &self,
        rt: &HostRuntime,
        file: &AigerFile,
        property: Property,
    ) -> Result<Shown, ExitError> {
        let begun = Instant::now(rt).ok();
        let circuit = self.names.circuit;
        let certificate = self.said(rt, property, Evidence::Certificate)?;
        if is_accepted(&certificate) {
            put_shown(
                rt,
                circuit,
                file,
                property,
                Shown::Safe,
                &certificate,
                begun,
            )?;
            return Ok(Shown::Safe);
        }
        let stimulus = self.said(rt, property, Evidence::Stimulus)?;
        let shown = if is_accepted(&stimulus) {
            Shown::Violated
        } else {
            Shown::Nothing
        };
        let last = if stimulus.is_some() {
            &stimulus
        } else {
            &certificate
        };
        put_shown(rt, circuit, file, property, shown, last, begun)?;
        Ok(shown)
    }

    /// What the evidence in the folder shows of a property. It puts a line, or several.
    fn put(
        &self,
        rt: &HostRuntime,
        file: &AigerFile,
        property: Property,
    ) -> Result<Shown, ExitError> {
        if self.json {
            self.shown_in_json(rt, file, property)
        } else {
            self.shown(rt, property)
        }
    }

    /// How many properties of the circuit the evidence shows safe, and how many violated. The last line says
    /// so, but in JSON.
    fn count(&self, rt: &HostRuntime, file: &AigerFile) -> Result<Counts, ExitError> {
        let mut counts = Counts::NONE;
        for property in all_properties(rt.alloc(), file.model())? {
            counts = counts.with(self.put(rt, file, property)?);
            if self.verbose {
                tell_symbol(rt, file, property);
            }
        }
        let Counts {
            safe,
            violated,
            without,
        } = counts;
        if !self.json {
            given(println!(rt; "{safe} safe, {violated} violated, {without} without evidence"))?;
        }
        Ok(counts)
    }

    /// Says why the text is no circuit, and answers the status of that.
    fn refused(&self, rt: &HostRuntime, error: ReadError) -> Result<u8, ExitError> {
        put_no_circuit(rt, error.number(), self.json)?;
        if self.verbose {
            tell_circuit(rt, self.names.circuit, self.circuit, error);
        }
        Ok(FAULT)
    }

    /// The status of what the evidence shows of the properties of the circuit that the text spells.
    fn status(&self, rt: &HostRuntime) -> Result<u8, ExitError> {
        match read(rt.alloc(), self.circuit) {
            Ok(file) => self.status_in(rt, &file),
            Err(ReadError::OutOfMemory(refused)) => Err(ExitError::from(refused)),
            Err(error) => self.refused(rt, error),
        }
    }

    /// The status of what the evidence shows of the properties of the circuit.
    fn status_in(&self, rt: &HostRuntime, file: &AigerFile) -> Result<u8, ExitError> {
        let counts = self.count(rt, file)?;
        Ok(counts.status())
    }
}

/// Says that the text is no circuit: the no of its refusal, which in JSON would be of no property.
fn put_no_circuit(rt: &HostRuntime, number: u8, json: bool) -> Result<(), ExitError> {
    if json {
        let _ = eprintln!(rt; "aigcheck: no {number}");
        return Ok(());
    }
    given(println!(rt; "no {number}"))
}

/// The status of what the evidence in the folder shows of the circuit's properties. Of a text that is no
/// circuit it puts the no of its refusal, and there is no answer.
// What it needs of the stack is not added to that of the other commands.
#[inline(never)]
pub fn all(rt: &HostRuntime, names: Names<'_>, verbose: bool, json: bool) -> Result<u8, ExitError> {
    let found = opened(Role::Evidence, fs::metadata(rt, names.evidence))?;
    if !found.is_dir() {
        let word = "it is no folder";
        let role = Role::Evidence;
        return Err(ExitError::At { role, word });
    }
    let text = text_of(rt, opened(Role::Circuit, open(rt, names.circuit))?)?;
    let evidence = Folder {
        circuit: text.as_slice(),
        names,
        verbose,
        json,
    };
    evidence.status(rt)
}
