//! The miter that the command `equal` asks about: it has a run to its bad literal where two circuits differ.

use aiger::Layout;
use aigmc_files::{
    ExitError, Role, at, circuit, circuit_of, expect_folder, is_same, is_taken, is_terminal, make,
};
use graph::{AigerFile, Model, Property};
use inputs::is_standard;
use miters::miter_of;
use properties::{Evidence, evidence_name};
use std::alloc::Global;

/// Two circuits by the names of their files, the folder for the miter and the evidence, where one is named, and the file to
/// make of the map, likewise.
#[derive(Clone, Copy)]
pub struct Pair<'a> {
    /// the first circuit's file
    pub one: &'a str,
    /// the other circuit's file
    pub other: &'a str,
    /// the folder
    pub folder: Option<&'a str>,
    /// the map's file
    pub map: Option<&'a str>,
    /// whether a fault says more than its line, where standard error is no terminal too
    pub verbose: bool,
}

/// The miter of two circuits.
#[derive(Drop)]
pub struct Miter {
    /// its file
    pub file: AigerFile,
    /// the position of the second circuit's first latch
    pub position: usize,
}

impl Pair<'_> {
    /// Whether a fault says more than its line.
    fn is_told(self, rt: &HostRuntime) -> bool {
        self.verbose || is_terminal(rt)
    }

    /// Refuses two circuits of which one has more of these than the other.
    fn expect_same(
        self,
        rt: &HostRuntime,
        what: &str,
        one: usize,
        other: usize,
    ) -> Result<(), ExitError> {
        if one == other {
            return Ok(());
        }
        if !self.is_told(rt) {
            return Err(ExitError::BadArgument);
        }
        let (first, second) = (self.one, self.other);
        let _ = eprintln!(rt;
            "aigmc: bad argument\n  the numbers of {what} differ: {one} in {first}, {other} in {second}"
        );
        Err(ExitError::Told)
    }

    /// Refuses two circuits of which the inputs, outputs or bad literals are not as many, or that have nothing to compare.
    fn expect_comparable(
        self,
        rt: &HostRuntime,
        one: &Model,
        other: &Model,
    ) -> Result<(), ExitError> {
        self.expect_same(rt, "inputs", one.inputs().len(), other.inputs().len())?;
        self.expect_same(rt, "outputs", one.outputs().len(), other.outputs().len())?;
        self.expect_same(rt, "bad literals", one.bad().len(), other.bad().len())?;
        if !one.outputs().is_empty() || !one.bad().is_empty() {
            return Ok(());
        }
        if !self.is_told(rt) {
            return Err(ExitError::BadArgument);
        }
        let _ = eprintln!(rt;
            "aigmc: bad argument\n  there is nothing to compare: no outputs and no bad literals"
        );
        Err(ExitError::Told)
    }

    /// The miter of two circuits.
    fn miter_of(
        self,
        rt: &HostRuntime,
        one: &AigerFile,
        other: &AigerFile,
    ) -> Result<Miter, ExitError> {
        self.expect_comparable(rt, one.model(), other.model())?;
        let file = miter_of(rt.alloc(), one, other)?;
        let position = one.model().latches().len();
        Ok(Miter { file, position })
    }

    /// The miter of a circuit and that in the other file.
    fn miter_with(self, rt: &HostRuntime, one: &AigerFile) -> Result<Miter, ExitError> {
        let other = circuit_of(rt, self.other, Role::Other)?;
        self.miter_of(rt, one, &other)
    }

    /// The miter of the circuits in the two files.
    fn miter(self, rt: &HostRuntime) -> Result<Miter, ExitError> {
        let one = circuit(rt, self.one)?;
        self.miter_with(rt, &one)
    }

    /// Refuses a file to make that is read, or that standard output goes to.
    fn expect_free(self, rt: &HostRuntime, out: &str) -> Result<(), ExitError> {
        if is_taken(rt, self.one, out) || is_taken(rt, self.other, out) {
            return Err(ExitError::Taken);
        }
        Ok(())
    }

    /// Refuses a folder in which the file for such evidence is one that is read.
    fn expect_free_for(
        self,
        rt: &HostRuntime,
        folder: &str,
        evidence: Evidence,
    ) -> Result<(), ExitError> {
        let Ok(out) = evidence_name(rt.alloc(), folder, Property::Bad(0), evidence) else {
            return Err(ExitError::Memory);
        };
        self.expect_free(rt, out.as_str())
    }

    /// The file of the folder to make of the miter. None of the files that are made there is one that is read.
    fn file_in(self, rt: &HostRuntime, folder: &str) -> Result<String, ExitError> {
        at(Role::Made, expect_folder(rt, folder))?;
        self.expect_free_for(rt, folder, Evidence::Certificate)?;
        self.expect_free_for(rt, folder, Evidence::Stimulus)?;
        let Ok(out) = format!(in rt.alloc(); "{folder}/miter.aig") else {
            return Err(ExitError::Memory);
        };
        self.expect_free(rt, out.as_str())?;
        Ok(out)
    }

    /// Refuses the file to make of the map.
    fn refuse_map(self, rt: &HostRuntime, map: &str) -> Result<(), ExitError> {
        if !self.is_told(rt) {
            return Err(ExitError::BadArgument);
        }
        let _ = eprintln!(rt;
            "aigmc: bad argument\n  {map}: it is read, or kept too, or standard output goes to it"
        );
        Err(ExitError::Told)
    }

    /// Refuses a map that would be a circuit's file, or that standard output goes to.
    fn expect_map(self, rt: &HostRuntime) -> Result<(), ExitError> {
        match self.map {
            Some(map) if is_taken(rt, self.one, map) || is_taken(rt, self.other, map) => {
                self.refuse_map(rt, map)
            }
            _ => Ok(()),
        }
    }

    /// Makes the file of the miter, which is not the map's.
    fn keep(self, rt: &HostRuntime, out: &str, miter: &Miter) -> Result<(), ExitError> {
        make(rt, out, &miter.file, Layout::Binary)?;
        match self.map {
            Some(map) if is_same(rt, map, out) => self.refuse_map(rt, map),
            _ => Ok(()),
        }
    }

    /// The miter of the two circuits. It is in the folder, where one is named.
    pub fn made(self, rt: &HostRuntime) -> Result<Miter, ExitError> {
        if is_standard(self.one) && is_standard(self.other) {
            return Err(ExitError::BadArgument);
        }
        self.expect_map(rt)?;
        let Some(folder) = self.folder else {
            return self.miter(rt);
        };
        let out = self.file_in(rt, folder)?;
        let miter = self.miter(rt)?;
        self.keep(rt, out.as_str(), &miter)?;
        Ok(miter)
    }

    /// What the miter is called: the names of the two files.
    pub fn name(self, alloc: Global) -> Result<String, ExitError> {
        match format!(in alloc; "{} {}", self.one, self.other) {
            Ok(name) => Ok(name),
            Err(_) => Err(ExitError::Memory),
        }
    }
}
