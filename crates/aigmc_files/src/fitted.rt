//! Circuits as their layouts take them, and the files of evidence.

use crate::command_error::CommandError;
use aiger::Layout;
use graph::AigerFile;
use shrink::ready;
use std::alloc::Global;

/// A circuit as its layout takes it.
#[derive(Drop)]
pub struct Fitted {
    /// the circuit
    pub file: AigerFile,
    /// the layout
    pub layout: Layout,
}

impl Fitted {
    /// The circuit as the layout takes it: for the binary one in its numbering.
    pub fn of(alloc: Global, file: AigerFile, layout: Layout) -> Result<Fitted, CommandError> {
        let file = match layout {
            Layout::Ascii => file,
            Layout::Binary => ready(alloc, file)?,
        };
        Ok(Fitted { file, layout })
    }
}

/// A file to make of the evidence about a property.
#[derive(Clone, Copy)]
pub struct EvidenceFile<'a> {
    /// its name
    pub name: &'a str,
    /// the witness circuit that it gets in place of a certificate, where one is asked for
    pub witness: Option<&'a Fitted>,
}

impl<'a> EvidenceFile<'a> {
    /// The file of this name, with a certificate or what is printed.
    pub fn plain(name: &'a str) -> EvidenceFile<'a> {
        EvidenceFile {
            name,
            witness: None,
        }
    }
}
