//! Why a proof is refused, and at which line.

ghost use Rattle.base.specs.Witness.{witness};
ghost use Rattle.std.specs.Prelude.{◌≡◌, ◌≢◌};
ghost use Rattle.lrat.specs.Numbers.{number_of};
ghost use Rattle.lrat.specs.declared.fault.Fault.TheVariants.{OutOfMemory};

use crate::fault::Fault;
use thiserror::Error;

/// A refusal with the line of the proof at which it came, from 0. The line is how many lines
/// there are where none adds the empty clause, and 0 for out of memory.
#[derive(Clone, Copy, Debug, Error)]
#[error("line {line}: {fault}")]
pub struct StepError {
    pub fault: Fault,
    pub line: u64,
}

impl StepError {
    /// The refusal of a line; out of memory has none.
    pub fn at(fault: Fault, line: u64) -> StepError
        ensures fault { result.fault ≡ fault }
        ensures line { fault ≢ OutOfMemory witness → result.line ≡ line }
        ensures memory { fault ≡ OutOfMemory witness → result.line ≡ 0 }
    {
        match fault {
            Fault::OutOfMemory(_) => StepError { fault, line: 0 },
            _ => StepError { fault, line },
        }
    }

    /// The refusal's number.
    pub fn number(self) -> u8
        ensures { result ≡ number_of self.fault }
    {
        self.fault.number()
    }

    /// The refusal's place, which is the line.
    pub fn place(self) -> u64
        ensures { result ≡ self.line }
    {
        self.line
    }
}
