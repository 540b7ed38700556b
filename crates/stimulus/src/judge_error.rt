//! Why stimuli show no violation.

ghost use Rattle.std.specs.Prelude.{◌≡◌};
ghost use Rattle.stimulus.specs.Numbers.{judge_number_of, judge_place_of};

use base::Refused;
use simulate::ReplayError;
use std::fmt;
use thiserror::Error;

/// Why a stimulus does not show that its property is violated.
#[derive(Clone, Copy, Debug, Error)]
pub enum JudgeError {
    /// it does not tell of a violation
    NotViolated,
    /// the circuit has no property of this position
    NoProperty(u32),
    /// a line has not one value for each latch or each input: 0 for the latch line, the time and
    /// one more for an input line
    LineLength { line: u64 },
    /// no time passes
    NoInputLine,
    /// the first latch whose initial value is not that of its reset, by its position
    InitialReset { latch: u32 },
    /// the first time at which a constraint is false
    ConstraintBroken { time: u64 },
    /// the bad literal is not set at the last input line
    BadNotSet,
    /// no time has the state after the last line and then each wanted literal
    NoLasso,
    /// out of memory
    OutOfMemory(Refused),
}

impl From<Refused> for JudgeError {
    ghost use Rattle.std.specs.Prelude.{◌≡◌};
    ghost use Rattle.base.specs.Witness.{witness};
    ghost use Rattle.stimulus.specs.declared.judge_error.JudgeError.TheVariants.{OutOfMemory};

    ghost from_gives = { λ _ e. e ≡ OutOfMemory witness };

    fn from(refused: Refused) -> JudgeError {
        JudgeError::OutOfMemory(refused)
    }
}

impl From<ReplayError> for JudgeError {
    ghost use Rattle.std.specs.Prelude.{◌≡◌};
    ghost use Rattle.stimulus.specs.Numbers.{judged};

    ghost from_gives = { λ e f. f ≡ judged e };

    fn from(e: ReplayError) -> JudgeError {
        match e {
            ReplayError::InitialReset { latch } => JudgeError::InitialReset { latch },
            ReplayError::OutOfMemory(refused) => JudgeError::OutOfMemory(refused),
        }
    }
}

impl fmt::Display for JudgeError {
    fn fmt<W: fmt::Write>(&self, f: &mut fmt::Formatter<W>) -> fmt::Result {
        match self.after() {
            Some(after) => write!(f, "{}{}{after}", self.before(), self.place()),
            None => f.write_str(self.before()),
        }
    }
}

impl JudgeError {
    /// The refusal's number.
    pub fn number(self) -> u8
        ensures { result ≡ judge_number_of self }
    {
        match self {
            JudgeError::NotViolated => 65,
            JudgeError::NoProperty(_) => 30,
            JudgeError::LineLength { .. } => 66,
            JudgeError::NoInputLine => 64,
            JudgeError::InitialReset { .. } => 60,
            JudgeError::ConstraintBroken { .. } => 61,
            JudgeError::BadNotSet => 62,
            JudgeError::NoLasso => 63,
            JudgeError::OutOfMemory(_) => 20,
        }
    }

    /// The refusal's place: the property, the line, the latch or the time, and otherwise 0.
    pub fn place(self) -> u64
        ensures { result ≡ judge_place_of self }
    {
        match self {
            JudgeError::NoProperty(position) => u64::from(position),
            JudgeError::LineLength { line } => line,
            JudgeError::InitialReset { latch } => u64::from(latch),
            JudgeError::ConstraintBroken { time } => time,
            JudgeError::NotViolated
            | JudgeError::NoInputLine
            | JudgeError::BadNotSet
            | JudgeError::NoLasso
            | JudgeError::OutOfMemory(_) => 0,
        }
    }

    /// The words before the place, or all words where none is told.
    fn before(self) -> &'static str {
        match self {
            JudgeError::NotViolated => "the stimulus reports no violation",
            JudgeError::NoProperty(_) => "there is no property ",
            JudgeError::LineLength { .. } => "line ",
            JudgeError::NoInputLine => "there is no input line",
            JudgeError::InitialReset { .. } => "latch ",
            JudgeError::ConstraintBroken { .. } => "a constraint is broken at time ",
            JudgeError::BadNotSet => "the bad literal is not set at the last line",
            JudgeError::NoLasso => "there is no lasso",
            JudgeError::OutOfMemory(_) => "out of memory",
        }
    }

    /// The words after the place, where it is told.
    fn after(self) -> Option<&'static str> {
        match self {
            JudgeError::LineLength { .. } => Some(" has another length"),
            JudgeError::InitialReset { .. } => Some(" is against its reset"),
            JudgeError::NoProperty(_) | JudgeError::ConstraintBroken { .. } => Some(""),
            _ => None,
        }
    }
}
