//! Why there is no yes.

ghost use Rattle.std.specs.Prelude.{◌≡◌};
ghost use Rattle.base.specs.Witness.{witness};
ghost use Rattle.graph.specs.Refusals.{number_of as read_number};
ghost use Rattle.certificate.specs.Numbers.{number_of as certificate_number};
ghost use Rattle.stimulus.specs.Numbers.{stim_number_of};
ghost use Rattle.checker.specs.AnswerErrors.{error_numbered, error_of_load, error_of_reader, error_of_text};
ghost use Rattle.checker.specs.declared.answer_error.AnswerError.TheVariants.{OutOfMemory};

use aiger::LoadError;
use base::Refused;
use certificate::{CertError, ReaderError};
use graph::ReadError;
use replay::TextError;
use stimulus::StimError;

/// Why there is no yes.
#[derive(Clone, Copy)]
pub enum AnswerError {
    /// The answer is no, for the refusal with this number.
    No(u8),
    /// Out of memory: there is no answer.
    OutOfMemory(Refused),
    /// A device failed: there is no answer.
    Device,
}

impl From<Refused> for AnswerError {
    ghost from_gives = { λ _ s. s ≡ OutOfMemory witness };

    fn from(refused: Refused) -> AnswerError {
        AnswerError::OutOfMemory(refused)
    }
}

impl From<ReadError> for AnswerError {
    ghost from_gives = { λ e s. s ≡ error_numbered (read_number e) };

    fn from(e: ReadError) -> AnswerError {
        match e {
            ReadError::OutOfMemory(refused) => AnswerError::OutOfMemory(refused),
            _ => AnswerError::No(e.number()),
        }
    }
}

impl From<LoadError> for AnswerError {
    ghost from_gives = { λ e s. s ≡ error_of_load e };

    fn from(e: LoadError) -> AnswerError {
        match e {
            LoadError::Refused(e) => AnswerError::from(e),
            LoadError::Device => AnswerError::Device,
        }
    }
}

impl From<CertError> for AnswerError {
    ghost from_gives = { λ e s. s ≡ error_numbered (certificate_number e) };

    fn from(e: CertError) -> AnswerError {
        match e {
            CertError::OutOfMemory(refused) => AnswerError::OutOfMemory(refused),
            _ => AnswerError::No(e.number()),
        }
    }
}

impl From<ReaderError> for AnswerError {
    ghost from_gives = { λ e s. s ≡ error_of_reader e };

    fn from(e: ReaderError) -> AnswerError {
        match e {
            ReaderError::Refused(e) => AnswerError::from(e),
            ReaderError::Device => AnswerError::Device,
        }
    }
}

impl From<StimError> for AnswerError {
    ghost from_gives = { λ e s. s ≡ error_numbered (stim_number_of e) };

    fn from(e: StimError) -> AnswerError {
        match e {
            StimError::OutOfMemory(refused) => AnswerError::OutOfMemory(refused),
            _ => AnswerError::No(e.number()),
        }
    }
}

impl From<TextError> for AnswerError {
    ghost from_gives = { λ e s. s ≡ error_of_text e };

    fn from(e: TextError) -> AnswerError {
        match e {
            TextError::Refused(e) => AnswerError::from(e),
            TextError::Device => AnswerError::Device,
        }
    }
}
