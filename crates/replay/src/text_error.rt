//! Why a stimulus is not read on.

ghost use Rattle.std.specs.Prelude.{◌≡◌};
ghost use Rattle.base.specs.Witness.{witness};
ghost use Rattle.replay.specs.Refusals.{of_line};
ghost use Rattle.replay.specs.declared.text_error.TextError.TheVariants.{Refused};
ghost use Rattle.stimulus.specs.declared.stim_error.StimError.TheVariants.{OutOfMemory};

use base::Refused;
use pieces::LineError;
use stimulus::{StimError, StimFault, text_error};
use thiserror::Error;

/// Why the lines of a stimulus's text are not read on.
#[derive(Clone, Copy, Debug, Error)]
pub enum TextError {
    /// the text is refused, or memory is refused
    #[error("{0}")]
    Refused(StimError),
    /// the source failed
    #[error("read failed")]
    Device,
}

impl From<Refused> for TextError {
    ghost from_gives = { λ _ e. e ≡ Refused (OutOfMemory witness) };

    fn from(refused: Refused) -> TextError {
        TextError::Refused(StimError::OutOfMemory(refused))
    }
}

impl From<LineError<StimFault>> for TextError {
    ghost from_gives = { λ e r. r ≡ of_line e };

    fn from(e: LineError<StimFault>) -> TextError {
        match e {
            LineError::Refused { length, fault } => TextError::Refused(text_error(length, fault)),
            LineError::Device => TextError::Device,
        }
    }
}
