//! Putting verdicts.

ghost use Rattle.std.specs.Prelude.{◌≡◌, ◌-◌, ◌^◌, ◌<◌, IfOk, OnOk, OnErr};
ghost use Rattle.std.specs.Io.KnownBytes.{Appends};
ghost use Rattle.base.specs.Devices.{CountsFailure, PutsBeginning};
ghost use Rattle.stimulus.specs.Texts.{SpellsStimulus, stimulus_text};
ghost use Rattle.verdict.specs.Verdicts.{status_of, stimulus_of};

use crate::verdict::Verdict;
use base::Sink;
use graph::Property;
use stimulus::{StimWriteError, Stimulus, write};

/// Puts a verdict on a property as the text of a stimulus (the layout of the hardware model checking
/// competition), and answers its status: 0 where the property holds, 1 for a violation, 2 where
/// nothing is known. After a failure of the sink a beginning of the text was put. It takes no memory.
pub fn show<W: Sink>(
    property: Property,
    verdict: &Verdict,
    out: &mut W,
) -> Result<u8, StimWriteError>
    requires { W.failed out.old < 2 ^ 64 - 1 }
    ensures status { IfOk result (λ status. status ≡ status_of verdict.now) }
    ensures written { OnOk result (Appends (W.contents out.old) (W.contents out.new) (stimulus_text (stimulus_of property verdict.now))) }
    ensures spelled { SpellsStimulus (stimulus_text (stimulus_of property verdict.now)) (stimulus_of property verdict.now) }
    ensures beginning { OnErr result (PutsBeginning (W.contents out.old) (W.contents out.new) (stimulus_text (stimulus_of property verdict.now))) }
    ensures counts { CountsFailure (W.failed out.old) (W.failed out.new) result }
{
    match verdict {
        Verdict::Safe(_) => {
            write(&Stimulus::Holds(property), out)?;
            Ok(0)
        }
        Verdict::Unsafe(stimulus) => {
            write(stimulus, out)?;
            Ok(1)
        }
        Verdict::Unknown(_) => {
            write(&Stimulus::Unknown(property), out)?;
            Ok(2)
        }
    }
}
