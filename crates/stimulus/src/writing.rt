//! Writing the texts of stimuli.

ghost use Rattle.std.specs.Prelude.{◌≡◌, ◌-◌, ◌^◌, ◌<◌, ◌++◌, OnOk, OnErr, codes, decimal, flat_map};
ghost use Rattle.std.specs.Io.KnownBytes.{Appends};
ghost use Rattle.base.specs.Devices.{CountsFailure, Puts, PutsBeginning};
ghost use Rattle.graph.specs.Circuits.{position_of, property_text};
ghost use Rattle.stimulus.specs.Texts.{SpellsStimulus, line_text, property_line, property_of, stimulus_text, value_text, violated_text};

use crate::stim_write_error::StimWriteError;
use crate::value::Stimulus;
use base::{Failed, Seq, Sink, put_all};
use graph::Property;
use itoa::Buffer;

/// The letter of a property's kind, and the property's position among its kind.
fn name_of(property: Property) -> (&'static [u8], u32)
    ensures text { result.0.now ++ decimal result.1 ≡ property_text property }
    ensures within { position_of property < 2 ^ 32 }
{
    match property {
        Property::Bad(n) => (b"b", n),
        Property::Justice(n) => (b"j", n),
        Property::Output(n) => (b"o", n),
    }
}

/// Puts the line of a property: the letter of its kind and its position.
fn put_property<W: Sink>(out: &mut W, letter: &[u8], position: u32) -> Result<(), Failed>
    requires { W.failed out.old < 2 ^ 64 - 1 }
    ensures puts { Puts result (W.contents out.old) (W.contents out.new) (letter.now ++ decimal position ++ codes "\n") }
    ensures counts { CountsFailure (W.failed out.old) (W.failed out.new) result }
{
    let mut buffer = Buffer::new();
    put_all(out, letter)?;
    put_all(out, buffer.format(position).as_bytes())?;
    put_all(out, b"\n")
}

/// Puts a value.
pub fn put_value<W: Sink>(out: &mut W, value: bool) -> Result<(), Failed>
    requires { W.failed out.old < 2 ^ 64 - 1 }
    ensures puts { Puts result (W.contents out.old) (W.contents out.new) (value_text value) }
    ensures counts { CountsFailure (W.failed out.old) (W.failed out.new) result }
{
    if value {
        put_all(out, b"1")
    } else {
        put_all(out, b"0")
    }
}

/// Puts the values one after another.
pub fn put_values<W: Sink>(out: &mut W, values: &[bool]) -> Result<(), Failed>
    requires { W.failed out.old < 2 ^ 64 - 1 }
    ensures puts { Puts result (W.contents out.old) (W.contents out.new) (flat_map value_text values.now) }
    ensures counts { CountsFailure (W.failed out.old) (W.failed out.new) result }
{
    for value in values {
        put_value(out, *value)?;
    }
    Ok(())
}

/// Puts a line of values.
fn put_line<W: Sink>(out: &mut W, values: &[bool]) -> Result<(), Failed>
    requires { W.failed out.old < 2 ^ 64 - 1 }
    ensures puts { Puts result (W.contents out.old) (W.contents out.new) (line_text values.now) }
    ensures counts { CountsFailure (W.failed out.old) (W.failed out.new) result }
{
    put_values(out, values)?;
    put_all(out, b"\n")
}

/// Puts the lines one after another.
fn put_lines<W: Sink>(out: &mut W, lines: &[Seq<bool>]) -> Result<(), Failed>
    requires { W.failed out.old < 2 ^ 64 - 1 }
    ensures puts { Puts result (W.contents out.old) (W.contents out.new) (flat_map line_text lines.now) }
    ensures counts { CountsFailure (W.failed out.old) (W.failed out.new) result }
{
    for line in lines {
        put_line(out, line.as_slice())?;
    }
    Ok(())
}

/// Puts a stimulus without a run: its status with the line end, its property, and the last line.
fn put_concluded<W: Sink>(out: &mut W, status: &[u8], property: Property) -> Result<(), Failed>
    requires { W.failed out.old < 2 ^ 64 - 1 }
    ensures puts { Puts result (W.contents out.old) (W.contents out.new) (status.now ++ property_line property ++ codes ".\n") }
    ensures within { position_of property < 2 ^ 32 }
    ensures counts { CountsFailure (W.failed out.old) (W.failed out.new) result }
{
    let (letter, position) = name_of(property);
    put_all(out, status)?;
    put_property(out, letter, position)?;
    put_all(out, b".\n")
}

/// Puts a stimulus with a run.
fn put_violated<W: Sink>(
    out: &mut W,
    property: Property,
    initial: &[bool],
    inputs: &[Seq<bool>],
) -> Result<(), Failed>
    requires { W.failed out.old < 2 ^ 64 - 1 }
    ensures puts { Puts result (W.contents out.old) (W.contents out.new) (violated_text property initial.now inputs.now) }
    ensures within { position_of property < 2 ^ 32 }
    ensures counts { CountsFailure (W.failed out.old) (W.failed out.new) result }
{
    let (letter, position) = name_of(property);
    put_all(out, b"1\n")?;
    put_property(out, letter, position)?;
    put_line(out, initial)?;
    put_lines(out, inputs)?;
    put_all(out, b".\n")
}

/// Puts a stimulus.
fn put_stimulus<W: Sink>(out: &mut W, stimulus: &Stimulus) -> Result<(), Failed>
    requires { W.failed out.old < 2 ^ 64 - 1 }
    ensures puts { Puts result (W.contents out.old) (W.contents out.new) (stimulus_text stimulus.now) }
    ensures within { position_of (property_of stimulus.now) < 2 ^ 32 }
    ensures counts { CountsFailure (W.failed out.old) (W.failed out.new) result }
{
    let property = stimulus.property();
    match stimulus {
        Stimulus::Holds(_) => put_concluded(out, b"0\n", property),
        Stimulus::Violated {
            initial,
            inputs,
            ..
        } => put_violated(out, property, initial.as_slice(), inputs.as_slice()),
        Stimulus::Unknown(_) => put_concluded(out, b"2\n", property),
    }
}

/// Writes the text of a stimulus, which is the one text that spells it: `read` gives the stimulus
/// again. After a failure of the sink a beginning of the text was put. It takes no memory.
pub fn write<W: Sink>(stimulus: &Stimulus, out: &mut W) -> Result<(), StimWriteError>
    requires { W.failed out.old < 2 ^ 64 - 1 }
    ensures written { OnOk result (Appends (W.contents out.old) (W.contents out.new) (stimulus_text stimulus.now)) }
    ensures spelled { SpellsStimulus (stimulus_text stimulus.now) stimulus.now }
    ensures beginning { OnErr result (PutsBeginning (W.contents out.old) (W.contents out.new) (stimulus_text stimulus.now)) }
    ensures counts { CountsFailure (W.failed out.old) (W.failed out.new) result }
{
    put_stimulus(out, stimulus)?;
    Ok(())
}
