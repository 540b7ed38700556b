//! The values of a file's signals at each time of a replay.

ghost use Rattle.std.specs.Prelude.{◌≡◌, ◌≢◌, ◌≤◌, ℕ, List, Option, None, All, IfOk, IfErr};
ghost use Rattle.graph.specs.Circuits.{variable};
ghost use Rattle.simulate.specs.Starts.{Starts};
ghost use Rattle.stimulus.specs.Causes.{IsPlayable};
ghost use Rattle.stimulus.specs.Tables.{HasSimCauseIn};
ghost use Rattle.wave_signals.specs.OpenRows.{HasOpenCause};
ghost use Rattle.signal_values.specs.SignalValues.{AreOpenValues};
ghost use Rattle.signal_values.specs.SignalValues.{AreOfReplay, AreSignalValues, IsLoopStartIn};

use base::Seq;
use graph::{AigerFile, Model, Property};
use simulate::Replay;
use std::alloc::Global;
use stimulus::{SimError, check_playable};
use wave_signals::{Bit, Signal, check_open, loop_start, open_rows, play, signals_of, sorted_bits};

/// The bits of a file that are shown, put together to signals, with their values at each time of a replay,
/// and where its loop begins.
#[derive(Drop)]
pub struct SignalValues<'a> {
    pub bits: Vec<Bit<'a>>,
    pub signals: Vec<Signal>,
    /// The values of all bits, time after time.
    pub values: Vec<Option<bool>>,
    pub start: Option<usize>,
}

/// The values of the bits at each time of the replay of these lines, and where its loop begins.
fn replayed(
    alloc: Global,
    circuit: &Model,
    bits: &[Bit<'_>],
    property: Property,
    initial: &[bool],
    inputs: &[Seq<bool>],
) -> Result<(Vec<Option<bool>>, Option<usize>), SimError>
    requires playable { IsPlayable circuit.now initial.now inputs.now }
    requires in_range { All (λ b. variable b.lit ≤ circuit.now.max_var) bits.now }
    ensures starts { IfOk result (λ _. Starts circuit.now.latches initial.now) }
    ensures values { IfOk result (λ x. AreOfReplay circuit.now initial.now inputs.now bits.now x.0.items) }
    ensures loops { IfOk result (λ x. IsLoopStartIn circuit.now property initial.now inputs.now x.1) }
    ensures refused { IfErr result (λ e. (e ≢ SimError.Device) × ((before after : Option (List ℕ)) → HasSimCauseIn circuit.now initial.now inputs.now before after e)) }
{
    let mut replay = Replay::new(alloc, circuit, initial)?;
    let values = play(alloc, &mut replay, bits, inputs)?;
    let start = loop_start(alloc, circuit, property, replay.state(), initial, inputs)?;
    Ok((values, start))
}

impl<'a> SignalValues<'a> {
    /// Replays these lines. Without `all` it has no signals whose names begin with a dollar sign.
    pub fn new(
        alloc: Global,
        file: &'a AigerFile,
        property: Property,
        initial: &[bool],
        inputs: &[Seq<bool>],
        all: bool,
    ) -> Result<SignalValues<'a>, SimError>
        ensures values { IfOk result (λ v. AreSignalValues file.now all property initial.now inputs.now v.bits.items v.signals.items v.values.items v.start) }
        ensures refused { IfErr result (λ e. (e ≢ SimError.Device) × ((before after : Option (List ℕ)) → HasSimCauseIn file.now.model initial.now inputs.now before after e)) }
    {
        let model = file.model();
        check_playable(model.parts(), initial, inputs)?;
        let bits = sorted_bits(alloc, file, all)?;
        let signals = signals_of(alloc, &bits)?;
        let (values, start) = replayed(alloc, model, &bits, property, initial, inputs)?;
        Ok(SignalValues {
            bits,
            signals,
            values,
            start,
        })
    }

    /// Replays what is given of a first state and of lines. It has no loop. Without `all` it has no signals whose names
    /// begin with a dollar sign.
    pub fn open(
        alloc: Global,
        file: &'a AigerFile,
        initial: &[Option<bool>],
        inputs: &[Seq<Option<bool>>],
        all: bool,
    ) -> Result<SignalValues<'a>, SimError>
        ensures values { IfOk result (λ v. AreOpenValues file.now all initial.now inputs.now v.bits.items v.signals.items v.values.items) }
        ensures no_loop { IfOk result (λ v. v.start ≡ None) }
        ensures refused { IfErr result (λ e. (e ≢ SimError.Device) × HasOpenCause file.now.model initial.now inputs.now e) }
    {
        let model = file.model();
        model.well_formed();
        check_open(model, initial, inputs)?;
        let bits = sorted_bits(alloc, file, all)?;
        let signals = signals_of(alloc, &bits)?;
        let values = open_rows(alloc, model, initial, inputs, &bits)?;
        Ok(SignalValues {
            bits,
            signals,
            values,
            start: None,
        })
    }
}
