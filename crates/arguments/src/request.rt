//! What the words of a command line ask for.

ghost use Rattle.std.specs.Prelude.{◌≡◌, Some, None, IfSome, codes, option_map};
ghost use Rattle.arguments.specs.Places.{folder_of, name_of};
ghost use Rattle.arguments.specs.declared.request.EngineKind.TheVariants.{All, Bounded, Inductive, Corresponding, KInduction, Rounds, Random};
ghost use Rattle.arguments.specs.declared.request.Kept.TheVariants.{Nowhere, Certificate, Witness, Folder};

use crate::adopting::{
    Adoption, Claim, Extraction, Recertification, Shadow, WitnessCircuit, asked_adopt_witness,
    asked_certify, asked_extract, asked_recertify, asked_to_safety, asked_to_witness,
};
use crate::grammar::command;
use crate::layouts::{AskedLayout, asked_layout};
use crate::usage_error::UsageError;
use crate::witnessing::{Counterexample, asked_witness};
use crate::words::{STEPS, word};
use clap::ArgMatches;
use std::alloc::Global;

/// What looks for evidence.
#[derive(Clone, Copy, PartialEq, Eq)]
pub enum EngineKind {
    /// Bounded search and IC3, each with few steps, then the others and the two again.
    All,
    /// Bounded search.
    Bounded,
    /// IC3.
    Inductive,
    /// Register correspondence, and then bounded search.
    Corresponding,
    /// Bounded search, and then k-induction.
    KInduction,
    /// Counting rounds, for a justice property alone.
    Rounds,
    /// Random simulation.
    Random,
}

/// How a search is to go.
#[derive(Clone, Copy)]
pub struct Search {
    /// what looks for evidence
    pub engine: EngineKind,
    /// how many steps a run may have that bounded search or random simulation looks at
    pub depth: u8,
    /// how many steps the search for a property may cost
    pub budget: u64,
    /// where random simulation begins
    pub seed: u64,
    /// how many seconds the search may take in all, where that is said
    pub timeout: Option<u64>,
    /// whether verdicts are printed without a run, and standard error does not say how far it is
    pub quiet: bool,
    /// whether verdicts are printed as JSON
    pub json: bool,
    /// whether standard error says how far it is
    pub verbose: bool,
}

/// Where evidence about a property is kept.
#[derive(Clone, Copy)]
pub enum Kept<'a> {
    /// nowhere
    Nowhere,
    /// a certificate, in this file
    Certificate(&'a str),
    /// a certificate's witness circuit, in this file
    Witness(&'a str),
    /// a certificate or a stimulus, in this folder
    Folder(&'a str),
}

impl<'a> Kept<'a> {
    /// The folder, where it is one.
    pub fn folder(self) -> Option<&'a str>
        ensures { option_map (λ name. name.now) result ≡ folder_of self.entry }
    {
        match self {
            Kept::Folder(folder) => Some(folder),
            _ => None,
        }
    }

    /// The name of the file or the folder, where there is one.
    pub fn name(self) -> Option<&'a str>
        ensures { option_map (λ name. name.now) result ≡ name_of self.entry }
    {
        match self {
            Kept::Nowhere => None,
            Kept::Certificate(name) | Kept::Witness(name) | Kept::Folder(name) => Some(name),
        }
    }
}

/// What is to be done. Files go by their names.
#[derive(Clone, Copy)]
pub enum Request<'a> {
    /// Write a circuit in another layout.
    Convert {
        /// the circuit's file
        file: &'a str,
        /// the file to make
        out: &'a str,
        /// its layout
        layout: AskedLayout,
    },
    /// Print the values in a stimulus's replay.
    Sim {
        /// the circuit's file
        file: &'a str,
        /// the stimulus's file
        stimulus: &'a str,
    },
    /// Print a stimulus's replay by the names of its signals, or make a waveform of it.
    Trace {
        /// the circuit's file
        file: &'a str,
        /// the stimulus's file
        stimulus: &'a str,
        /// whether signals whose names begin with `$` are shown too
        all: bool,
        /// the file to make of the waveform, where one is named
        waveform: Option<&'a str>,
    },
    /// Say what the number of a fault means.
    Explain {
        /// the number
        number: u8,
    },
    /// Look for evidence about a property.
    Check {
        /// the circuit's file
        file: &'a str,
        /// the property's name
        property: &'a str,
        /// where its evidence is kept
        kept: Kept<'a>,
        /// how the search is to go
        search: Search,
    },
    /// Make a certificate of clauses.
    Certify(Claim<'a>),
    /// Make a certificate of version 3 of another one.
    Recertify(Recertification<'a>),
    /// Write a justice property as a circuit with one bad literal.
    ToSafety(Shadow<'a>),
    /// Make a certificate of version 3 of a witness circuit.
    AdoptWitness(Adoption<'a>),
    /// Write the witness circuit of a certificate.
    ToWitness(WitnessCircuit<'a>),
    /// Write the circuit of a property alone.
    Extract(Extraction<'a>),
    /// Make a strict stimulus of a counterexample.
    Witness(Counterexample<'a>),
    /// Look for a run in which two circuits differ.
    Equal {
        /// the first circuit's file
        file: &'a str,
        /// the other circuit's file
        other: &'a str,
        /// the folder for the miter and the evidence, where one is named
        folder: Option<&'a str>,
        /// the file to make of the map of equal latches, where one is named
        map: Option<&'a str>,
        /// how the search is to go
        search: Search,
    },
    /// Look for a run that keeps the constraints.
    Cover {
        /// the circuit's file
        file: &'a str,
        /// how the search is to go
        search: Search,
    },
    /// Look for evidence about all properties.
    All {
        /// the circuit's file
        file: &'a str,
        /// the folder for the evidence, where one is named
        folder: Option<&'a str>,
        /// how the search is to go
        search: Search,
    },
}

/// The engine of this name.
fn engine_called(name: &str) -> EngineKind
    ensures all { name.now ≡ codes "all" → result ≡ All }
    ensures bounded { name.now ≡ codes "bmc" → result ≡ Bounded }
    ensures inductive { name.now ≡ codes "ic3" → result ≡ Inductive }
    ensures corresponding { name.now ≡ codes "corr" → result ≡ Corresponding }
    ensures k_induction { name.now ≡ codes "kind" → result ≡ KInduction }
    ensures rounds { name.now ≡ codes "rounds" → result ≡ Rounds }
    ensures random { name.now ≡ codes "random" → result ≡ Random }
{
    match name {
        "bmc" => EngineKind::Bounded,
        "ic3" => EngineKind::Inductive,
        "corr" => EngineKind::Corresponding,
        "kind" => EngineKind::KInduction,
        "rounds" => EngineKind::Rounds,
        "random" => EngineKind::Random,
        _ => EngineKind::All,
    }
}

/// The engine that the words name.
fn engine_kind(words: &ArgMatches<'_>) -> EngineKind {
    engine_called(words.get_str("engine").unwrap_or("all"))
}

/// What the words say of the search.
fn asked_search(words: &ArgMatches<'_>) -> Search {
    let depth = words.get_one::<u8>("depth").unwrap_or(20);
    let budget = words.get_one::<u64>("budget").unwrap_or(STEPS);
    let seed = words.get_one::<u64>("seed").unwrap_or(0);
    Search {
        engine: engine_kind(words),
        depth,
        budget,
        seed,
        timeout: words.get_one::<u64>("timeout"),
        quiet: words.get_flag("quiet"),
        json: words.get_flag("json"),
        verbose: words.get_flag("verbose"),
    }
}

/// Where evidence is kept: in the file of a certificate or in a folder, where one is named, and nothing where both are.
fn kept_in<'a>(certificate: Option<&'a str>, folder: Option<&'a str>) -> Option<Kept<'a>>
    ensures nowhere { certificate.entry ≡ None → folder.entry ≡ None → result ≡ Some Nowhere }
    ensures certificate { folder.entry ≡ None → IfSome certificate.entry (λ name. result ≡ Some (Certificate name)) }
    ensures folder { certificate.entry ≡ None → IfSome folder.entry (λ name. result ≡ Some (Folder name)) }
    ensures both { IfSome certificate.entry (λ _. IfSome folder.entry (λ _. result ≡ None)) }
{
    match (certificate, folder) {
        (None, None) => Some(Kept::Nowhere),
        (Some(file), None) => Some(Kept::Certificate(file)),
        (None, Some(folder)) => Some(Kept::Folder(folder)),
        (Some(_), Some(_)) => None,
    }
}

/// Where evidence is kept: a witness circuit in the file, where one is named, and nothing where evidence is kept elsewhere too.
fn with_witness<'a>(kept: Kept<'a>, witness: Option<&'a str>) -> Option<Kept<'a>>
    ensures without { witness.entry ≡ None → result ≡ Some kept.entry }
    ensures witness { kept.entry ≡ Nowhere → IfSome witness.entry (λ name. result ≡ Some (Witness name)) }
    ensures both { (kept.entry ≡ Nowhere → ⊥) → IfSome witness.entry (λ _. result ≡ None) }
{
    match (kept, witness) {
        (kept, None) => Some(kept),
        (Kept::Nowhere, Some(file)) => Some(Kept::Witness(file)),
        (_, Some(_)) => None,
    }
}

/// What `check` asks for, or nothing where it asks for two files or a file and a folder.
fn asked_check<'a>(words: &ArgMatches<'a>) -> Option<Request<'a>> {
    let kept = kept_in(words.get_str("cert"), words.get_str("out"))?;
    Some(Request::Check {
        file: word(words, "FILE"),
        property: word(words, "property"),
        kept: with_witness(kept, words.get_str("witness"))?,
        search: asked_search(words),
    })
}

/// What `all` asks for.
fn asked_all<'a>(words: &ArgMatches<'a>) -> Request<'a> {
    Request::All {
        file: word(words, "FILE"),
        folder: words.get_str("out"),
        search: asked_search(words),
    }
}

/// What `equal` asks for.
fn asked_equal<'a>(words: &ArgMatches<'a>) -> Request<'a> {
    Request::Equal {
        file: word(words, "A"),
        other: word(words, "B"),
        folder: words.get_str("out"),
        map: words.get_str("map"),
        search: asked_search(words),
    }
}

/// What `cover` asks for.
fn asked_cover<'a>(words: &ArgMatches<'a>) -> Request<'a> {
    let search = Search {
        engine: EngineKind::Bounded,
        depth: words.get_one::<u8>("depth").unwrap_or(20),
        budget: words.get_one::<u64>("budget").unwrap_or(STEPS),
        seed: 0,
        timeout: words.get_one::<u64>("timeout"),
        quiet: false,
        json: false,
        verbose: words.get_flag("verbose"),
    };
    Request::Cover {
        file: word(words, "FILE"),
        search,
    }
}

/// What `convert` asks for, or nothing where it asks for two layouts.
fn asked_convert<'a>(words: &ArgMatches<'a>) -> Option<Request<'a>> {
    let layout = asked_layout(words)?;
    Some(Request::Convert {
        file: word(words, "FILE"),
        out: word(words, "OUT"),
        layout,
    })
}

/// What `sim` asks for.
fn asked_sim<'a>(words: &ArgMatches<'a>) -> Request<'a> {
    Request::Sim {
        file: word(words, "FILE"),
        stimulus: word(words, "STIM"),
    }
}

/// What `trace` asks for.
fn asked_trace<'a>(words: &ArgMatches<'a>) -> Request<'a> {
    Request::Trace {
        file: word(words, "FILE"),
        stimulus: word(words, "STIM"),
        all: words.get_flag("all"),
        waveform: words.get_str("vcd"),
    }
}

/// What `explain` asks for.
fn asked_explanation<'a>(words: &ArgMatches<'a>) -> Request<'a> {
    Request::Explain {
        number: words.get_one::<u8>("NUMBER").unwrap_or(0),
    }
}

/// What is to be done, and whether a fault says more than its line.
#[derive(Clone, Copy)]
pub struct Asked<'a> {
    /// what is to be done
    pub request: Request<'a>,
    /// whether a fault says more than its line
    pub verbose: bool,
}

/// What the words of a command ask for, where there is such a command.
fn asked_of<'a>(name: &str, words: &ArgMatches<'a>) -> Option<Request<'a>> {
    match name {
        "check" => asked_check(words),
        "all" => Some(asked_all(words)),
        "equal" => Some(asked_equal(words)),
        "cover" => Some(asked_cover(words)),
        "certify" => Some(Request::Certify(asked_certify(words))),
        "recertify" => Some(Request::Recertify(asked_recertify(words))),
        "to-safety" => Some(Request::ToSafety(asked_to_safety(words))),
        "adopt-witness" => Some(Request::AdoptWitness(asked_adopt_witness(words))),
        "to-witness" => Some(Request::ToWitness(asked_to_witness(words))),
        "extract" => Some(Request::Extract(asked_extract(words))),
        "witness" => Some(Request::Witness(asked_witness(words))),
        "convert" => asked_convert(words),
        "sim" => Some(asked_sim(words)),
        "trace" => Some(asked_trace(words)),
        "explain" => Some(asked_explanation(words)),
        _ => None,
    }
}

/// What the words of a command ask for, and whether a fault is to say more than its line.
fn asked_with<'a>(name: &str, words: &ArgMatches<'a>) -> Option<Asked<'a>> {
    let verbose = words.get_flag("verbose");
    asked_of(name, words).map(|request| Asked { request, verbose })
}

/// What a command line's words ask for, of which the first is the program's name. There is nothing
/// where they name no command.
pub fn parse<'a>(alloc: Global, words: &'a [String]) -> Result<Option<Asked<'a>>, UsageError> {
    let matches = command(alloc)?.try_get_matches_from(words)?;
    let Some((name, words)) = matches.subcommand() else {
        return Ok(None);
    };
    Ok(asked_with(name, words))
}
