//! The commands for other engines and what they found, and what they ask for.

use crate::words::{STEPS, word};
use clap::ArgMatches;

/// Clauses that are said to be an inductive invariant, and the certificate to make of them.
#[derive(Clone, Copy)]
pub struct Claim<'a> {
    /// the circuit's file
    pub file: &'a str,
    /// the property's name
    pub property: &'a str,
    /// the file of the clauses
    pub invariant: &'a str,
    /// the circuit that adds latches and gates, where one is named: a certificate of version 3 is made
    pub extension: Option<&'a str>,
    /// the file to make of the certificate
    pub certificate: &'a str,
    /// how many steps the proofs may cost, and a search behind them
    pub budget: u64,
    /// whether IC3 begins from the clauses where they are no invariant
    pub strengthen: bool,
    /// how many seconds that search may take, where that is said
    pub timeout: Option<u64>,
    /// whether standard error says how far that search is, and why a file is refused
    pub verbose: bool,
}

/// A certificate, and the file to make of one of version 3.
#[derive(Clone, Copy)]
pub struct Recertification<'a> {
    /// the circuit's file
    pub file: &'a str,
    /// the certificate's file
    pub certificate: &'a str,
    /// the file to make
    pub out: &'a str,
    /// how many steps the proofs may cost
    pub budget: u64,
    /// whether a fault says more than its line
    pub verbose: bool,
}

/// A witness circuit, and the certificate to make of it.
#[derive(Clone, Copy)]
pub struct Adoption<'a> {
    /// the circuit's file
    pub file: &'a str,
    /// the witness circuit's file
    pub witness: &'a str,
    /// the file to make
    pub out: &'a str,
    /// the property's name, where one is chosen
    pub property: Option<&'a str>,
    /// how many steps the proofs may cost
    pub budget: u64,
    /// whether a fault says more than its line
    pub verbose: bool,
}

/// A certificate, and the file to make of its witness circuit.
#[derive(Clone, Copy)]
pub struct WitnessCircuit<'a> {
    /// the circuit's file
    pub file: &'a str,
    /// the certificate's file
    pub certificate: &'a str,
    /// the file to make
    pub out: &'a str,
    /// whether a fault says more than its line
    pub verbose: bool,
}

/// A justice property, and the file to make of its shadow circuit, or of the one that counts its rounds.
#[derive(Clone, Copy)]
pub struct Shadow<'a> {
    /// the circuit's file
    pub file: &'a str,
    /// the property's name
    pub property: &'a str,
    /// how many rounds are counted, where they are
    pub rounds: Option<u32>,
    /// the file to make
    pub out: &'a str,
    /// whether a fault says more than its line
    pub verbose: bool,
}

/// A property, and the file to make of its circuit alone.
#[derive(Clone, Copy)]
pub struct Extraction<'a> {
    /// the circuit's file
    pub file: &'a str,
    /// the property's name
    pub property: &'a str,
    /// the file to make
    pub out: &'a str,
    /// whether a fault says more than its line
    pub verbose: bool,
}

/// What `extract` asks for.
pub fn asked_extract<'a>(words: &ArgMatches<'a>) -> Extraction<'a> {
    Extraction {
        file: word(words, "FILE"),
        property: word(words, "property"),
        out: word(words, "OUT"),
        verbose: words.get_flag("verbose"),
    }
}

/// What `certify` asks for.
pub fn asked_certify<'a>(words: &ArgMatches<'a>) -> Claim<'a> {
    Claim {
        file: word(words, "FILE"),
        property: word(words, "property"),
        invariant: word(words, "invariant"),
        extension: words.get_str("extension"),
        certificate: word(words, "cert"),
        budget: words.get_one::<u64>("budget").unwrap_or(STEPS),
        strengthen: words.get_flag("strengthen"),
        timeout: words.get_one::<u64>("timeout"),
        verbose: words.get_flag("verbose"),
    }
}

/// What `recertify` asks for.
pub fn asked_recertify<'a>(words: &ArgMatches<'a>) -> Recertification<'a> {
    Recertification {
        file: word(words, "FILE"),
        certificate: word(words, "CERT"),
        out: word(words, "OUT"),
        budget: words.get_one::<u64>("budget").unwrap_or(STEPS),
        verbose: words.get_flag("verbose"),
    }
}

/// What `adopt-witness` asks for.
pub fn asked_adopt_witness<'a>(words: &ArgMatches<'a>) -> Adoption<'a> {
    Adoption {
        file: word(words, "FILE"),
        witness: word(words, "WITNESS"),
        out: word(words, "OUT"),
        property: words.get_str("property"),
        budget: words.get_one::<u64>("budget").unwrap_or(STEPS),
        verbose: words.get_flag("verbose"),
    }
}

/// What `to-witness` asks for.
pub fn asked_to_witness<'a>(words: &ArgMatches<'a>) -> WitnessCircuit<'a> {
    WitnessCircuit {
        file: word(words, "FILE"),
        certificate: word(words, "CERT"),
        out: word(words, "OUT"),
        verbose: words.get_flag("verbose"),
    }
}

/// What `to-safety` asks for.
pub fn asked_to_safety<'a>(words: &ArgMatches<'a>) -> Shadow<'a> {
    Shadow {
        file: word(words, "FILE"),
        property: word(words, "property"),
        rounds: words.get_one::<u32>("rounds"),
        out: word(words, "OUT"),
        verbose: words.get_flag("verbose"),
    }
}
