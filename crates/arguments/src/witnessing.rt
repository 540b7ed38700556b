//! The command for counterexamples of other tools, and what it asks for.

use crate::words::word;
use clap::ArgMatches;

/// A counterexample of another tool, and the strict stimulus to make of it.
#[derive(Clone, Copy)]
pub struct Counterexample<'a> {
    /// the circuit's file
    pub file: &'a str,
    /// the counterexample's file
    pub stimulus: &'a str,
    /// the file to make
    pub out: &'a str,
    /// the property's name, where one is chosen
    pub property: Option<&'a str>,
    /// whether the values that the violation does not rest on are to be cleared
    pub clear: bool,
    /// whether a fault says more than its line
    pub verbose: bool,
}

/// What `witness` asks for.
pub fn asked_witness<'a>(words: &ArgMatches<'a>) -> Counterexample<'a> {
    Counterexample {
        file: word(words, "FILE"),
        stimulus: word(words, "STIM"),
        out: word(words, "OUT"),
        property: words.get_str("property"),
        clear: words.get_flag("clear"),
        verbose: words.get_flag("verbose"),
    }
}
