//! The arguments of commands: rows of plain values, the clap argument of a row, and how a word is read back.

use clap::builder::ValueParser;
use clap::{Arg, ArgAction, ArgMatches};
use std::alloc::Global;

/// What an argument takes.
#[derive(Clone, Copy)]
pub enum Takes {
    /// Nothing: it is there or not.
    Nothing,
    /// A text.
    Text,
    /// A number below 256.
    SmallNumber,
    /// A number below 2^32.
    Count,
    /// A number below 2^64.
    Number,
    /// The name of an engine.
    Engine,
}

/// How many steps a search, or the proofs of a certificate, may cost where no number is asked for.
pub const STEPS: u64 = 200_000_000;

/// The engines that may be asked for.
static ENGINES: [&str; 7] = ["all", "bmc", "ic3", "corr", "kind", "rounds", "random"];

/// An argument of a command.
#[derive(Clone, Copy)]
pub struct Argument {
    /// what it is read back by, and what stands behind `--` where it is `long`
    pub name: &'static str,
    /// what `--help` says of it
    pub help: &'static str,
    /// its letter behind `-`, where it has one
    pub short: Option<char>,
    /// whether it is given by its name behind `--`
    pub long: bool,
    /// whether it has to be there
    pub required: bool,
    /// what `--help` calls its value, if not its name
    pub value: &'static str,
    /// its value where it is left out, if it has one then
    pub default: &'static str,
    /// what its value has to be
    pub takes: Takes,
}

/// A file that has to be named, in its place.
pub const FILE: Argument = Argument {
    name: "FILE",
    help: "The circuit (AIGER 1.9, ASCII or binary)",
    short: None,
    long: false,
    required: true,
    value: "",
    default: "",
    takes: Takes::Text,
};

/// An option with a text that may be left out.
pub const OPTION: Argument = Argument {
    long: true,
    required: false,
    ..FILE
};

/// An option that is there or not.
pub const FLAG: Argument = Argument {
    takes: Takes::Nothing,
    ..OPTION
};

/// The property, which has to be named.
pub const PROPERTY: Argument = Argument {
    name: "property",
    help: "The property: b, j or o and its position, or its name in the symbol table",
    short: Some('p'),
    value: "P",
    ..FILE
};

/// The text as a list, which is empty where the text is.
fn listed<'a>(text: &'a &'a str) -> &'a [&'a str] {
    if text.is_empty() {
        &[]
    } else {
        std::slice::from_ref(text)
    }
}

impl Takes {
    /// What a value has to be.
    fn parser<'a>(self) -> ValueParser<'a> {
        match self {
            Takes::Nothing => ValueParser::Bool,
            Takes::Text => ValueParser::String,
            Takes::SmallNumber => ValueParser::Signed(0, 255),
            Takes::Count => ValueParser::Signed(0, 4_294_967_295),
            Takes::Number => ValueParser::Unsigned(0, u64::MAX),
            Takes::Engine => ValueParser::Names(ENGINES.as_slice()),
        }
    }

    /// What is done where the argument is there.
    fn action(self) -> ArgAction {
        match self {
            Takes::Nothing => ArgAction::SetTrue,
            _ => ArgAction::Set,
        }
    }
}

impl Argument {
    /// The clap argument of this name, with its letter and its name behind `--`, where it has them.
    fn named<'a>(&'a self, alloc: Global) -> Arg<'a> {
        let arg = Arg::new(alloc, self.name);
        match (self.short, self.long) {
            (None, false) => arg,
            (None, true) => arg.long(self.name),
            (Some(letter), false) => arg.short(letter),
            (Some(letter), true) => arg.short(letter).long(self.name),
        }
    }

    /// The clap argument of a row.
    pub fn arg<'a>(&'a self, alloc: Global) -> Arg<'a> {
        self.named(alloc)
            .help(self.help)
            .value_parser(self.takes.parser())
            .action(self.takes.action())
            .required(self.required)
            .value_names(listed(&self.value))
            .default_values(listed(&self.default))
    }
}

/// The word given for an argument that has to be there.
pub fn word<'a>(words: &ArgMatches<'a>, name: &str) -> &'a str {
    words.get_str(name).unwrap_or("")
}
