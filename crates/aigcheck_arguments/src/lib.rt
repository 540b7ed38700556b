//! The command line of `aigcheck`: its commands and their words, and what `--help` says beside them.
//!
//! A crate of its own, so that it is proved beside the checker and not after it.
#![tactic(auto)]

use clap::builder::ValueParser;
use clap::{Arg, ArgAction, Command};
use explanations::VERSION;
use std::alloc::{AllocError, Global};

static STATUSES: &str = "Status: 0 yes, 1 no, 3 no answer.
Of all: 0 each property is safe, 1 one is violated, else 2 one is without accepted
evidence or the circuit has none; 3 no answer.
Each command has a help of its own: aigcheck safe --help.";

static EXPLAIN: &str = "Status: 0 done, 3 there is no such number.
Examples:
  aigcheck explain 30
  aigcheck explain 45";

static SAFE: &str = "Status: 0 yes, 1 no (with the number of the refusal), 3 no answer.
A yes is about the property that its line names, and about no other: who asks about one gives -p.
Examples:
  aigcheck safe design.aig b0.cert -p b0
  aigcheck safe design.aig b0.cert -p no_overflow
  aigmc check design.aig -p b0 --cert b0.cert && aigcheck safe design.aig b0.cert -p b0";

static RUN: &str =
    "Status: 0 yes, it is violated; 1 no (with the number of the refusal), 3 no answer.
A yes is about the property that its line names, and about no other: who asks about one gives -p.
Examples:
  aigcheck run design.aig b0.stim -p b0
  aigmc check design.aig -p b0 > b0.stim; aigcheck run design.aig b0.stim -p b0";

static ALL: &str = "Status: 0 each property is safe, and the circuit has one; 1 one is violated;
else 2 one is without accepted evidence, or the circuit has none; 3 no answer.
Examples:
  aigcheck all design.aig evidence
  aigcheck all design.aig evidence --json
  aigmc all design.aig --out evidence; aigcheck all design.aig evidence";

/// A file that has to be named.
fn file<'a>(alloc: Global, name: &'a str, about: &'a str) -> Arg<'a> {
    Arg::new(alloc, name)
        .help(about)
        .required(true)
        .action(ArgAction::Set)
}

/// The property that is asked about alone.
fn property<'a>(alloc: Global) -> Arg<'a> {
    Arg::new(alloc, "property")
        .help(
            "The property that is asked about alone: b, j or o and its position, or its name in the symbol table",
        )
        .short('p')
        .long("property")
        .value_name("P")
        .action(ArgAction::Set)
}

/// Whether standard error says why.
fn verbose<'a>(alloc: Global) -> Arg<'a> {
    Arg::new(alloc, "verbose")
        .help("Says on standard error which file is refused, why, and what a property is called")
        .short('v')
        .long("verbose")
        .value_parser(ValueParser::Bool)
        .action(ArgAction::SetTrue)
}

/// Whether JSON is put in place of the lines.
fn json<'a>(alloc: Global) -> Arg<'a> {
    Arg::new(alloc, "json")
        .help("Prints a line of JSON for each property, in place of the lines")
        .long("json")
        .value_parser(ValueParser::Bool)
        .action(ArgAction::SetTrue)
}

/// A command over a circuit and one more file or folder.
fn with_files<'a>(
    alloc: Global,
    name: &'a str,
    about: &'a str,
    help: &'a str,
    second: &'a str,
    second_about: &'a str,
) -> Result<Command<'a>, AllocError> {
    Command::new(alloc, name)
        .about(about)
        .after_help(help)
        .arg(file(alloc, "FILE", "The circuit (AIGER 1.9, ASCII or binary)"))?
        .arg(file(alloc, second, second_about))?
        .arg(verbose(alloc))
}

/// The words of `safe`.
fn safe_command<'a>(alloc: Global) -> Result<Command<'a>, AllocError> {
    let about = "Whether a certificate shows that a circuit is safe";
    with_files(alloc, "safe", about, SAFE, "CERT", "The certificate")?.arg(property(alloc))
}

/// The words of `run`.
fn run_command<'a>(alloc: Global) -> Result<Command<'a>, AllocError> {
    let about = "Whether a stimulus shows that a property is violated";
    with_files(alloc, "run", about, RUN, "STIM", "The stimulus")?.arg(property(alloc))
}

/// The words of `all`.
fn all_command<'a>(alloc: Global) -> Result<Command<'a>, AllocError> {
    let about = "What the evidence in a folder shows of each property of a circuit";
    let folder = "The folder: b0.cert, b1.stim and so on";
    with_files(alloc, "all", about, ALL, "DIR", folder)?.arg(json(alloc))
}

/// The words of `explain`.
fn explain_command<'a>(alloc: Global) -> Result<Command<'a>, AllocError> {
    let number = file(alloc, "NUMBER", "The number of a no").value_parser(ValueParser::Signed(
        0, 255,
    ));
    Command::new(alloc, "explain")
        .about("Says what the number of a no means, and what to do")
        .after_help(EXPLAIN)
        .arg(number)?
        .arg(verbose(alloc))
}

/// A command with one more subcommand.
fn with_subcommand<'a>(
    command: Command<'a>,
    subcommand: Result<Command<'a>, AllocError>,
) -> Result<Command<'a>, AllocError> {
    command.subcommand(subcommand?)
}

/// The command line without its commands.
fn without_commands<'a>(alloc: Global) -> Command<'a> {
    Command::new(alloc, "aigcheck")
        .about("Checks evidence about AIGER circuits")
        .version(VERSION)
        .after_help(STATUSES)
        .subcommand_required(true)
}

/// The command line.
pub fn command<'a>(alloc: Global) -> Result<Command<'a>, AllocError> {
    let command = with_subcommand(without_commands(alloc), safe_command(alloc))?;
    let command = with_subcommand(command, run_command(alloc))?;
    let command = with_subcommand(command, all_command(alloc))?;
    with_subcommand(command, explain_command(alloc))
}
