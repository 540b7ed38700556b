//! `aigcheck`: whether evidence about a circuit is accepted.
//!
//! `aigcheck safe FILE CERT` puts `yes safe P` where the certificate CERT shows that no run of the
//! circuit FILE which keeps the constraints sets the bad literal P at any time, and else `no` with
//! the number of the refusal. `aigcheck run FILE STIM` puts `yes run P` where the replay of the stimulus
//! STIM shows that the property P of the circuit is violated, and else `no` with the number.
//!
//! P is the property that CERT or STIM names, and the status says nothing of another. With `-p P` both ask
//! about P alone: where the evidence is of another property, the answer is `no 30`. P may be a name of the
//! circuit's symbol table.
//!
//! `aigcheck all FILE DIR` asks so about each property P of the circuit, in their order
//! (`properties::all_properties`), by the files `P.cert` and `P.stim` of the folder DIR: the certificate,
//! and where there is none that gets a yes, the stimulus. It puts the line of each that it judges, or
//! `no evidence P` where there is neither. Last it puts how many properties are shown safe, how many
//! violated, and how many are without accepted evidence. Of a FILE that is no circuit it puts `no` with the
//! number alone. With `--json` it puts a line of JSON for each property instead.
//!
//! `aigcheck explain NUMBER` says what the number of a no means, and what to do.
//!
//! FILE, CERT or STIM may be `-`, which is the standard input. With `-v` standard error says which file is refused
//! and why, and what properties are called; standard output is the same.
//!
//! The status of `safe` and `run` is 0 for yes and 1 for no. That of `all` is 1 where a property is
//! violated; else 2 where one is without accepted evidence, or the circuit has none; else 0, and then each is
//! safe. It is 3 where there is no answer, of `all` also where FILE is no circuit.
//!
//! Nothing is decided here: the answers are those of `checker::safe_of_readers`, `checker::run_of_readers`,
//! `checker::run_safe_for` and `checker::run_stimulus_for`, whose contracts say what they mean of the bytes that
//! were read. That the files hold these is the premise.
#![tactic(auto)]

mod counts;
mod detail;
mod exit_error;
mod folder;
mod judging;
mod reporting;
mod status;

use aigcheck_arguments::command;
use base::push;
use clap::error::ErrorKind;
use clap::{ArgMatches, Error};
use detail::tell_file;
use exit_error::{ExitError, fault, given};
use explanations::explained;
use folder::all;
use inputs::is_standard;
use judging::{Names, Question};
use properties::Evidence;
use property_names::{Asked, asked_by};
use status::{FAULT, YES, status_of};
use std::env;
use std::process::ExitCode;

/// The property that is asked about alone, where the words name one.
fn asked<'a>(words: &ArgMatches<'a>) -> Result<Option<Asked<'a>>, ExitError> {
    match words.get_str("property") {
        Some(word) => match asked_by(word) {
            Some(asked) => Ok(Some(asked)),
            None => Err(ExitError::BadArgument),
        },
        None => Ok(None),
    }
}

/// Whether the evidence in the second file is accepted for the circuit in the first.
fn judged(
    rt: &HostRuntime,
    words: &ArgMatches<'_>,
    evidence: Evidence,
    names: Names<'_>,
) -> Result<u8, ExitError> {
    let question = Question {
        names,
        evidence,
        asked: asked(words)?,
        verbose: words.get_flag("verbose"),
    };
    if is_standard(names.circuit) && is_standard(names.evidence) {
        return Err(ExitError::BadArgument);
    }
    Ok(status_of(question.answer(rt)?))
}

/// Says what the number means.
fn explain(rt: &HostRuntime, words: &ArgMatches<'_>) -> Result<u8, ExitError> {
    let number = words.get_one::<u8>("NUMBER").unwrap_or(0);
    let Some(row) = explained(number) else {
        return Err(ExitError::BadArgument);
    };
    given(println!(rt; "{number}: {}", row.meaning))?;
    given(println!(rt; "{}", row.remedy))?;
    Ok(YES)
}

/// The files that the words name.
fn names_of<'a>(words: &ArgMatches<'a>, second: &str) -> Names<'a> {
    Names {
        circuit: words.get_str("FILE").unwrap_or(""),
        evidence: words.get_str(second).unwrap_or(""),
    }
}

/// What a command's words ask for, and the files that they name. There is nothing where there is no such command.
fn done(
    rt: &HostRuntime,
    command: &str,
    words: &ArgMatches<'_>,
    names: Names<'_>,
) -> Result<u8, ExitError> {
    match command {
        "safe" => judged(rt, words, Evidence::Certificate, names),
        "run" => judged(rt, words, Evidence::Stimulus, names),
        "all" => all(rt, names, words.get_flag("verbose"), words.get_flag("json")),
        "explain" => explain(rt, words),
        _ => Err(ExitError::BadArgument),
    }
}

/// What the second file is called in the words of a command.
fn second_of(command: &str) -> &'static str {
    match command {
        "safe" => "CERT",
        "run" => "STIM",
        _ => "DIR",
    }
}

/// Does what the words ask for.
fn answer(rt: &HostRuntime, matches: &ArgMatches<'_>) -> ExitCode {
    let Some((command, words)) = matches.subcommand() else {
        return ExitCode::from(FAULT);
    };
    let names = names_of(words, second_of(command));
    match done(rt, command, words, names) {
        Ok(status) => ExitCode::from(status),
        Err(why) => {
            let status = fault(rt, why);
            if words.get_flag("verbose") {
                tell_file(rt, names, why);
            }
            status
        }
    }
}

/// Tells what is wrong with the words, or the help that they ask for.
fn wrong(rt: &HostRuntime, error: &Error) -> ExitCode {
    if error.kind() == ErrorKind::OutOfMemory {
        return fault(rt, ExitError::Memory);
    }
    let is_help = error.exit_code() == 0;
    match given(error.print(rt)) {
        Ok(()) if is_help => ExitCode::from(YES),
        Err(why) if is_help => fault(rt, why),
        _ => ExitCode::from(FAULT),
    }
}

fn main(rt: HostRuntime) -> ExitCode {
    let alloc = rt.alloc();
    let args = match env::args(&rt) {
        Ok(args) => args,
        Err(error) => {
            let _ = eprintln!(rt; "aigcheck: {error}");
            return ExitCode::from(FAULT);
        }
    };
    let mut words: Vec<String> = Vec::new(alloc);
    for word in args {
        if push(&mut words, word).is_err() {
            return fault(&rt, ExitError::Memory);
        }
    }
    let Ok(command) = command(alloc) else {
        return fault(&rt, ExitError::Memory);
    };
    match command.try_get_matches_from(words.as_slice()) {
        Ok(matches) => answer(&rt, &matches),
        Err(error) => wrong(&rt, &error),
    }
}
