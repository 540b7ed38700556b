//! What JSON says of a property.

use crate::listing::Name;
use explanations::Quoted;
use graph::Property;
use std::fmt;
use std::time::Duration;

/// A text of JSON, or `null` where there is none.
#[derive(Clone, Copy)]
struct Given<'a>(Option<&'a [u8]>);

impl fmt::Display for Given<'_> {
    fn fmt<W: fmt::Write>(&self, f: &mut fmt::Formatter<W>) -> fmt::Result {
        match self.0 {
            Some(text) => write!(f, "{}", Quoted(text)),
            None => f.write_str("null"),
        }
    }
}

/// Seconds with three decimals, or `null` where the clock was refused.
#[derive(Clone, Copy)]
struct Seconds(Option<Duration>);

impl fmt::Display for Seconds {
    fn fmt<W: fmt::Write>(&self, f: &mut fmt::Formatter<W>) -> fmt::Result {
        match self.0 {
            Some(time) => write!(f, "{}.{:03}", time.as_secs(), time.subsec_millis()),
            None => f.write_str("null"),
        }
    }
}

/// The beginning of what JSON says of a property: an object that a program goes on with and closes.
#[derive(Clone, Copy)]
pub struct Line<'a> {
    /// the circuit's file, as it was named
    pub file: &'a str,
    /// the property
    pub property: Property,
    /// its name in the symbol table, where it has one
    pub symbol: Option<&'a [u8]>,
    /// the word for what is known of it
    pub verdict: &'static str,
    /// the file of the evidence, where there is one
    pub evidence: Option<&'a str>,
    /// how long it took, where the clock said so
    pub time: Option<Duration>,
}

impl fmt::Display for Line<'_> {
    fn fmt<W: fmt::Write>(&self, f: &mut fmt::Formatter<W>) -> fmt::Result {
        let file = Quoted(self.file.as_bytes());
        let property = Name(self.property);
        let symbol = Given(self.symbol);
        write!(
            f,
            "{{\"file\":{file},\"property\":\"{property}\",\"name\":{symbol}"
        )?;
        let verdict = self.verdict;
        let evidence = Given(match self.evidence {
            Some(name) => Some(name.as_bytes()),
            None => None,
        });
        let seconds = Seconds(self.time);
        write!(
            f,
            ",\"verdict\":\"{verdict}\",\"evidence\":{evidence},\"seconds\":{seconds}"
        )
    }
}
