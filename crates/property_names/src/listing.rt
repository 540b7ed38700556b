//! How properties and their names in a circuit's symbol table are shown.

use crate::symbols::{NameError, property_of};
use explanations::Printable;
use graph::{AigerFile, Property};
use std::fmt;

/// How many names are listed.
const MOST_NAMES: usize = 10;

/// The name of a property: `b` for a bad literal, `j` for a justice property or `o` for an output, and its position.
#[derive(Clone, Copy)]
pub struct Name(pub Property);

impl fmt::Display for Name {
    fn fmt<W: fmt::Write>(&self, f: &mut fmt::Formatter<W>) -> fmt::Result {
        match self.0 {
            Property::Bad(n) => write!(f, "b{n}"),
            Property::Justice(n) => write!(f, "j{n}"),
            Property::Output(n) => write!(f, "o{n}"),
        }
    }
}

/// A property behind the name that the symbol table gives it: `no_overflow (b0)`.
#[derive(Clone, Copy)]
pub struct Called<'a> {
    /// the name in the symbol table
    pub symbol: &'a [u8],
    /// the property
    pub property: Property,
}

impl fmt::Display for Called<'_> {
    fn fmt<W: fmt::Write>(&self, f: &mut fmt::Formatter<W>) -> fmt::Result {
        write!(f, "{} ({})", Printable(self.symbol), Name(self.property))
    }
}

/// The names that the symbol table of a circuit gives properties, each behind a sign: the first ones, where there are
/// many.
#[derive(Clone, Copy)]
pub struct Listing<'a>(pub &'a AigerFile);

impl fmt::Display for Listing<'_> {
    fn fmt<W: fmt::Write>(&self, f: &mut fmt::Formatter<W>) -> fmt::Result {
        let are_outputs_bad = self.0.model().parts().are_outputs_bad();
        let mut told = 0usize;
        for symbol in self.0.symbols() {
            let Some(property) = property_of(symbol, are_outputs_bad) else {
                continue;
            };
            if told == MOST_NAMES {
                return f.write_str(" and more");
            }
            let called = Called {
                symbol: symbol.name.as_slice(),
                property,
            };
            let sign = if told == 0 { "; names are" } else { "," };
            write!(f, "{sign} {called}")?;
            told = told.saturating_add(1);
        }
        Ok(())
    }
}

impl fmt::Display for NameError {
    fn fmt<W: fmt::Write>(&self, f: &mut fmt::Formatter<W>) -> fmt::Result {
        f.write_str(match self {
            NameError::Unknown => "no property is called",
            NameError::Several => "more than one property is called",
        })
    }
}
