//! The text of what is left of a stimulus.

ghost use Rattle.std.specs.Prelude.{◌≡◌, ◌++◌, IfOk, OnOk, decimal, flat_map};
ghost use Rattle.graph.specs.Circuits.{property_text};
ghost use Rattle.stimulus.specs.Texts.{property_line};
ghost use Rattle.witness.specs.Texts.{character_of, cleared_text, row_text};

use crate::cleared::Cleared;
use base::{Refused, Seq, extend, push};
use graph::Property;
use std::alloc::Global;

/// The character of a value.
fn character(value: Option<bool>) -> u8
    ensures { result ≡ character_of value }
{
    match value {
        Some(false) => b'0',
        Some(true) => b'1',
        None => b'x',
    }
}

/// Adds the line of a row.
fn push_row(to: &mut Vec<u8>, row: &[Option<bool>]) -> Result<(), Refused>
    ensures { OnOk result (to.new.items ≡ to.old.items ++ row_text row.now) }
{
    for value in row {
        push(to, character(*value))?;
    }
    push(to, b'\n')
}

/// The letter of a property's kind, and the property's position among its kind.
fn name_of(property: Property) -> (&'static [u8], u32)
    ensures { result.0.now ++ decimal result.1 ≡ property_text property }
{
    match property {
        Property::Bad(n) => (b"b", n),
        Property::Justice(n) => (b"j", n),
        Property::Output(n) => (b"o", n),
    }
}

/// Adds the line of a property.
fn push_property(to: &mut Vec<u8>, property: Property) -> Result<(), Refused>
    ensures { OnOk result (to.new.items ≡ to.old.items ++ property_line property) }
{
    let (kind, position) = name_of(property);
    extend(to, kind)?;
    let mut digits = itoa::Buffer::new();
    extend(to, digits.format(position).as_bytes())?;
    push(to, b'\n')
}

/// Adds the lines of rows.
fn push_rows(to: &mut Vec<u8>, rows: &[Seq<Option<bool>>]) -> Result<(), Refused>
    ensures { OnOk result (to.new.items ≡ to.old.items ++ flat_map row_text rows.now) }
{
    for row in rows {
        push_row(to, row.as_slice())?;
    }
    Ok(())
}

/// The text of what is left of a stimulus, in the layout of a stimulus with an `x` for each value that was cleared. `read` reads
/// it again.
pub fn text_of(alloc: Global, cleared: &Cleared) -> Result<Vec<u8>, Refused>
    ensures { IfOk result (λ text. text.items ≡ cleared_text cleared.now) }
{
    let mut text = Vec::new(alloc);
    extend(&mut text, b"1\n")?;
    push_property(&mut text, cleared.property)?;
    push_row(&mut text, cleared.initial.as_slice())?;
    push_rows(&mut text, cleared.inputs.as_slice())?;
    extend(&mut text, b".\n")?;
    Ok(text)
}
