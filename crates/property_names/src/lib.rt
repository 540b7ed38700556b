//! Properties by the words that name them.
//!
//! - `property_named` is the property that a word names: `b`, `j` or `o`, and its position.
//! - `asked_by` is what a word asks for: such a property, or that of a name, which `property_called` looks for in the
//!   circuit's symbol table. `symbol_of` is the name of a property there.
//! - `Listing` shows the names there, `Called` one of them with its property, and `NameError` why a name is of none.
//! - `Name` shows a property without memory, and `Line` what JSON says of one.
#![tactic(auto)]

mod line;
mod listing;
mod property_name;
mod symbols;

pub use line::Line;
pub use listing::{Called, Listing, Name};
pub use property_name::property_named;
pub use symbols::{Asked, NameError, asked_by, property_called, symbol_of};
