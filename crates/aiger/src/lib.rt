//! Circuits from texts and to texts, in either layout (AIGER 1.9).
//!
//! A text whose second byte is `i` is read as binary, every other as ASCII. `read` answers the file
//! that a text spells so (`SpellsFile` in `specs/Layouts.antt`), exactly; `load` does it for all the
//! bytes of a source. `put_file` puts the text of a file in the layout that is asked for
//! (`specs/Written.antt`), and `Layout::of_name` is the layout that a file's name asks for.
#![tactic(auto)]

mod layout;
mod load_error;
mod loading;
mod reading;

pub use layout::{Layout, put_file};
pub use load_error::LoadError;
pub use loading::load;
pub use reading::read;
