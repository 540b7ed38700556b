//! Functions of four inputs as truth tables, and covers of them by cubes.
//!
//! - A truth table is a word of 16 bits: bit `a + 2b + 4c + 8d` is the function's value for the inputs `a`, `b`, `c` and `d`.
//!   So `FIRST` to `FOURTH` are the inputs themselves, and `composed` puts functions in the place of a function's inputs.
//! - A cube is a conjunction of some of the inputs, each as it is or denied. A cover of a function is a list of cubes of which
//!   one holds exactly where the function is true (a sum of products). `Covers` makes the cover of each function once.
#![tactic(auto)]

mod cover;
mod covers;
mod cube;
mod table;

pub use covers::Covers;
pub use cube::{Cube, Side};
pub use table::{
    ALL, FIRST, FOURTH, NONE, SECOND, THIRD, complement, composed, conjunction, ignores_first,
    ignores_fourth, ignores_second, ignores_third,
};
