//! The texts of numbers that are given by their bits, of which some may be open (`number_text`).
#![tactic(auto)]

mod numbers;

pub use numbers::{binary_digit, decimal_length, number_length, put_number};
