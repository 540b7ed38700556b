//! The version of the programs.

/// What `--version` prints behind a program's name.
pub const VERSION: &str = "0.1.0 (rattle-kit-13f)";
