//! The numbers of the causes, as `stimulus::JudgeError` has them.

/// There is no such property.
pub const NO_PROPERTY: u8 = 30;

/// A latch is against its reset.
pub const INITIAL_RESET: u8 = 60;

/// A constraint is broken.
pub const CONSTRAINT_BROKEN: u8 = 61;

/// The bad literal is not set at the last line.
pub const BAD_NOT_SET: u8 = 62;

/// There is no input line.
pub const NO_INPUT_LINE: u8 = 64;

/// The stimulus tells of no violation.
pub const NOT_VIOLATED: u8 = 65;

/// A line has another length.
pub const LINE_LENGTH: u8 = 66;
