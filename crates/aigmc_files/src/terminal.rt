//! Whether standard error is a terminal.

use std::fs;
use std::os::unix::fs::{FileTypeExt, MetadataExt};

/// Whether standard error is a terminal: a character device of a kind that Linux has for terminals
/// (Documentation/admin-guide/devices.txt: 4 and 5 for consoles and lines, 136 to 143 for those of programs).
pub fn is_terminal(rt: &HostRuntime) -> bool {
    match fs::metadata(rt, "/dev/stderr") {
        Ok(found) => {
            found.file_type().is_char_device()
                && matches!((found.rdev() >> 8) & 0xfff, 4 | 5 | 136..=143)
        }
        Err(_) => false,
    }
}
