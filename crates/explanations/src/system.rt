//! The words for what the system refuses.

use std::io::ErrorKind;

/// The word for what the system refused.
pub fn word_of(kind: ErrorKind) -> &'static str {
    match kind {
        ErrorKind::NotFound => "no such file or folder",
        ErrorKind::PermissionDenied => "permission denied",
        ErrorKind::IsADirectory => "it is a folder",
        ErrorKind::NotADirectory => "a part of the name is no folder",
        ErrorKind::AlreadyExists => "it is there already",
        ErrorKind::ReadOnlyFilesystem => "read-only file system",
        ErrorKind::StorageFull => "no space left on the device",
        ErrorKind::FileTooLarge => "file too large",
        ErrorKind::BrokenPipe => "broken pipe",
        _ => "the system refused it",
    }
}
