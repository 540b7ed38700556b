//! Files that are made whole or not at all.

use crate::command_error::CommandError;
use crate::exit_error::{ExitError, finished};
use std::fs;
use std::fs::{File, OpenOptions, Permissions};
use std::io::ErrorKind;
use std::os::unix::fs::{MetadataExt, PermissionsExt};

/// How many names beside a file are tried.
const NAMES: u32 = 100;
/// How much of a name's last part stands in the name beside it: that may have 255 bytes.
const MOST_BYTES: usize = 240;
/// The bits of a file's mode that say who may read, write and run it.
const PERMISSIONS: u32 = 0o7777;

/// A file that is being made.
///
/// What is written goes to a file beside it, which takes its name once it is whole. So the name is of the
/// old file or of the whole new one, whatever happens. A device or a pipe is written to as it is.
#[derive(Drop)]
pub struct Making<'a> {
    name: &'a str,
    /// The name of the file beside it, where there is one.
    beside: Option<String>,
}

/// Whether the name is of something that is no file: a device, a pipe or a folder.
fn is_special(rt: &HostRuntime, name: &str) -> bool {
    match fs::metadata(rt, name) {
        Ok(found) => !found.is_file(),
        Err(_) => false,
    }
}

/// Gives the file the mode of the one whose name it is to have, where there is one.
fn keep_mode(rt: &HostRuntime, name: &str, file: &File) -> Result<(), ExitError> {
    match fs::metadata(rt, name) {
        Ok(old) => {
            let mode = old.permissions().mode() & PERMISSIONS;
            finished(file.set_permissions(Permissions::from_mode(mode)))
        }
        Err(_) => Ok(()),
    }
}

/// Whether two names are of one file.
pub fn is_same(rt: &HostRuntime, one: &str, other: &str) -> bool {
    match (fs::metadata(rt, one), fs::metadata(rt, other)) {
        (Ok(one), Ok(other)) => {
            one.is_file() && one.dev() == other.dev() && one.ino() == other.ino()
        }
        _ => false,
    }
}

/// Refuses a name that is of no folder.
pub fn expect_folder(rt: &HostRuntime, name: &str) -> Result<(), ExitError> {
    if finished(fs::metadata(rt, name))?.is_dir() {
        return Ok(());
    }
    Err(ExitError::Refused(CommandError::Device))
}

impl<'a> Making<'a> {
    /// The file to write to. It is a new one, but for a device or a pipe.
    pub fn begin(rt: &HostRuntime, name: &'a str) -> Result<(Making<'a>, File), ExitError> {
        if is_special(rt, name) {
            let file = finished(File::create(rt, name))?;
            return Ok((Making { name, beside: None }, file));
        }
        for number in 0..NAMES {
            let beside = beside(rt, name, number)?;
            let made = OpenOptions::new()
                .write(true)
                .create_new(true)
                .open(rt, beside.as_str());
            match made {
                Err(error) if error.kind() == ErrorKind::AlreadyExists => {}
                _ => {
                    let file = finished(made)?;
                    return Making::of_mode(rt, name, beside, file);
                }
            }
        }
        Err(ExitError::Refused(CommandError::Device))
    }

    /// The file beside, which has the mode of the old one from now on.
    fn of_mode(
        rt: &HostRuntime,
        name: &'a str,
        beside: String,
        file: File,
    ) -> Result<(Making<'a>, File), ExitError> {
        let kept = keep_mode(rt, name, &file);
        let making = Making {
            name,
            beside: Some(beside),
        };
        match kept {
            Ok(()) => Ok((making, file)),
            Err(stop) => {
                making.end(rt, Err(stop))?;
                Err(stop)
            }
        }
    }

    /// Gives what was written its name, where all was written; else takes it away.
    pub fn end(self, rt: &HostRuntime, written: Result<(), ExitError>) -> Result<(), ExitError> {
        let Making { name, beside } = self;
        let Some(beside) = beside else {
            return written;
        };
        let named = match written {
            Ok(()) => finished(fs::rename(rt, beside.as_str(), name)),
            Err(stop) => Err(stop),
        };
        if named.is_err() {
            let _ = fs::remove_file(rt, beside.as_str());
        }
        named
    }
}

/// How many bytes of a name stand in the name beside it: all, but of a long last part only its beginning.
fn kept_length(name: &str) -> usize {
    let bytes = name.as_bytes();
    let last = match bytes.iter().rposition(|byte| *byte == b'/') {
        Some(slash) => slash.saturating_add(1),
        None => 0,
    };
    let mut length = bytes.len().min(last.saturating_add(MOST_BYTES));
    for _ in 0..3 {
        if !name.is_char_boundary(length) {
            length = length.saturating_sub(1);
        }
    }
    length
}

/// A name beside this one.
fn beside(rt: &HostRuntime, name: &str, number: u32) -> Result<String, ExitError> {
    let kept = name.get(..kept_length(name)).unwrap_or(name);
    match format!(in rt.alloc(); "{kept}.part{number}") {
        Ok(beside) => Ok(beside),
        Err(_) => Err(ExitError::Memory),
    }
}
