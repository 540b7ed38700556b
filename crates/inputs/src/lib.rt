//! What the programs read: a file by its name, or the standard input, whose name is `-`.
#![tactic(auto)]

ghost use Rattle.std.specs.Prelude.{◌≡◌, ◌↔◌, IsTrue, codes};

use std::fs::File;
use std::io;
use std::io::{Read, Stdin};

/// The name of the standard input, and of the standard output.
const STANDARD: &str = "-";

/// A file, or the standard input. It has no buffer.
#[derive(Drop)]
pub enum Input {
    /// a file that was opened
    File(File),
    /// the standard input
    Standard(Stdin),
}

/// Whether the name is that of the standard input, or of the standard output. A file that is called so is `./-`.
pub fn is_standard(name: &str) -> bool
    ensures { IsTrue result ↔ (name.now ≡ codes "-") }
{
    name == STANDARD
}

/// What the name is of. It fails where there is no such file, or it may not be read.
pub fn open(rt: &HostRuntime, name: &str) -> io::Result<Input> {
    if is_standard(name) {
        return Ok(Input::Standard(rt.stdin()));
    }
    Ok(Input::File(File::open(rt, name)?))
}

impl Read for Input {
    fn read(&mut self, buf: &mut [u8]) -> io::Result<usize> {
        match self {
            Input::File(file) => file.read(buf),
            Input::Standard(input) => input.read(buf),
        }
    }
}
