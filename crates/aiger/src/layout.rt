//! The layouts of circuits' files.

ghost use Rattle.std.specs.Prelude.{◌≡◌, ◌+◌, ◌-◌, ◌<◌, ◌^◌, ◌↔◌, Err, OnOk, IsErrOf};
ghost use Rattle.std.specs.Io.KnownBytes.{Appends};
ghost use Rattle.base.specs.Devices.{PutsBeginning};
ghost use Rattle.graph.specs.Circuits.{IsOrdered};
ghost use Rattle.aig.specs.declared.aig_write_error.AigWriteError.TheVariants.{Device, Unordered};
ghost use Rattle.aiger.specs.Written.{layout_of, text_in};
ghost use Rattle.aiger.specs.declared.layout.Layout.TheVariants.{Binary};

use aig::AigWriteError;
use base::Sink;
use graph::AigerFile;

/// A layout of a circuit's file (AIGER 1.9).
#[derive(Clone, Copy)]
pub enum Layout {
    /// a line for each item
    Ascii,
    /// no lines for inputs, and differences of literals for gates
    Binary,
}

impl Layout {
    /// The layout that the ending of a file's name asks for: `.aag` or `.aig`.
    pub fn of_name(name: &str) -> Option<Layout>
        ensures { result ≡ layout_of name.now }
    {
        let name = name.as_bytes();
        if name.ends_with(b".aag") {
            return Some(Layout::Ascii);
        }
        if name.ends_with(b".aig") {
            return Some(Layout::Binary);
        }
        None
    }
}

/// Puts the shortest text of a file in a layout. A file whose circuit is not ordered has none in the
/// binary one, and then nothing is put.
pub fn put_file<W: Sink>(file: &AigerFile, layout: Layout, out: &mut W) -> Result<(), AigWriteError>
    requires { W.failed out.old < 2 ^ 64 - 1 }
    ensures written { OnOk result (Appends (W.contents out.old) (W.contents out.new) (text_in layout file.now)) }
    ensures unordered { (result ≡ Err Unordered) ↔ ((layout ≡ Binary) × (IsOrdered file.now.model → ⊥)) }
    ensures untouched { result ≡ Err Unordered → out.new ≡ out.old }
    ensures beginning { result ≡ Err Device → PutsBeginning (W.contents out.old) (W.contents out.new) (text_in layout file.now) }
    ensures failed { IsErrOf result Device → W.failed out.new ≡ W.failed out.old + 1 }
    ensures kept { (IsErrOf result Device → ⊥) → W.failed out.new ≡ W.failed out.old }
{
    match layout {
        Layout::Ascii => aag::write(file, out)?,
        Layout::Binary => aig::write(file, out)?,
    }
    Ok(())
}
