//! Files in the numbering of the binary layout.

ghost use Rattle.std.specs.Prelude.{IfOk};
ghost use Rattle.shrink.specs.Ready.{IsReady};

use crate::hashing::shrink;
use crate::shrink_error::ShrinkError;
use graph::AigerFile;
use std::alloc::Global;

/// The file, where its circuit is in the numbering of the binary layout (AIGER 1.9); and else the
/// file of the circuit that structural hashing makes of it, with the same names and comment. It
/// costs the circuit's length.
pub fn ready(alloc: Global, file: AigerFile) -> Result<AigerFile, ShrinkError>
    ensures ready { IfOk result (IsReady file) }
{
    if file.model().is_ordered() {
        return Ok(file);
    }
    let model = shrink(alloc, file.model())?;
    Ok(file.with_model(model))
}
