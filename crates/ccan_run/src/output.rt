ghost use Rattle.std.specs.Prelude.{◌≡◌, OnOk, OnErr, IfErr};
ghost use Rattle.std.specs.Io.KnownBytes.{Appends};
ghost use Rattle.ccan_run.specs.Output.{WritesPart};

use crate::run_error::RunError;
use std::io::Write;

/// Writes the whole text. A write of 0 bytes is a fault, and so is each error of a write, even one of kind Interrupted.
pub(crate) fn write_text<W: Write>(writer: &mut W, text: &[u8]) -> Result<(), RunError>
    ensures ok { OnOk result
        (Appends (W.contents writer.old) (W.contents writer.new) text.now) }
    ensures part { OnErr result
        (WritesPart (W.contents writer.old) (W.contents writer.new) text.now) }
    ensures fault { IfErr result (λ e. e ≡ RunError.Write) }
{
    let mut written = 0;
    while written < text.len() {
        match writer.write(&text[written..]) {
            Ok(0) => return Err(RunError::Write),
            Ok(count) => written += count,
            Err(_) => return Err(RunError::Write),
        }
    }
    Ok(())
}
