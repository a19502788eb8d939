ghost use Rattle.std.specs.Prelude.{OnOk, IfErr};
ghost use Rattle.ccan_run.specs.Stream.{Runs, StopsStream};

use crate::input::read_input;
use crate::ordered::run_ordered;
use crate::run_error::RunError;
use std::alloc::Global;
use std::io::{Read, Write};

/// Reads a script to the end of the input, runs it in order, and writes its text.
///
/// Before a refusal of the input or the script nothing is written.
pub fn run_stream<R: Read, W: Write>(
    alloc: Global,
    reader: &mut R,
    writer: &mut W,
) -> Result<(), RunError>
    ensures ok { OnOk result (Runs (R.remaining reader.old) (R.remaining reader.new)
        (W.contents writer.old) (W.contents writer.new)) }
    ensures err { IfErr result (StopsStream (R.remaining reader.old) (R.remaining reader.new)
        (W.contents writer.old) (W.contents writer.new)) }
{
    let script = read_input(alloc, reader)?;
    run_ordered(alloc, &script, writer)
}
