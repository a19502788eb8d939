ghost use Rattle.std.specs.Prelude.{◌≡◌, [], ◌++◌, OnOk, OnErr, IfErr};
ghost use Rattle.ccan_run.specs.Output.{WritesPart};
ghost use Rattle.ccan_run.specs.Waiting.{AddsText};

use crate::output::write_text;
use crate::run_error::RunError;
use arrayvec::ArrayVec;
use ccan_script::PrintedLine;
use std::io::Write;

/// The most bytes that a printed line has.
const MAX_LINE: usize = 80;

/// The most bytes that wait to be written.
const MOST_WAITING: usize = 65_536;

/// Text that waits to be written, so that many lines go out in one write. It takes no memory from the allocator.
pub(crate) type Waiting = ArrayVec<u8, MOST_WAITING>;

/// Writes out all that waits.
fn write_out<W: Write>(waiting: &mut Waiting, writer: &mut W) -> Result<(), RunError>
    ensures ok { OnOk result (AddsText (W.contents writer.old) (W.contents writer.new)
        waiting.old.items waiting.new.items []) }
    ensures empty { OnOk result (waiting.new.items ≡ []) }
    ensures part { OnErr result (WritesPart (W.contents writer.old) (W.contents writer.new)
        waiting.old.items) }
    ensures fault { IfErr result (λ e. e ≡ RunError.Write) }
{
    write_text(writer, waiting.as_slice())?;
    waiting.clear();
    Ok(())
}

/// Lets a line wait after the rest, which is written out first if there is no room for the line beside it.
pub(crate) fn add_line<W: Write>(
    waiting: &mut Waiting,
    line: &PrintedLine,
    writer: &mut W,
) -> Result<(), RunError>
    ensures ok { OnOk result (AddsText (W.contents writer.old) (W.contents writer.new)
        waiting.old.items waiting.new.items line.now.bytes) }
    ensures part { OnErr result (WritesPart (W.contents writer.old) (W.contents writer.new)
        (waiting.old.items ++ line.now.bytes)) }
    ensures fault { IfErr result (λ e. e ≡ RunError.Write) }
{
    if waiting.remaining_capacity() < MAX_LINE {
        write_out(waiting, writer)?;
    }
    if waiting
        .try_extend_from_slice(line.as_str().as_bytes())
        .is_err()
    {
        unreachable!();
    }
    Ok(())
}
