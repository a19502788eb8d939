ghost use Rattle.std.specs.Prelude.{IfOk, IfErr};
ghost use Rattle.ccan_line.specs.Script.{fields_of};
ghost use Rattle.ccan_run.specs.Input.{InputShows, ReadsWhole, RefusesInput, StopsInput};

use crate::run_error::RunError;
use ccan_line::Script;
use ccan_script::read_script;
use std::alloc::Global;
use std::io::Read;

/// The most bytes that the input may have.
pub const MAX_INPUT: usize = 4_194_304;

/// Reads up to the first read of 0 bytes. Each error of a read is a fault, even one of kind Interrupted.
pub fn read_all<R: Read>(alloc: Global, reader: &mut R) -> Result<Vec<u8>, RunError>
    ensures whole { IfOk result (λ input.
        ReadsWhole (R.remaining reader.old) (R.remaining reader.new) input.items) }
    ensures fault { IfErr result (RefusesInput (R.remaining reader.old)) }
{
    let mut input = Vec::new(alloc);
    let mut buffer = [0u8; 4096];
    loop {
        let Ok(count) = reader.read(&mut buffer) else {
            return Err(RunError::Read);
        };
        if count == 0 {
            return Ok(input);
        }
        if MAX_INPUT - input.len() < count {
            return Err(RunError::TooLong);
        }
        input.extend_from_slice(&buffer[..count])?;
    }
}

/// Reads all input, which ends at the first read of 0 bytes, and then the script that it is.
pub fn read_input<R: Read>(alloc: Global, reader: &mut R) -> Result<Script, RunError>
    ensures ok { IfOk result (λ script.
        InputShows (R.remaining reader.old) (R.remaining reader.new) (fields_of script)) }
    ensures err { IfErr result (StopsInput (R.remaining reader.old) (R.remaining reader.new)) }
{
    let input = read_all(alloc, reader)?;
    let script = read_script(alloc, &input)?;
    Ok(script)
}
