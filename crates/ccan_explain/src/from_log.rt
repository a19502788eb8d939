//! A script of a log: a round for each frame, which node 1 sends.
use crate::json_members::push_frame;
use crate::log_line::{LeftOut, read_line};
use ccan_accept::Frame;
use ccan_script::MAX_LINES;
use std::alloc::{AllocError, Global};
use thiserror::Error;

/// A script that was made of a log.
#[derive(Drop)]
pub struct FromLog {
    /// The script.
    pub script: String,
    /// The lines that gave no frame, each by its number from 1.
    pub left_out: Vec<(usize, LeftOut)>,
}

/// Why a log gives no script.
#[derive(Clone, Copy, PartialEq, Eq, Debug, Error)]
pub enum LogError {
    /// It has more frames than a script may have lines.
    #[error("more than 2000 frames")]
    TooMany,
    /// Memory ran out.
    #[error("out of memory")]
    Memory,
}

impl From<AllocError> for LogError {
    ghost use Rattle.std.specs.Prelude.{◌≡◌};
    ghost use Rattle.ccan_explain.specs.declared.from_log.LogError.TheVariants.{Memory};

    ghost from_gives = { λ _ e. e ≡ Memory };

    fn from(_refused: AllocError) -> LogError {
        LogError::Memory
    }
}

/// Appends the line of a round in which node 1 sends this frame.
fn push_round(text: &mut String, is_first: bool, frame: &Frame) -> Result<(), AllocError> {
    text.push_str(if is_first { "\n" } else { ",\n" })?;
    text.push_str("{\"op\":\"round\",\"send\":[")?;
    push_frame(text, 1, frame)?;
    text.push_str("]}")
}

/// The script of a log that can-utils wrote: the frames in their order, each in a round of its own.
pub fn script_of_log(alloc: Global, log: &str) -> Result<FromLog, LogError> {
    let mut script = String::from_str(alloc, "{\"nodes\":1,\"bus\":[")?;
    let mut left_out = Vec::new(alloc);
    let mut left = MAX_LINES;
    let mut number = 0usize;
    for line in log.lines() {
        number = number.saturating_add(1);
        match read_line(line) {
            None => {}
            Some(Err(why)) => left_out.push((number, why)).map_err(AllocError::from)?,
            Some(Ok(frame)) => {
                if left == 0 {
                    return Err(LogError::TooMany);
                }
                push_round(&mut script, left == MAX_LINES, &frame)?;
                left -= 1;
            }
        }
    }
    script.push_str("\n]}\n")?;
    Ok(FromLog { script, left_out })
}
