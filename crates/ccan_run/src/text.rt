ghost use Rattle.std.specs.Prelude.{◌≡◌, ◌++◌, OnOk, OnErr, IfErr};
ghost use Rattle.std.specs.Io.KnownBytes.{Appends};
ghost use Rattle.ccan_run.specs.Ordered.{answers_text};
ghost use Rattle.ccan_run.specs.Outcome.{last_lines};
ghost use Rattle.ccan_run.specs.Output.{WritesPart};
ghost use Rattle.ccan_run.specs.Waiting.{AddsText};

use crate::outcome_text::print_finals;
use crate::run_error::RunError;
use crate::waiting::{Waiting, add_line};
use ccan_line::LineAnswer;
use ccan_ram::{Final, PortName};
use ccan_script::print_line;
use std::io::Write;

/// Lets a line wait for each answer.
fn add_replies<W: Write>(
    waiting: &mut Waiting,
    answers: &[(PortName, LineAnswer)],
    writer: &mut W,
) -> Result<(), RunError>
    ensures ok { OnOk result (AddsText (W.contents writer.old) (W.contents writer.new)
        waiting.old.items waiting.new.items (answers_text answers.now)) }
    ensures part { OnErr result (WritesPart (W.contents writer.old) (W.contents writer.new)
        (waiting.old.items ++ answers_text answers.now)) }
    ensures fault { IfErr result (λ e. e ≡ RunError.Write) }
{
    for (port, answer) in answers {
        add_line(waiting, &print_line(*port, answer), writer)?;
    }
    Ok(())
}

/// Writes the answers of an ordered run, and then the objects at the end.
///
/// It goes out as an outcome without an order does (`print_outcome`).
pub(crate) fn print_run<W: Write>(
    answers: &[(PortName, LineAnswer)],
    left: &Final,
    writer: &mut W,
) -> Result<(), RunError>
    ensures ok { OnOk result (Appends (W.contents writer.old) (W.contents writer.new)
        (answers_text answers.now ++ last_lines left.now)) }
    ensures part { OnErr result (WritesPart (W.contents writer.old) (W.contents writer.new)
        (answers_text answers.now ++ last_lines left.now)) }
    ensures fault { IfErr result (λ e. e ≡ RunError.Write) }
{
    let mut waiting = Waiting::new();
    add_replies(&mut waiting, answers, writer)?;
    print_finals(&mut waiting, left, writer)
}
