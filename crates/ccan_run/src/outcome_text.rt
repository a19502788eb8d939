ghost use Rattle.std.specs.Prelude.{◌≡◌, ◌++◌, OnOk, OnErr, IfErr};
ghost use Rattle.std.specs.Io.KnownBytes.{Appends};
ghost use Rattle.ccan_run.specs.Ordered.{final_part};
ghost use Rattle.ccan_run.specs.Outcome.{last_lines, outcome_text, port_lines};
ghost use Rattle.ccan_run.specs.Output.{WritesPart};
ghost use Rattle.ccan_run.specs.Waiting.{AddsText};

use crate::outcome::Outcome;
use crate::output::write_text;
use crate::run_error::RunError;
use crate::waiting::{Waiting, add_line};
use ccan_line::LineAnswer;
use ccan_object::{ObjectNo, Record};
use ccan_ram::{Final, PortName};
use ccan_script::{print_final, print_line};
use std::io::Write;

/// Lets a line wait for each answer of a port.
fn add_answers<W: Write>(
    waiting: &mut Waiting,
    port: PortName,
    answers: &[LineAnswer],
    writer: &mut W,
) -> Result<(), RunError>
    ensures ok { OnOk result (AddsText (W.contents writer.old) (W.contents writer.new)
        waiting.old.items waiting.new.items (port_lines port answers.now)) }
    ensures part { OnErr result (WritesPart (W.contents writer.old) (W.contents writer.new)
        (waiting.old.items ++ port_lines port answers.now)) }
    ensures fault { IfErr result (λ e. e ≡ RunError.Write) }
{
    for answer in answers {
        add_line(waiting, &print_line(port, answer), writer)?;
    }
    Ok(())
}

/// Lets the line of an object wait, if it has one.
fn add_final<W: Write>(
    waiting: &mut Waiting,
    object: ObjectNo,
    left: &Record,
    writer: &mut W,
) -> Result<(), RunError>
    ensures ok { OnOk result (AddsText (W.contents writer.old) (W.contents writer.new)
        waiting.old.items waiting.new.items (final_part object left.now)) }
    ensures part { OnErr result (WritesPart (W.contents writer.old) (W.contents writer.new)
        (waiting.old.items ++ final_part object left.now)) }
    ensures fault { IfErr result (λ e. e ≡ RunError.Write) }
{
    match print_final(object, left) {
        Some(line) => add_line(waiting, &line, writer),
        None => Ok(()),
    }
}

/// Lets the lines of the objects wait, in rising order.
fn add_finals<W: Write>(waiting: &mut Waiting, last: &Final, writer: &mut W) -> Result<(), RunError>
    ensures ok { OnOk result (AddsText (W.contents writer.old) (W.contents writer.new)
        waiting.old.items waiting.new.items (last_lines last.now)) }
    ensures part { OnErr result (WritesPart (W.contents writer.old) (W.contents writer.new)
        (waiting.old.items ++ last_lines last.now)) }
    ensures fault { IfErr result (λ e. e ≡ RunError.Write) }
{
    for number in 1..last.profile.objects() + 1 {
        let object = ObjectNo::new(number).unwrap();
        add_final(
            waiting,
            object,
            &last.records[usize::from(number) - 1],
            writer,
        )?;
    }
    Ok(())
}

/// Writes what waits, and then the lines of the objects.
pub(crate) fn print_finals<W: Write>(
    waiting: &mut Waiting,
    last: &Final,
    writer: &mut W,
) -> Result<(), RunError>
    ensures ok { OnOk result (Appends (W.contents writer.old) (W.contents writer.new)
        (waiting.old.items ++ last_lines last.now)) }
    ensures part { OnErr result (WritesPart (W.contents writer.old) (W.contents writer.new)
        (waiting.old.items ++ last_lines last.now)) }
    ensures fault { IfErr result (λ e. e ≡ RunError.Write) }
{
    add_finals(waiting, last, writer)?;
    write_text(writer, waiting.as_slice())
}

/// Writes the answers of IF1, of IF2 and of the bus, and then the objects at the end.
///
/// It takes no memory from the allocator. Lines are gathered on the stack and go out many at a time: if the writer takes
/// all that it is given, there is at most one `write` for each 65,457 bytes of the text, and one for the rest. After a
/// failed write, what was written is a prefix of the text.
pub fn print_outcome<W: Write>(outcome: &Outcome, writer: &mut W) -> Result<(), RunError>
    ensures ok { OnOk result
        (Appends (W.contents writer.old) (W.contents writer.new) (outcome_text outcome.now)) }
    ensures part { OnErr result
        (WritesPart (W.contents writer.old) (W.contents writer.new) (outcome_text outcome.now)) }
    ensures fault { IfErr result (λ e. e ≡ RunError.Write) }
{
    let mut waiting = Waiting::new();
    add_answers(&mut waiting, PortName::If1, &outcome.if1, writer)?;
    add_answers(&mut waiting, PortName::If2, &outcome.if2, writer)?;
    add_answers(&mut waiting, PortName::Bus, &outcome.bus, writer)?;
    print_finals(&mut waiting, &outcome.last, writer)
}
