//! One question about several files: each is answered in turn.
ghost use Rattle.std.specs.Prelude.{◌≡◌, ◌++◌, IfErr, IfOk, OnOk, length, map};
ghost use Rattle.std.specs.Fn.{FnReturnsAt};
ghost use Rattle.std.specs.Io.KnownBytes.{Appends};
ghost use Rattle.ccan_lab.specs.declared.lab_error.LabError.TheVariants as LabError;
ghost use Rattle.ccan_lab.specs.EachFile.{AreAnswered, IsPartOf, badness, has_headings, heading, heading_if, part};
ghost use Rattle.ccan_lab.specs.EachFile.{status_of, worse};

use crate::lab_error::LabError;
use crate::progress_line::ProgressLine;
use std::io::Write;

/// What is answered of a file.
#[derive(Drop)]
pub struct FileAnswer {
    /// What is printed of it.
    pub text: Vec<u8>,
    /// The exit status if it is the only file.
    pub status: u8,
}

/// Writes bytes.
fn write_bytes<W: Write>(writer: &mut W, bytes: &[u8]) -> Result<(), LabError>
    ensures ok { OnOk result (Appends (W.contents writer.old) (W.contents writer.new) bytes.now) }
    ensures fault { IfErr result (λ e. e ≡ LabError.Write) }
{
    match writer.write_all(bytes) {
        Ok(()) => Ok(()),
        Err(_) => Err(LabError::Write),
    }
}

/// Writes a text.
fn write_text<W: Write>(writer: &mut W, text: &str) -> Result<(), LabError>
    ensures ok { OnOk result (Appends (W.contents writer.old) (W.contents writer.new) text.now) }
    ensures fault { IfErr result (λ e. e ≡ LabError.Write) }
{
    write_bytes(writer, text.as_bytes())
}

/// Writes the line above the answer of a file.
fn write_heading<W: Write>(writer: &mut W, name: &str) -> Result<(), LabError>
    ensures ok { OnOk result
        (Appends (W.contents writer.old) (W.contents writer.new) (heading name.now)) }
    ensures fault { IfErr result (λ e. e ≡ LabError.Write) }
{
    write_text(writer, "==> ")?;
    write_text(writer, name)?;
    write_text(writer, " <==\n")
}

/// Writes that line, if there is to be one.
fn write_heading_if<W: Write>(writer: &mut W, is_shown: bool, name: &str) -> Result<(), LabError>
    ensures ok { OnOk result
        (Appends (W.contents writer.old) (W.contents writer.new) (heading_if is_shown name.now)) }
    ensures fault { IfErr result (λ e. e ≡ LabError.Write) }
{
    if is_shown {
        write_heading(writer, name)
    } else {
        Ok(())
    }
}

/// Writes a text below that line.
pub fn write_below<W: Write>(
    writer: &mut W,
    is_shown: bool,
    name: &str,
    text: &str,
) -> Result<(), LabError>
    ensures ok { OnOk result (Appends (W.contents writer.old) (W.contents writer.new)
        (heading_if is_shown name.now ++ text.now)) }
    ensures fault { IfErr result (λ e. e ≡ LabError.Write) }
{
    write_heading_if(writer, is_shown, name)?;
    write_text(writer, text)
}

/// Writes a piece of a list. What a terminal shows of a search is taken away before.
pub fn write_piece<T: Eprint, W: Write>(
    writer: &mut W,
    progress: &ProgressLine<'_, T>,
    text: &str,
) -> Result<(), LabError>
    ensures ok { OnOk result (Appends (W.contents writer.old) (W.contents writer.new) text.now) }
    ensures fault { IfErr result (λ e. e ≡ LabError.Write) }
{
    progress.clear();
    write_text(writer, text)
}

/// Writes what is answered of a file, and nothing if it is refused.
fn write_answer<W: Write>(
    writer: &mut W,
    is_shown: bool,
    name: &str,
    answered: &Result<FileAnswer, LabError>,
) -> Result<(), LabError>
    ensures ok { OnOk result (Appends (W.contents writer.old) (W.contents writer.new)
        (part is_shown name.now answered.now)) }
    ensures fault { IfErr result (λ e. e ≡ LabError.Write) }
{
    match answered {
        Ok(answer) => {
            write_heading_if(writer, is_shown, name)?;
            write_bytes(writer, answer.text.as_slice())
        }
        Err(_) => Ok(()),
    }
}

/// Reports a fault of a file on standard error, and of which file if there are several.
pub fn tell_fault<T: Eprint>(rt: &T, are_several: bool, name: &str, fault: &LabError) {
    let _told = if are_several {
        eprintln!(rt; "{name}: {fault}")
    } else {
        rt.eprintln(fault)
    };
}

/// Reports on standard error why a file is refused, and which if there are several.
fn tell_refusal<T: Eprint>(
    rt: &T,
    are_several: bool,
    name: &str,
    answered: &Result<FileAnswer, LabError>,
) {
    if let Err(fault) = answered {
        tell_fault(rt, are_several, name, fault);
    }
}

/// The exit status if it is the only file.
fn status_of(answered: &Result<FileAnswer, LabError>) -> u8
    ensures { result ≡ status_of answered.now }
{
    match answered {
        Ok(answer) => answer.status,
        Err(fault) => fault.status(),
    }
}

/// How bad an exit status is: 1 to 5 are worse than any other.
fn badness(status: u8) -> u16
    ensures { result ≡ badness status }
{
    if 0 < status && status < 6 {
        256 + u16::from(status)
    } else {
        u16::from(status)
    }
}

/// The worse of two exit statuses.
pub fn worse(one: u8, other: u8) -> u8
    ensures { result ≡ worse one other }
{
    if badness(one) < badness(other) {
        other
    } else {
        one
    }
}

/// Whether the answers have headings: if there are several files, and the lines of an answer don't name its file.
pub fn has_headings(are_named: bool, files: usize) -> bool
    ensures { result ≡ has_headings are_named files }
{
    !are_named && 1 < files
}

/// Asks about each file in turn, with a heading above each answer if there is to be one, and gives the worst exit status.
fn answer_in_turn<T: Eprint, W: Write, F: Fn(&str) -> Result<FileAnswer, LabError>>(
    rt: &T,
    writer: &mut W,
    files: &[&str],
    is_shown: bool,
    answer: F,
) -> Result<u8, LabError>
    requires { F.IsAlwaysCallable answer }
    ensures answered { IfOk result (λ status. AreAnswered
        (IsPartOf (FnReturnsAt F.Fn answer) is_shown)
        (map (λ file. file.now) files.now) (W.contents writer.old) (W.contents writer.new) status) }
    ensures fault { IfErr result (λ e. e ≡ LabError.Write) }
{
    let mut worst = 0;
    for file in files {
        let answered = answer(file);
        write_answer(writer, is_shown, file, &answered)?;
        tell_refusal(rt, 1 < files.len(), file, &answered);
        worst = worse(worst, status_of(&answered));
    }
    Ok(worst)
}

/// Asks about each file in turn, and writes the answer before the next is asked about. Gives the worst exit status.
///
/// If there are several files, each answer is below the name of its file, unless its lines name it. Of a file that is refused
/// nothing is written, and standard error says why. After a failed write no file is asked about any more.
pub fn answer_each<T: Eprint, W: Write, F: Fn(&str) -> Result<FileAnswer, LabError>>(
    rt: &T,
    writer: &mut W,
    files: &[&str],
    are_named: bool,
    answer: F,
) -> Result<u8, LabError>
    requires { F.IsAlwaysCallable answer }
    ensures answered { IfOk result (λ status. AreAnswered
        (IsPartOf (FnReturnsAt F.Fn answer) (has_headings are_named (length files.now)))
        (map (λ file. file.now) files.now) (W.contents writer.old) (W.contents writer.new) status) }
    ensures fault { IfErr result (λ e. e ≡ LabError.Write) }
{
    let is_shown = has_headings(are_named, files.len());
    answer_in_turn(rt, writer, files, is_shown, answer)
}
