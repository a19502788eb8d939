//! The question `ccan-lab check`: its words, and its answer.

ghost use Rattle.std.specs.Prelude.{◌≡◌, IfOk, codes, map, option_map, vec_len};
ghost use Rattle.clap.specs.Words.{found_of, matched_of, raw_values};
ghost use Rattle.ccan_lab.specs.CheckCommand.{end_by_counts};
ghost use Rattle.ccan_lab.specs.Question.{files_named};

use crate::check_end::CheckEnd;
use crate::command_words::{command, files_named, option, scripts, switch, with};
use crate::each_file::{FileAnswer, answer_each};
use crate::expect::compare_run;
use crate::explaining::print_text;
use crate::lab_error::LabError;
use ccan_run::{RunError, read_all};
use ccan_script::check::{Report, check_race, print_report};
use ccan_script::read_script;
use clap::error::ErrorKind;
use clap::{ArgMatches, Command, Error};
use std::alloc::{AllocError, Global};
use std::fs::Files;
use std::io::{Input, IsTerminal};
use std::{fs, io};

/// What is asked about scripts: their faults.
#[derive(Drop)]
pub struct CheckQuestion<'a> {
    /// Whether warnings have an exit status of their own.
    pub is_strict: bool,
    /// The file with what a run of the script must print, if that is asked for. There is one script then.
    pub expected: Option<&'a str>,
    /// The files: `-` means standard input.
    pub files: Vec<&'a str>,
}

/// The command that reports the faults of scripts.
pub fn check_command<'a>(alloc: Global) -> Result<Command<'a>, AllocError> {
    let checked = command(
        alloc,
        "check",
        "Reports the faults of scripts, each with its file, line and column",
    );
    let strict = switch(
        alloc,
        "strict",
        "Exit status 7 where there are warnings and no faults",
    );
    let checked = with(checked, strict)?;
    let expected = option(
        alloc,
        "expect",
        "TEXT",
        "The file with what ccan must print of the one script; exit status 8 where it prints another text",
    );
    let checked = with(checked, expected)?;
    with(checked, scripts(alloc))
}

/// What is reported if a text is expected of several scripts.
fn one_script_expected(alloc: Global) -> Result<Error, Error> {
    let message = "with '--expect <TEXT>' there is one script";
    Ok(check_command(alloc)?.error(ErrorKind::TooManyValues, message)?)
}

/// The question that the words after `check` ask. A text is expected of one script only.
pub fn check_question<'a>(alloc: Global, words: &ArgMatches<'a>) -> Result<CheckQuestion<'a>, Error>
    ensures { IfOk result (λ question. map (λ file. file.now) question.files.items
        ≡ files_named (option_map raw_values
        (matched_of (found_of words.entry.now) (codes "file")))) }
{
    let files = files_named(alloc, words)?;
    let expected = words.get_str("expect");
    if expected.is_some() && 1 < files.len() {
        return Err(one_script_expected(alloc)?);
    }
    Ok(CheckQuestion {
        is_strict: words.get_flag("strict"),
        expected,
        files,
    })
}

/// All bytes of the file of this name.
fn bytes_in<T: AllocGlobal + Files>(rt: &T, file: &str) -> Result<Vec<u8>, LabError> {
    match fs::open(rt, file) {
        Ok(mut opened) => read_all(rt.alloc(), &mut opened).map_err(LabError::from),
        Err(_) => Err(LabError::Open),
    }
}

/// All bytes of a file, or for `-` of standard input. If they come from a terminal, a word on standard error says so.
fn bytes_of<T: AllocGlobal + Input + Files + Eprint>(
    rt: &T,
    file: &str,
) -> Result<Vec<u8>, LabError>
where
    T::Reader: IsTerminal,
{
    if file == "-" {
        let mut reader = rt.reader();
        if reader.is_terminal() {
            let _told = rt.eprintln("ccan-lab: reads a script from the terminal, up to Ctrl-D");
        }
        return Ok(read_all(rt.alloc(), &mut reader)?);
    }
    bytes_in(rt, file)
}

/// What came of a check.
fn end_of(report: &Report) -> CheckEnd
    ensures { result
        ≡ end_by_counts (vec_len report.now.faults) (vec_len report.now.warnings) }
{
    if !report.faults.is_empty() {
        CheckEnd::Faulty
    } else if !report.warnings.is_empty() {
        CheckEnd::Warned
    } else {
        CheckEnd::Clean
    }
}

/// What is said of a script in these bytes of a file, and how its check ends.
fn checked(alloc: Global, file: &str, bytes: &[u8]) -> Result<(String, CheckEnd), LabError> {
    let report = check_race(alloc, bytes)?;
    let text = print_report(alloc, file, bytes, &report)?;
    Ok((text, end_of(&report)))
}

/// Runs the script that these bytes are, and prints the first line that is not as in the file of what is expected. Says
/// whether there is one.
fn has_difference<T: AllocGlobal + Files + Print>(
    rt: &T,
    bytes: &[u8],
    file: &str,
) -> Result<bool, LabError> {
    let script = match read_script(rt.alloc(), bytes) {
        Ok(script) => script,
        Err(refusal) => return Err(LabError::Input(RunError::Script(refusal))),
    };
    let expected = bytes_in(rt, file)?;
    match compare_run(rt.alloc(), &script, file, expected.as_slice())? {
        Some(told) => {
            print_text(rt, told.as_str())?;
            Ok(true)
        }
        None => Ok(false),
    }
}

/// Prints what is said of a file, and of its run, which must print this text.
fn check_expected<T: AllocGlobal + Input + Files + Print + Eprint>(
    rt: &T,
    file: &str,
    expected: &str,
) -> Result<CheckEnd, LabError>
where
    T::Reader: IsTerminal,
{
    let bytes = bytes_of(rt, file)?;
    let (text, end) = checked(rt.alloc(), file, bytes.as_slice())?;
    print_text(rt, text.as_str())?;
    if end == CheckEnd::Faulty {
        return Ok(end);
    }
    let differs = has_difference(rt, bytes.as_slice(), expected)?;
    Ok(if differs { CheckEnd::Differs } else { end })
}

/// What is said of a file.
fn check_file<T: AllocGlobal + Input + Files + Eprint>(
    rt: &T,
    file: &str,
    is_strict: bool,
) -> Result<FileAnswer, LabError>
where
    T::Reader: IsTerminal,
{
    let bytes = bytes_of(rt, file)?;
    let (text, end) = checked(rt.alloc(), file, bytes.as_slice())?;
    Ok(FileAnswer {
        text: text.into_bytes(),
        status: end.status(is_strict),
    })
}

/// Prints what is said of each file, in turn, and gives the worst exit status. Each line that is printed names its file.
pub fn answer_check<T: AllocGlobal + Input + Files + Print + Eprint>(
    rt: &T,
    question: &CheckQuestion<'_>,
) -> Result<u8, LabError>
where
    T::Reader: IsTerminal,
{
    let is_strict = question.is_strict;
    match (question.expected, question.files.as_slice()) {
        (Some(expected), [file]) => { Ok(check_expected(rt, file, expected)?.status(is_strict)) }
        (_, files) => answer_each(rt, &mut io::writer(rt), files, true, |file| {
            check_file(rt, file, is_strict)
        }),
    }
}
