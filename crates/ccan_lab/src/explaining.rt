//! The questions about one run of a script in its order: what each line came to, and the frames on its bus; and the way back,
//! from a log of a bus to a script.
ghost use Rattle.std.specs.Prelude.{◌≡◌, IfOk, codes, map, option_map};
ghost use Rattle.clap.specs.Words.{found_of, matched_of, raw_values};
ghost use Rattle.ccan_lab.specs.Question.{files_named};

use crate::command_words::{apart_from, command, file, files_named, scripts, switch, with};
use crate::each_file::{FileAnswer, answer_each};
use crate::input::{script_asked, tell_terminal};
use crate::lab_error::LabError;
use ccan_explain::{FromLog, LogError, json_of, log_of, script_of_log, tell, text_of};
use ccan_run::RunError;
use ccan_script::Script;
use clap::error::ErrorKind as WordsFault;
use clap::{Arg, ArgMatches, Command, Error};
use std::alloc::{AllocError, Global};
use std::fs::Files;
use std::io::{ErrorKind, Input, IsTerminal, Read, Write};
use std::{fs, io};

/// The form in which a run is explained.
#[derive(Clone, Copy)]
pub enum Form {
    /// Lines for people.
    People,
    /// A JSON object a line.
    Json,
    /// The frames on the bus, as a log of can-utils.
    Candump,
}

/// What is asked about runs of scripts.
#[derive(Drop)]
pub struct ExplainQuestion<'a> {
    /// The form in which a run is explained. Of several scripts it is that for people.
    pub form: Form,
    /// The files: `-` means standard input.
    pub files: Vec<&'a str>,
}

/// The flag that asks for JSON.
fn json_flag<'a>(alloc: Global) -> Result<Arg<'a>, AllocError> {
    apart_from(switch(alloc, "json", "A JSON object a line"), "candump")
}

/// The command that explains a run.
pub fn explain_command<'a>(alloc: Global) -> Result<Command<'a>, AllocError> {
    let told = command(
        alloc,
        "explain",
        "Runs a script in its order and reports each line decoded",
    );
    let told = with(told, json_flag(alloc)?)?;
    let candump = switch(
        alloc,
        "candump",
        "The frames on the bus, as a log of can-utils; the time counts rounds",
    );
    with(with(told, candump)?, scripts(alloc))
}

/// The command that makes a script of a log.
pub fn from_candump_command<'a>(alloc: Global) -> Result<Command<'a>, AllocError> {
    let made = command(
        alloc,
        "from-candump",
        "Makes a script of a log that candump wrote",
    );
    with(
        made,
        file(alloc, "LOG", "The log; left out or -: standard input"),
    )
}

/// The form that the words ask for.
fn form_asked(words: &ArgMatches<'_>) -> Form {
    if words.get_flag("json") {
        Form::Json
    } else if words.get_flag("candump") {
        Form::Candump
    } else {
        Form::People
    }
}

/// What is reported if a form that is for one script is asked of several.
fn one_script_told(alloc: Global, message: &str) -> Result<Error, Error> {
    Ok(explain_command(alloc)?.error(WordsFault::TooManyValues, message)?)
}

/// The question that the words after `explain` ask. Several scripts are explained for people only.
pub fn explain_question<'a>(
    alloc: Global,
    words: &ArgMatches<'a>,
) -> Result<ExplainQuestion<'a>, Error>
    ensures { IfOk result (λ question. map (λ file. file.now) question.files.items
        ≡ files_named (option_map raw_values
        (matched_of (found_of words.entry.now) (codes "file")))) }
{
    let form = form_asked(words);
    let files = files_named(alloc, words)?;
    if 1 < files.len() {
        match form {
            Form::People => {}
            Form::Json => {
                return Err(one_script_told(alloc, "with '--json' there is one script")?);
            }
            Form::Candump => {
                return Err(one_script_told(alloc, "with '--candump' there is one script")?);
            }
        }
    }
    Ok(ExplainQuestion { form, files })
}

/// Writes a text to standard output.
pub fn print_text(rt: &impl Print, text: &str) -> Result<(), LabError> {
    match io::writer(rt).write_all(text.as_bytes()) {
        Ok(()) => Ok(()),
        Err(_) => Err(LabError::Write),
    }
}

/// Runs a script in its order, and explains the run in this form.
fn explained(alloc: Global, script: &Script, form: Form) -> Result<String, AllocError> {
    let told = tell(alloc, script)?;
    match form {
        Form::People => text_of(alloc, script, &told),
        Form::Json => json_of(alloc, script, &told),
        Form::Candump => log_of(alloc, &told),
    }
}

/// Runs the script of a file in its order, and explains the run in this form.
fn explain_file<T: AllocGlobal + Input + Files + Eprint>(
    rt: &T,
    file: &str,
    form: Form,
) -> Result<FileAnswer, LabError>
where
    T::Reader: IsTerminal,
{
    tell_terminal(rt, "a script", Some(file));
    let script = script_asked(rt, Some(file))?;
    let text = explained(rt.alloc(), &script, form)?.into_bytes();
    Ok(FileAnswer { text, status: 0 })
}

/// Runs each script in its order, and prints what explains it, under the name of its file if there are several. Gives the
/// worst exit status.
pub fn answer_explain<T: AllocGlobal + Input + Files + Print + Eprint>(
    rt: &T,
    question: &ExplainQuestion<'_>,
) -> Result<u8, LabError>
where
    T::Reader: IsTerminal,
{
    let files = question.files.as_slice();
    answer_each(rt, &mut io::writer(rt), files, false, |file| {
        explain_file(rt, file, question.form)
    })
}

/// Reads a log up to the first read of 0 bytes.
fn read_log<R: Read>(alloc: Global, reader: &mut R) -> Result<Vec<u8>, LabError> {
    let mut log = Vec::new(alloc);
    match reader.read_to_end(&mut log) {
        Ok(_) => Ok(log),
        Err(error) => match error.kind() {
            ErrorKind::OutOfMemory => Err(LabError::Memory),
            _ => Err(LabError::Input(RunError::Read)),
        },
    }
}

/// Reads the log that was asked about: of standard input, if no file is named.
fn log_asked<T: AllocGlobal + Input + Files>(
    rt: &T,
    file: Option<&str>,
) -> Result<Vec<u8>, LabError> {
    match file {
        None | Some("-") => read_log(rt.alloc(), &mut rt.reader()),
        Some(path) => match fs::open(rt, path) {
            Ok(mut opened) => read_log(rt.alloc(), &mut opened),
            Err(_) => Err(LabError::Open),
        },
    }
}

/// Makes a script of the bytes of a log.
fn script_logged(alloc: Global, log: &[u8]) -> Result<FromLog, LabError> {
    let Ok(text) = str::from_utf8(log) else {
        return Err(LabError::Log);
    };
    match script_of_log(alloc, text) {
        Ok(made) => Ok(made),
        Err(LogError::TooMany) => Err(LabError::Frames),
        Err(LogError::Memory) => Err(LabError::Memory),
    }
}

/// Makes a script of the log, prints it, and reports on standard error the lines that are left out.
pub fn answer_log<T: AllocGlobal + Input + Files + Print + Eprint>(
    rt: &T,
    file: Option<&str>,
) -> Result<(), LabError> {
    let log = log_asked(rt, file)?;
    let made = script_logged(rt.alloc(), log.as_slice())?;
    for (number, why) in made.left_out.as_slice() {
        let _told = eprintln!(rt; "ccan-lab: line {number}: left out, {why}");
    }
    print_text(rt, made.script.as_str())
}
