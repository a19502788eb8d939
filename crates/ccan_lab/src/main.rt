//! Answers questions about scripts, by what is proved of the model.
//!
//! `ccan-lab outcomes` goes through every outcome that a script can have when its two hosts and its bus run at once. It
//! shows what each line may be; with `--all` each outcome and a history that leads to it, with `--json` the same as JSON, and
//! with `--observe NAMES` only those that can be told apart by some lines and objects; with `--can LINE` and `--never LINE`
//! whether an outcome has a line that begins so, or, given several times, whether one has all these lines. With `--brief`
//! histories have few lines. `ccan-lab count` counts the outcomes and lists none.
//! `ccan-lab check` reports the faults of scripts, of each line the first, each with its file, line and column, and with
//! `--expect TEXT` the first line of a run that is not as expected.
//! `ccan-lab explain` runs a script in its order and decodes each line, and `ccan-lab from-candump` makes a script of a log
//! of a bus.
//! `ccan-lab draw` draws one picture of a run, or of a history of one of the outcomes. `ccan-lab page` writes a page to step
//! through each outcome, or through a run.
//!
//! Outcomes, checks and runs are asked of several scripts as well as of one: each is answered in turn, and the exit status is the
//! worst.
//!
//! The exit status is 0 if it is as asked, and 6 if no outcome has the lines of `--can`, or one has those of `--never`. A check
//! ends with 1 if a script has faults, and else with 7 if there are warnings and `--strict` asks for that, and with 8 if a run is
//! not as expected. A fault is reported on standard error, and by the exit status: 1 if the script or the log is refused, 2 if
//! the words of the command line ask no question or search for a line that no printed line can begin with, 3 if memory ran out, 4
//! if a stream or a file failed, 5 if the ports can come to more states, or the outcomes need more nodes, than were allowed, 9 if
//! there is no outcome of the number that is to be drawn.
#![tactic(auto)]

pub mod answer;
pub mod asked;
pub mod beginnings;
pub mod brief;
mod bus_forms;
pub mod check_command;
pub mod check_end;
pub mod choices;
pub mod command_words;
pub mod counting;
pub mod drawing;
pub mod each_file;
pub mod each_list;
pub mod expect;
pub mod explaining;
mod forms;
pub mod history;
pub mod history_form;
pub mod input;
pub mod lab_error;
pub mod laws;
pub mod line_search;
pub mod line_search_apart;
pub mod line_signs;
pub mod list_end;
pub mod moved;
pub mod observed;
pub mod outcome_rows;
pub mod outcome_words;
pub mod outcomes;
pub mod outcomes_json;
pub mod paging;
pub mod place;
pub mod progress_line;
pub mod question;
pub mod replay;
pub mod report;
pub mod rows;
pub mod seen;
pub mod shown_texts;
pub mod summary;
mod telling;
pub mod wording;

use crate::check_command::answer_check;
use crate::counting::answer_count;
use crate::drawing::answer_draw;
use crate::explaining::{answer_explain, answer_log};
use crate::input::tell_terminal;
use crate::lab_error::LabError;
use crate::outcomes::answer_outcomes;
use crate::paging::answer_page;
use crate::progress_line::ProgressLine;
use crate::question::{Question, question_asked};
use clap::error::ErrorKind;
use std::alloc::AllocError;
use std::env::Env;
use std::fs::Files;
use std::io::{Input, IsTerminal};
use std::process::ExitCode;
use std::{env, io};

/// Says on standard error what a question about one file waits for, if that comes from a terminal. The others say so themselves.
fn tell_waiting<T: Input + Eprint>(rt: &T, question: &Question<'_>)
where
    T::Reader: IsTerminal,
{
    match question {
        Question::Draw(question) => tell_terminal(rt, "a script", question.file),
        Question::Page(question) => tell_terminal(rt, "a script", question.file),
        Question::FromCandump(file) => tell_terminal(rt, "a log", *file),
        Question::Outcomes(_) | Question::Count(_) | Question::Check(_) | Question::Explain(_) => {}
    }
}

/// The exit status if all was answered.
fn status_told(_told: ()) -> u8 {
    0
}

/// Answers a question, and gives the exit status. A long search shows on a terminal how far it is.
fn answer_question<T: AllocGlobal + Input + Files + Print + Eprint>(
    rt: &T,
    question: &Question<'_>,
    progress: &ProgressLine<'_, T>,
) -> Result<u8, LabError>
where
    T::Reader: IsTerminal,
{
    let mut writer = io::writer(rt);
    match question {
        Question::Outcomes(question) => answer_outcomes(rt, &mut writer, question, progress),
        Question::Count(question) => answer_count(rt, &mut writer, question, progress),
        Question::Check(question) => answer_check(rt, question),
        Question::Explain(question) => answer_explain(rt, question),
        Question::Draw(question) => answer_draw(rt, question, progress).map(status_told),
        Question::Page(question) => answer_page(rt, question, progress).map(status_told),
        Question::FromCandump(file) => answer_log(rt, *file).map(status_told),
    }
}

/// Prints help, the version or a fault of the words.
fn tell_words(rt: &(impl Print + Eprint), error: &clap::Error) -> ExitCode {
    let told = error.print(rt);
    let status = match error.kind() {
        ErrorKind::OutOfMemory => 3,
        _ if error.use_stderr() => 2,
        _ if told.is_err() => 4,
        _ => 0,
    };
    ExitCode::from(status)
}

/// Reports a fault, and gives its exit status.
fn refuse(rt: &impl Eprint, fault: &LabError) -> ExitCode {
    let _told = rt.eprintln(fault);
    ExitCode::from(fault.status())
}

/// The words of the command line, the program's name first.
fn words_given(rt: &(impl Env + AllocGlobal)) -> Result<Vec<String>, LabError> {
    match env::args(rt) {
        Ok(args) => {
            let words: Result<Vec<String>, AllocError> = args.collect(rt.alloc());
            Ok(words?)
        }
        Err(error) => match error.kind() {
            io::ErrorKind::OutOfMemory => Err(LabError::Memory),
            _ => Err(LabError::Words),
        },
    }
}

fn main(rt: HostRuntime) -> ExitCode {
    let words = match words_given(&rt) {
        Ok(words) => words,
        Err(fault) => return refuse(&rt, &fault),
    };
    let question = match question_asked(rt.alloc(), words.as_slice()) {
        Ok(question) => question,
        Err(error) => return tell_words(&rt, &error),
    };
    tell_waiting(&rt, &question);
    let progress = ProgressLine::new(&rt, rt.stderr().is_terminal());
    match answer_question(&rt, &question, &progress) {
        Ok(status) => ExitCode::from(status),
        Err(fault) => refuse(&rt, &fault),
    }
}
