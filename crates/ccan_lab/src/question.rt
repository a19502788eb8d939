use crate::asked::Asked;
use crate::check_command::{CheckQuestion, check_command, check_question};
use crate::command_words as words;
use crate::command_words::over;
use crate::counting::{CountQuestion, count_command, count_question};
use crate::drawing::{DrawQuestion, draw_command, draw_question};
use crate::explaining::{ExplainQuestion, explain_command, explain_question, from_candump_command};
use crate::history_form::HistoryForm;
use crate::outcomes::{DEFAULT_MOST, OutcomesQuestion, outcomes_command, outcomes_question};
use crate::paging::{PageQuestion, page_command, page_question};
use clap::{Command, Error};
use std::alloc::{AllocError, Global};
use std::convert::AsStr;

/// What the command line asks.
#[derive(Drop)]
pub enum Question<'a> {
    /// About the outcomes of scripts.
    Outcomes(OutcomesQuestion<'a>),
    /// How many outcomes scripts have.
    Count(CountQuestion<'a>),
    /// The faults of scripts.
    Check(CheckQuestion<'a>),
    /// Runs of scripts in their orders.
    Explain(ExplainQuestion<'a>),
    /// A picture of a run.
    Draw(DrawQuestion<'a>),
    /// A page to step through.
    Page(PageQuestion<'a>),
    /// A script of a log. The file: `None` or `-` means standard input.
    FromCandump(Option<&'a str>),
}

/// The command, with the version of the program.
fn versioned<'a>(command: Command<'a>) -> Command<'a> {
    command.version("0.5.0")
}

/// The command line without its questions, and what it is for.
fn program<'a>(alloc: Global) -> Command<'a> {
    let about =
        "Answers questions about scripts of the C_CAN model. Lines of a script are counted from 0, as in jq and in the \
                 faults of ccan";
    versioned(words::command(alloc, "ccan-lab", about))
}

/// The command, which wants one of those under it and has no other that shows help.
fn asking<'a>(command: Command<'a>) -> Command<'a> {
    command
        .subcommand_required(true)
        .disable_help_subcommand(true)
}

/// The command line.
fn command<'a>(alloc: Global) -> Result<Command<'a>, AllocError> {
    let asked = over(asking(program(alloc)), outcomes_command(alloc)?)?;
    let asked = over(asked, count_command(alloc)?)?;
    let asked = over(asked, check_command(alloc)?)?;
    let asked = over(asked, explain_command(alloc)?)?;
    let asked = over(asked, draw_command(alloc)?)?;
    let asked = over(asked, page_command(alloc)?)?;
    over(asked, from_candump_command(alloc)?)
}

/// The question that the words of the command line ask. The first of them is the program's name.
pub fn question_asked<'a, S: AsStr>(alloc: Global, words: &'a [S]) -> Result<Question<'a>, Error> {
    let matches = command(alloc)?.try_get_matches_from(words)?;
    if let Some(words) = matches.subcommand_matches("count") {
        return Ok(Question::Count(count_question(alloc, words)?));
    }
    if let Some(words) = matches.subcommand_matches("check") {
        return Ok(Question::Check(check_question(alloc, words)?));
    }
    if let Some(words) = matches.subcommand_matches("explain") {
        return Ok(Question::Explain(explain_question(alloc, words)?));
    }
    if let Some(words) = matches.subcommand_matches("draw") {
        return Ok(Question::Draw(draw_question(words)));
    }
    if let Some(words) = matches.subcommand_matches("page") {
        return Ok(Question::Page(page_question(alloc, words)?));
    }
    if let Some(words) = matches.subcommand_matches("from-candump") {
        return Ok(Question::FromCandump(words.get_str("file")));
    }
    // The command wants a subcommand and has no other than this one, so the other case doesn't come; it is not proved here.
    let Some(words) = matches.subcommand_matches("outcomes") else {
        return Ok(Question::Outcomes(OutcomesQuestion {
            most: DEFAULT_MOST,
            files: Vec::new(alloc),
            asked: Asked::Summary,
            lines: Vec::new(alloc),
            form: HistoryForm::EachStep,
            frames: false,
        }));
    };
    Ok(Question::Outcomes(outcomes_question(alloc, words)?))
}
