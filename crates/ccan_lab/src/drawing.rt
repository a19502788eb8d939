//! The question `ccan-lab draw`: its words, and the picture.
ghost use Rattle.std.specs.Prelude.{◌≡◌, [], codes};
ghost use Rattle.std.specs.Option.{option_map};
ghost use Rattle.clap.specs.Words.{first_value, found_of, one_text};
ghost use Rattle.ccan_outcomes.specs.RaceScript.{fields_of};
ghost use Rattle.ccan_lab.specs.Question.{AsksFramesBy, IsChosenBy, IsGivenBy};
ghost use Rattle.ccan_lab.specs.Telling.{CanBeTold};

use crate::command_words::{command, file, number, switch, with};
use crate::explaining::print_text;
use crate::history_form::HistoryForm;
use crate::input::{bytes_asked, script_in, searched_script};
use crate::lab_error::LabError;
use crate::outcome_rows::picture_of_history;
use crate::outcome_words::OutcomeList;
use crate::outcomes::most_of;
use crate::progress_line::ProgressLine;
use crate::telling::{Query, Telling, history_to, list_asked};
use ccan_explain::draw::{Picture, picture_of_run, svg_of};
use ccan_explain::tell;
use ccan_script::Script;
use ccan_search::Progress;
use clap::{Arg, ArgMatches, Command};
use std::alloc::{AllocError, Global};
use std::fs::Files;
use std::io::Input;

/// What is asked of a picture.
#[derive(Clone, Copy)]
pub struct DrawQuestion<'a> {
    /// The number of the outcome, from 1. None: the run in the script's order.
    pub outcome: Option<usize>,
    /// How many states the search keeps at most, and how many nodes the words of the outcomes have, if one is asked for. If the
    /// script needs more, nothing is drawn.
    pub most: usize,
    /// Whether the outcome is one of those that are told apart by the frames that won the bus.
    pub frames: bool,
    /// The file of the script: `None` or `-` means standard input.
    pub file: Option<&'a str>,
}

/// The option that the number of an outcome is given by.
fn outcome_option<'a>(alloc: Global) -> Arg<'a> {
    let help = "Draw a history of outcome N of outcomes --all; exit status 9 where there is none";
    number(alloc, "outcome", help)
}

/// The option that a number of states is given by, if an outcome is asked for.
fn most_option<'a>(alloc: Global) -> Result<Arg<'a>, AllocError> {
    let help = "How many states and nodes to keep at most [default: 1000000]";
    number(alloc, "most", help).requires_arg("outcome")
}

/// The flag that asks for the outcomes with frames, if an outcome is asked for.
fn frames_option<'a>(alloc: Global) -> Result<Arg<'a>, AllocError> {
    let help = "Number the outcomes as outcomes --all --frames does";
    switch(alloc, "frames", help).requires_arg("outcome")
}

/// The command that draws a run.
pub fn draw_command<'a>(alloc: Global) -> Result<Command<'a>, AllocError> {
    let drawn = command(
        alloc,
        "draw",
        "Draws one picture of a run of a script in its order, as SVG",
    );
    let drawn = with(drawn, outcome_option(alloc))?;
    let drawn = with(drawn, most_option(alloc)?)?;
    let drawn = with(drawn, frames_option(alloc)?)?;
    with(
        drawn,
        file(alloc, "FILE", "The script; left out or -: standard input"),
    )
}

/// The number of the outcome that is to be drawn, if one is given.
fn outcome_of(words: &ArgMatches<'_>) -> Option<usize>
    ensures { IsChosenBy (one_text (found_of words.now) (codes "outcome")) result }
{
    words.get_one::<usize>("outcome")
}

/// The question that the words after `draw` ask.
pub fn draw_question<'a>(words: &ArgMatches<'a>) -> DrawQuestion<'a>
    ensures outcome { IsChosenBy
        (one_text (found_of words.entry.now) (codes "outcome")) result.outcome }
    ensures most { IsGivenBy (one_text (found_of words.entry.now) (codes "most")) result.most }
    ensures frames { AsksFramesBy
        (one_text (found_of words.entry.now) (codes "frames")) [] result.frames }
    ensures file { option_map (λ path. path.now) result.file
        ≡ first_value (found_of words.entry.now) (codes "file") }
{
    DrawQuestion {
        outcome: outcome_of(words),
        most: most_of(words),
        frames: words.get_flag("frames"),
        file: words.get_str("file"),
    }
}

/// The picture of a history of the outcome of this number, from 1.
fn numbered_drawn<P: Progress>(
    alloc: Global,
    telling: &Telling<'_, P>,
    number: usize,
) -> Result<Picture, LabError>
    requires { CanBeTold (fields_of telling.now.query.now.race.now) telling.now.list.now }
{
    let words = &telling.list.words;
    let none = LabError::NoOutcome(number, words.count() as usize);
    let Some(place) = number.checked_sub(1) else {
        return Err(none);
    };
    let Some(ending) = words.ending(alloc, place as u64)? else {
        return Err(none);
    };
    let history = history_to(alloc, telling, place)?;
    Ok(picture_of_history(alloc, telling.query.race, &history, &ending)?)
}

/// The picture of a history of the outcome of this number, from 1, of these, which are dropped.
fn listed_drawn<P: Progress>(
    alloc: Global,
    query: &Query<'_, P>,
    list: OutcomeList,
    number: usize,
) -> Result<Picture, LabError>
    requires { CanBeTold (fields_of query.now.race.now) list }
{
    let telling = Telling { query, list: &list };
    numbered_drawn(alloc, &telling, number)
}

/// The picture of a history of the outcome of this number, from 1, as `ccan-lab outcomes --all` lists it.
fn outcome_drawn<P: Progress>(
    alloc: Global,
    query: &Query<'_, P>,
    number: usize,
) -> Result<Picture, LabError> {
    let list = list_asked(alloc, query)?;
    listed_drawn(alloc, query, list, number)
}

/// The picture of the run in the script's order.
fn run_drawn(alloc: Global, script: &Script) -> Result<Picture, AllocError> {
    let told = tell(alloc, script)?;
    picture_of_run(alloc, script, &told)
}

/// The picture of a history of the outcome of this number, from 1, of the race in these bytes.
fn race_drawn<P: Progress>(
    alloc: Global,
    bytes: &[u8],
    question: &DrawQuestion<'_>,
    number: usize,
    progress: &P,
) -> Result<Picture, LabError> {
    let race = searched_script(alloc, bytes)?;
    let query = Query {
        race: &race,
        frames: question.frames,
        most: question.most,
        progress,
        form: HistoryForm::EachStep,
    };
    outcome_drawn(alloc, &query, number)
}

/// The picture that is asked for of the script in these bytes.
fn drawn<P: Progress>(
    alloc: Global,
    bytes: &[u8],
    question: &DrawQuestion<'_>,
    progress: &P,
) -> Result<Picture, LabError> {
    match question.outcome {
        Some(number) => race_drawn(alloc, bytes, question, number, progress),
        None => {
            let script = script_in(alloc, bytes)?;
            Ok(run_drawn(alloc, &script)?)
        }
    }
}

/// Draws what is asked, and prints it. On a terminal it shows how far a search for the outcome is.
pub fn answer_draw<T: AllocGlobal + Input + Files + Print + Eprint>(
    rt: &T,
    question: &DrawQuestion<'_>,
    progress: &ProgressLine<'_, T>,
) -> Result<(), LabError> {
    let bytes = bytes_asked(rt, question.file)?;
    let made = drawn(rt.alloc(), bytes.as_slice(), question, progress);
    progress.clear();
    let picture = made?;
    let text = svg_of(rt.alloc(), &picture)?;
    print_text(rt, text.as_str())
}
