//! The question `ccan-lab page`: its words, and the page.
ghost use Rattle.std.specs.Prelude.{◌≡◌, ◌≤◌, [], IfErr, IfOk, codes, string_bytes};
ghost use Rattle.std.specs.Option.{option_map};
ghost use Rattle.clap.specs.Words.{first_value, found_of, one_text};
ghost use Rattle.ccan_lab.specs.Answered.{IsUnread};
ghost use Rattle.ccan_lab.specs.Paging.{IsKindBy, page_name};
ghost use Rattle.ccan_lab.specs.Question.{AsksFramesBy, IsGivenBy};

mod history_steps;
pub(crate) mod outcome_pages;
mod run_steps;

use crate::command_words::{apart_from, command, file, number, switch, with};
use crate::input::{bytes_asked, race_in, script_in};
use crate::lab_error::LabError;
use crate::outcomes::{frames_flag, most_of};
use crate::paging::outcome_pages::outcomes_page;
use crate::paging::run_steps::run_page;
use crate::progress_line::ProgressLine;
use ccan_page::{LineText, Page, page_of};
use ccan_script::check::{has_member, line_spans};
use ccan_search::Progress;
use clap::error::ErrorKind;
use clap::{Arg, ArgMatches, Command, Error};
use std::alloc::{AllocError, Global};
use std::fs::Files;
use std::io;
use std::io::{Input, Write};

/// How many outcomes a page shows at most if the command line doesn't say.
const DEFAULT_LIMIT: usize = 100;

/// What a page is to show of a script.
#[derive(Clone, Copy)]
pub enum PageKind {
    /// Its run in order if it has an order, and else its outcomes.
    ByOrder,
    /// Its run in order.
    Run,
    /// Its outcomes.
    Outcomes,
}

/// What is asked of a page.
#[derive(Clone, Copy)]
pub struct PageQuestion<'a> {
    /// What it is to show.
    pub kind: PageKind,
    /// How many outcomes it shows at most.
    pub limit: usize,
    /// How many states a search follows at most. If there are more, there is no page.
    pub most: usize,
    /// Whether outcomes are told apart by the frames that won the bus, and show them.
    pub frames: bool,
    /// The file of the script: `None` or `-` means standard input.
    pub file: Option<&'a str>,
}

/// The flag that asks for the run in order.
fn run_flag<'a>(alloc: Global) -> Result<Arg<'a>, AllocError> {
    let help = "Show the run in the script's order, as where the script has an order";
    let run = apart_from(switch(alloc, "run", help), "outcomes")?;
    let run = apart_from(run, "limit")?;
    apart_from(apart_from(run, "most")?, "frames")
}

/// The flag that asks for the outcomes.
fn outcomes_flag<'a>(alloc: Global) -> Arg<'a> {
    let help = "Show the outcomes, also where the script has an order";
    switch(alloc, "outcomes", help)
}

/// The command that writes a page.
pub fn page_command<'a>(alloc: Global) -> Result<Command<'a>, AllocError> {
    let about =
        "Writes a page in HTML to step through each outcome of a script, or through its run in order";
    let paged = command(alloc, "page", about);
    let paged = with(paged, run_flag(alloc)?)?;
    let paged = with(paged, outcomes_flag(alloc))?;
    let limit = number(alloc, "limit", "How many outcomes to show at most, from 1");
    let paged = with(paged, limit.default_value("100"))?;
    let most = number(alloc, "most", "How many states and nodes to keep at most");
    let paged = with(paged, most.default_value("1000000"))?;
    let paged = with(paged, frames_flag(alloc))?;
    with(
        paged,
        file(alloc, "FILE", "The script; left out or -: standard input"),
    )
}

/// What is reported if no outcome is to be shown.
fn no_outcome_shown(alloc: Global) -> Result<Error, Error> {
    let message = "with '--limit <N>' N is at least 1";
    Ok(page_command(alloc)?.error(ErrorKind::ValueValidation, message)?)
}

/// What the words say that a page is to show.
fn kind_asked(words: &ArgMatches<'_>) -> PageKind
    ensures { IsKindBy (one_text (found_of words.now) (codes "run"))
        (one_text (found_of words.now) (codes "outcomes")) result }
{
    if words.get_flag("run") {
        PageKind::Run
    } else if words.get_flag("outcomes") {
        PageKind::Outcomes
    } else {
        PageKind::ByOrder
    }
}

/// How many outcomes a page shows at most: as it is given, or the default.
fn limit_of(words: &ArgMatches<'_>) -> usize
    ensures { IsGivenBy (one_text (found_of words.now) (codes "limit")) result }
{
    words.get_one::<usize>("limit").unwrap_or(DEFAULT_LIMIT)
}

/// The question that the words after `page` ask, if a page is to show at least one outcome.
pub fn page_question<'a>(alloc: Global, words: &ArgMatches<'a>) -> Result<PageQuestion<'a>, Error>
    ensures kind { IfOk result (λ question.
        IsKindBy (one_text (found_of words.entry.now) (codes "run"))
        (one_text (found_of words.entry.now) (codes "outcomes")) question.kind) }
    ensures limit { IfOk result (λ question.
        IsGivenBy (one_text (found_of words.entry.now) (codes "limit")) question.limit) }
    ensures least { IfOk result (λ question. 1 ≤ question.limit) }
    ensures most { IfOk result (λ question.
        IsGivenBy (one_text (found_of words.entry.now) (codes "most")) question.most) }
    ensures frames { IfOk result (λ question. AsksFramesBy
        (one_text (found_of words.entry.now) (codes "frames")) [] question.frames) }
    ensures file { IfOk result (λ question. option_map (λ path. path.now) question.file
        ≡ first_value (found_of words.entry.now) (codes "file")) }
    ensures refused { IfErr result (λ why.
        IsGivenBy (one_text (found_of words.entry.now) (codes "limit")) 0) }
{
    let limit = limit_of(words);
    if limit == 0 {
        return Err(no_outcome_shown(alloc)?);
    }
    Ok(PageQuestion {
        kind: kind_asked(words),
        limit,
        most: most_of(words),
        frames: words.get_flag("frames"),
        file: words.get_str("file"),
    })
}

/// The lines of the list of this name in the text of a script.
fn line_texts<'a>(
    alloc: Global,
    text: &'a [u8],
    name: &str,
) -> Result<Vec<LineText<'a>>, AllocError> {
    let mut lines = Vec::new(alloc);
    for span in line_spans(alloc, text, name)?.as_slice() {
        lines.push(LineText {
            row: span.row,
            text: text.get(span.begin..span.end).unwrap_or(&[]),
        })?;
    }
    Ok(lines)
}

/// A script's text, and the name of its file.
#[derive(Drop)]
pub(crate) struct Source {
    /// The name that a page has for the file.
    pub name: String,
    /// All bytes of the file.
    pub text: Vec<u8>,
}

/// The name that a page has for a file: none for standard input.
fn name_of(alloc: Global, file: Option<&str>) -> Result<String, AllocError>
    ensures { IfOk result (λ name. string_bytes name
        ≡ page_name (option_map (λ path. path.now) file.entry)) }
{
    match file {
        None | Some("-") => Ok(String::new(alloc)),
        Some(path) => String::from_str(alloc, path),
    }
}

/// Reads the script that was asked about.
pub(crate) fn source_asked<T: AllocGlobal + Input + Files>(
    rt: &T,
    file: Option<&str>,
) -> Result<Source, LabError>
    ensures name { IfOk result (λ source. string_bytes source.name
        ≡ page_name (option_map (λ path. path.now) file.entry)) }
    ensures unread { IfErr result IsUnread }
{
    let text = bytes_asked(rt, file)?;
    let name = name_of(rt.alloc(), file)?;
    Ok(Source { name, text })
}

/// A page of this script without an outcome.
pub(crate) fn empty_page<'a>(alloc: Global, source: &'a Source) -> Result<Page<'a>, AllocError>
    ensures { IfOk result (λ page. page.file.now ≡ string_bytes source.now.name) }
{
    let text = source.text.as_slice();
    Ok(Page {
        file: source.name.as_str(),
        count: 0,
        same: String::new(alloc),
        if1: line_texts(alloc, text, "if1")?,
        if2: line_texts(alloc, text, "if2")?,
        bus: line_texts(alloc, text, "bus")?,
        outcomes: Vec::new(alloc),
    })
}

/// Whether a page is to show the run in order.
fn is_run(kind: PageKind, text: &[u8]) -> bool {
    match kind {
        PageKind::Run => true,
        PageKind::Outcomes => false,
        PageKind::ByOrder => has_member(text, "order"),
    }
}

/// The page that is asked of a script with this source.
fn paged<'a, P: Progress>(
    alloc: Global,
    source: &'a Source,
    question: &PageQuestion<'_>,
    progress: &P,
) -> Result<Page<'a>, LabError>
    ensures { IfOk result (λ page. page.file.now ≡ string_bytes source.now.name) }
{
    let page = empty_page(alloc, source)?;
    let text = source.text.as_slice();
    if is_run(question.kind, text) {
        let script = script_in(alloc, text)?;
        Ok(run_page(alloc, &script, page)?)
    } else {
        let race = race_in(alloc, text)?;
        outcomes_page(alloc, race, question, page, progress)
    }
}

/// Writes the page that is asked for. On a terminal it shows how far a search for outcomes is.
pub fn answer_page<T: AllocGlobal + Input + Files + Print + Eprint>(
    rt: &T,
    question: &PageQuestion<'_>,
    progress: &ProgressLine<'_, T>,
) -> Result<(), LabError> {
    let source = source_asked(rt, question.file)?;
    let made = paged(rt.alloc(), &source, question, progress);
    progress.clear();
    let page = made?;
    let text = page_of(rt.alloc(), &page)?;
    match io::writer(rt).write_all(text.as_slice()) {
        Ok(()) => Ok(()),
        Err(_) => Err(LabError::Write),
    }
}
