//! The question `ccan-lab count`: its words, and its answer.

ghost use Rattle.std.specs.Prelude.{◌≡◌, [], IfErr, IfOk, codes, false, length, map, option_map, string_bytes};
ghost use Rattle.clap.specs.Words.{found_of, matched_of, one_text, raw_values};
ghost use Rattle.ccan_outcomes.specs.RaceScript.{fields_of};
ghost use Rattle.ccan_lab.specs.declared.lab_error.LabError.TheVariants as LabError;
ghost use Rattle.ccan_lab.specs.Answered.{AnswersCount, IsCounted, RefusesCount};
ghost use Rattle.ccan_lab.specs.Counting.{IsCount, TellsCount, count_text};
ghost use Rattle.ccan_lab.specs.EachFile.{AreAnswered, IsPartOf, has_headings};
ghost use Rattle.ccan_lab.specs.Question.{AsksFramesBy, IsGivenBy, files_named};
ghost use Rattle.ccan_lab.specs.Words.{HasNoWords};

use crate::command_words::{command, files_named, scripts, with};
use crate::each_file::{FileAnswer, answer_each};
use crate::input::{bytes_asked, searched_script, tell_terminal};
use crate::lab_error::LabError;
use crate::outcome_words::list_of;
use crate::outcomes::{frames_flag, most_of, most_option};
use crate::progress_line::ProgressLine;
use crate::wording::add_counted;
use ccan_outcomes::Ending;
use ccan_outcomes::all_ports::AllPorts;
use ccan_script::RaceScript;
use ccan_search::Progress;
use clap::{ArgMatches, Command};
use std::alloc::{AllocError, Global};
use std::fs::Files;
use std::io::{Input, IsTerminal, Write};
use std::mem;

/// The scripts whose outcomes are counted.
#[derive(Drop)]
pub struct CountQuestion<'a> {
    /// How many states the search keeps at most, and how many nodes the words of the outcomes have. If a script needs more, it is
    /// not counted.
    pub most: usize,
    /// The files: `-` means standard input.
    pub files: Vec<&'a str>,
    /// Whether outcomes are told apart by the frames that won the bus.
    pub frames: bool,
}

/// The command that counts outcomes.
pub fn count_command<'a>(alloc: Global) -> Result<Command<'a>, AllocError> {
    let about = "Counts the outcomes of scripts and lists none";
    let counted = with(command(alloc, "count", about), most_option(alloc))?;
    let counted = with(counted, frames_flag(alloc))?;
    with(counted, scripts(alloc))
}

/// The question that the words after `count` ask.
pub fn count_question<'a>(
    alloc: Global,
    words: &ArgMatches<'a>,
) -> Result<CountQuestion<'a>, AllocError>
    ensures most { IfOk result (λ question.
        IsGivenBy (one_text (found_of words.entry.now) (codes "most")) question.most) }
    ensures frames { IfOk result (λ question. AsksFramesBy
        (one_text (found_of words.entry.now) (codes "frames")) [] question.frames) }
    ensures files { IfOk result (λ question. map (λ file. file.now) question.files.items
        ≡ files_named (option_map raw_values
        (matched_of (found_of words.entry.now) (codes "file")))) }
{
    Ok(CountQuestion {
        most: most_of(words),
        files: files_named(alloc, words)?,
        frames: words.get_flag("frames"),
    })
}

/// The line with a number of outcomes.
pub fn count_text(alloc: Global, number: u64) -> Result<String, AllocError>
    ensures { IfOk result (λ text. string_bytes text ≡ count_text number) }
{
    let mut text = String::new(alloc);
    if number == u64::MAX {
        text.push_str("at least ")?;
    }
    add_counted(&mut text, number as usize, "outcome")?;
    text.push_str("\n")?;
    Ok(text)
}

/// How many outcomes a script has. If it is the only one, the memory is not given back piece by piece: the end of the program does
/// that at once.
fn outcome_count<P: Progress>(
    alloc: Global,
    race: &RaceScript,
    frames: bool,
    most: usize,
    is_only: bool,
    progress: &P,
) -> Result<u64, LabError>
    ensures count { IfOk result
        (IsCount frames (fields_of race.now) ⟦<Ending as PartialEq>⟧.eq) }
    ensures without { IfErr result
        (HasNoWords frames (fields_of race.now) ⟦<AllPorts as PartialEq>⟧.eq most) }
{
    let list = list_of(alloc, race, frames, most, progress)?;
    let count = list.words.count();
    if is_only {
        mem::forget(list);
    }
    Ok(count)
}

/// The line with the number of outcomes of a script.
fn counted<P: Progress>(
    alloc: Global,
    race: &RaceScript,
    frames: bool,
    most: usize,
    is_only: bool,
    progress: &P,
) -> Result<String, LabError>
    ensures counted { IfOk result (λ text. TellsCount frames (fields_of race.now)
        ⟦<Ending as PartialEq>⟧.eq (string_bytes text)) }
    ensures without { IfErr result
        (HasNoWords frames (fields_of race.now) ⟦<AllPorts as PartialEq>⟧.eq most) }
{
    let number = outcome_count(alloc, race, frames, most, is_only, progress)?;
    Ok(count_text(alloc, number)?)
}

/// Counts the outcomes of the script in these bytes.
fn count_bytes<P: Progress>(
    alloc: Global,
    bytes: &[u8],
    frames: bool,
    most: usize,
    is_only: bool,
    progress: &P,
) -> Result<FileAnswer, LabError>
    ensures counted { IfOk result (AnswersCount frames bytes.now) }
    ensures refused { IfErr result (RefusesCount frames most bytes.now) }
{
    let race = searched_script(alloc, bytes)?;
    let text = counted(alloc, &race, frames, most, is_only, progress)?;
    Ok(FileAnswer {
        text: text.into_bytes(),
        status: 0,
    })
}

/// Counts the outcomes of the script of a file. A wait is counted by its last look: that changes no outcome. On a terminal it
/// shows how far the search is.
fn count_file<T: AllocGlobal + Input + Files + Eprint>(
    rt: &T,
    file: &str,
    frames: bool,
    most: usize,
    is_only: bool,
    progress: &ProgressLine<'_, T>,
) -> Result<FileAnswer, LabError>
where
    T::Reader: IsTerminal,
    ensures { IsCounted frames most result }
{
    tell_terminal(rt, "a script", Some(file));
    let bytes = bytes_asked(rt, Some(file))?;
    let answered = count_bytes(
        rt.alloc(),
        bytes.as_slice(),
        frames,
        most,
        is_only,
        progress,
    );
    progress.clear();
    answered
}

/// Counts the outcomes of each script, and writes the number, under the name of its file if there are several. Gives the worst
/// exit status.
pub fn answer_count<T: AllocGlobal + Input + Files + Eprint, W: Write>(
    rt: &T,
    writer: &mut W,
    question: &CountQuestion<'_>,
    progress: &ProgressLine<'_, T>,
) -> Result<u8, LabError>
where
    T::Reader: IsTerminal,
    ensures answered { IfOk result (λ status. AreAnswered
        (IsPartOf (λ name. IsCounted question.now.frames question.now.most)
        (has_headings false (length question.now.files.items)))
        (map (λ file. file.now) question.now.files.items)
        (W.contents writer.old) (W.contents writer.new) status) }
    ensures fault { IfErr result (λ e. e ≡ LabError.Write) }
{
    let files = question.files.as_slice();
    let is_only = files.len() == 1;
    answer_each(rt, writer, files, false, |file| {
        count_file(rt, file, question.frames, question.most, is_only, progress)
    })
}
