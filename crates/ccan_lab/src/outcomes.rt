//! The question `ccan-lab outcomes`: its words, and its answer.

ghost use Rattle.std.specs.Prelude.{◌≡◌, ◌↔◌, IfErr, IfOk, IsTrue, codes, length, map, option_map, string_bytes, true};
ghost use Rattle.clap.specs.Words.{first_value, found_of, matched_of, one_text, raw_values};
ghost use Rattle.std.specs.List.{IsDistinct, list_any};
ghost use Rattle.ccan_outcomes.specs.RaceScript.{fields_of};
ghost use Rattle.ccan_outcomes.specs.Ending.{AreOutcomes};
ghost use Rattle.ccan_outcomes.specs.OutcomeWords.{endings_in};
ghost use Rattle.ccan_lab.specs.declared.asked.Asked.TheVariants as Asked;
ghost use Rattle.ccan_lab.specs.declared.lab_error.LabError.TheVariants as LabError;
ghost use Rattle.ccan_lab.specs.Answered.{AnswersAsked, AnswersFile, IsAnswered, RefusesAsked, RefusesFile};
ghost use Rattle.ccan_lab.specs.Answered.{RefusesNames, RefusesUnknown, TellsShortList};
ghost use Rattle.ccan_lab.specs.Answered.{names_its_file, status_if};
ghost use Rattle.ccan_lab.specs.EachFile.{AreAnswered, IsPartOf, has_headings};
ghost use Rattle.ccan_lab.specs.EachList.{IsPartBy};
ghost use Rattle.ccan_lab.specs.Outcomes.{IsNotOfAll};
ghost use Rattle.ccan_lab.specs.Telling.{CanBeTold, frames_in};
ghost use Rattle.ccan_lab.specs.Question.{AreKnown, AreKnownNames, AsksAllBy, AsksBy, IsFormBy, IsGivenBy};
ghost use Rattle.ccan_lab.specs.Observed.{names_in};
ghost use Rattle.ccan_lab.specs.Question.{AsksFramesBy, asks_frame, begins_with_c, files_named, is_of_frame, lines_given};
ghost use Rattle.ccan_lab.specs.Seen.{HasNoSeenList, TellsSeen};
ghost use Rattle.ccan_lab.specs.Sorted.{texts_of};
ghost use Rattle.ccan_lab.specs.Words.{AnswersLine, AreAllLineEnds, HasNoGraph, IsUnanswered, TellsLine};
ghost use Rattle.ccan_lab.specs.Apart.{TellsApart};

use crate::answer::{Answer, found_text};
use crate::asked::Asked;
use crate::beginnings::beginnings_text;
use crate::command_words::{
    apart_from, command, files_named, number, option, scripts, several, switch, with,
};
use crate::each_file::{FileAnswer, answer_each};
use crate::each_list::list_each;
use crate::history_form::HistoryForm;
use crate::input::{searched_script, tell_terminal};
use crate::lab_error::LabError;
use crate::line_search::{LineSearch, search_among};
use crate::line_search_apart::{ApartSearch, search_apart};
use crate::observed::first_unknown;
use crate::outcome_words::{Gathered, OutcomeList, gathered_of};
use crate::outcomes_json::answer_of_json;
use crate::paging::{Source, source_asked};
use crate::progress_line::ProgressLine;
use crate::seen::seen_text;
use crate::summary::{list_without_number, short_list};
use crate::telling::{Query, Telling, list_asked};
use ccan_outcomes::all_ports::AllPorts;
use ccan_outcomes::{Ending, LineEnds};
use ccan_script::RaceScript;
use ccan_search::Progress;
use clap::{Arg, ArgMatches, Command};
use std::alloc::{AllocError, Global};
use std::fs::Files;
use std::io::{Input, IsTerminal, Write};

/// How many states are kept at most, and how many nodes the words of outcomes have, if the command line doesn't say.
pub const DEFAULT_MOST: usize = 1_000_000;

/// The exit status if it is not as asked.
pub const NOT_SO: u8 = 6;

/// The exit status if the outcomes need too many nodes to be counted.
pub const UNCOUNTED: u8 = 5;

/// What is asked about the outcomes of scripts.
#[derive(Drop)]
pub struct OutcomesQuestion<'a> {
    /// How many states the search keeps at most, and how many nodes the words of the outcomes have. If a script needs more, nothing
    /// is answered of it, except the short list, and what is certain of LINEs, if it needs more nodes only.
    pub most: usize,
    /// The files: `-` means standard input.
    pub files: Vec<&'a str>,
    /// What is asked.
    pub asked: Asked<'a>,
    /// The LINEs of `--can` or `--never`.
    pub lines: Vec<&'a str>,
    /// How histories are written.
    pub form: HistoryForm,
    /// Whether outcomes are told apart by the frames that won the bus, and show them.
    pub frames: bool,
}

/// The option that a number of states is given by.
pub fn most_option<'a>(alloc: Global) -> Arg<'a> {
    number(alloc, "most", "How many states and nodes to keep at most").default_value("1000000")
}

/// The flag that asks for the whole list.
fn all_flag<'a>(alloc: Global) -> Result<Arg<'a>, AllocError> {
    let help = "Show each outcome, with a history that leads to it";
    apart_from(apart_from(switch(alloc, "all", help), "can")?, "never")
}

/// The flag that asks for the whole list as JSON.
fn json_flag<'a>(alloc: Global) -> Result<Arg<'a>, AllocError> {
    let help = "Show each outcome, with a history, as JSON: the data in a page of ccan-lab page";
    let json = apart_from(switch(alloc, "json", help), "all")?;
    let json = apart_from(json, "observe")?;
    let json = apart_from(json, "can")?;
    apart_from(apart_from(json, "never")?, "brief")
}

/// The option that asks for the outcomes that can be told apart by some lines.
fn observe_option<'a>(alloc: Global) -> Result<Arg<'a>, AllocError> {
    let help =
        "Show each outcome that differs in these, as if1[1],bus,final: lines from 0, all of a port, objects at the end";
    apart_from(
        apart_from(option(alloc, "observe", "NAMES", help), "can")?,
        "never",
    )
}

/// The option that asks whether an outcome has lines.
fn can_option<'a>(alloc: Global) -> Result<Arg<'a>, AllocError> {
    let help =
        "Ask whether an outcome has a line that begins so, where * is any bytes; exit status 6 if none has. May be given more \
                 than once, for all in one outcome";
    apart_from(several(option(alloc, "can", "LINE", help)), "never")
}

/// The option that asks whether no outcome has lines.
fn never_option<'a>(alloc: Global) -> Arg<'a> {
    let help =
        "Ask whether no outcome has a line that begins so, where * is any bytes; exit status 6 if one has. May be given more \
                 than once, for all in one outcome";
    several(option(alloc, "never", "LINE", help))
}

/// The flag that asks for histories in few lines.
fn brief_flag<'a>(alloc: Global) -> Arg<'a> {
    let help =
        "Write each history in few lines: looks in a row as one, and behind a change or a round the object or the frame";
    switch(alloc, "brief", help)
}

/// The flag that asks for frames.
pub fn frames_flag<'a>(alloc: Global) -> Arg<'a> {
    let help =
        "Tell outcomes apart by the frames that won the bus too, and show each below the line of its round";
    switch(alloc, "frames", help)
}

/// The command, which takes what chooses outcomes.
fn choosing<'a>(alloc: Global, command: Command<'a>) -> Result<Command<'a>, AllocError> {
    let chosen = with(command, all_flag(alloc)?)?;
    let chosen = with(chosen, json_flag(alloc)?)?;
    let chosen = with(chosen, observe_option(alloc)?)?;
    let chosen = with(chosen, can_option(alloc)?)?;
    let chosen = with(chosen, never_option(alloc))?;
    let chosen = with(chosen, brief_flag(alloc))?;
    with(chosen, frames_flag(alloc))
}

/// The command that asks about outcomes.
pub fn outcomes_command<'a>(alloc: Global) -> Result<Command<'a>, AllocError> {
    let about =
        "Shows what can come of a race whose two hosts and bus run at once; lines are counted from 0, as in jq and \
                 in the faults of ccan";
    let asked = choosing(alloc, command(alloc, "outcomes", about))?;
    with(with(asked, most_option(alloc))?, scripts(alloc))
}

/// What the words of that command ask of the whole list.
fn all_asked<'a>(words: &ArgMatches<'a>) -> Asked<'a>
    ensures { AsksAllBy (first_value (found_of words.entry.now) (codes "observe")) result }
{
    match words.get_str("observe") {
        Some(names) => Asked::AllObserved(names),
        None => Asked::All,
    }
}

/// What the words of that command ask if they don't ask for the whole list.
fn part_asked<'a>(words: &ArgMatches<'a>) -> Asked<'a>
    ensures { AsksBy (option_map raw_values (matched_of (found_of words.entry.now) (codes "can")))
        (option_map raw_values (matched_of (found_of words.entry.now) (codes "never")))
        (first_value (found_of words.entry.now) (codes "observe")) result }
{
    if words.get_strs("can").is_some() {
        return Asked::Can;
    }
    if words.get_strs("never").is_some() {
        return Asked::Never;
    }
    match words.get_str("observe") {
        Some(names) => Asked::Observed(names),
        None => Asked::Summary,
    }
}

/// What the words of that command ask.
fn asked_of<'a>(words: &ArgMatches<'a>) -> Asked<'a>
    ensures all { one_text (found_of words.entry.now) (codes "all") ≡ Some (codes "true")
        → AsksAllBy (first_value (found_of words.entry.now) (codes "observe")) result }
    ensures json { one_text (found_of words.entry.now) (codes "all") ≡ Some (codes "false")
        → one_text (found_of words.entry.now) (codes "json") ≡ Some (codes "true")
        → result ≡ Asked.Json }
    ensures line { one_text (found_of words.entry.now) (codes "all") ≡ Some (codes "false")
        → one_text (found_of words.entry.now) (codes "json") ≡ Some (codes "false")
        → AsksBy (option_map raw_values (matched_of (found_of words.entry.now) (codes "can")))
        (option_map raw_values (matched_of (found_of words.entry.now) (codes "never")))
        (first_value (found_of words.entry.now) (codes "observe")) result }
{
    if words.get_flag("all") {
        return all_asked(words);
    }
    if words.get_flag("json") {
        return Asked::Json;
    }
    part_asked(words)
}

/// The LINEs that the words of that command ask about.
fn lines_of<'a>(alloc: Global, words: &ArgMatches<'a>) -> Result<Vec<&'a str>, AllocError>
    ensures { IfOk result (λ lines. texts_of lines.items ≡ lines_given
        (option_map raw_values (matched_of (found_of words.entry.now) (codes "can")))
        (option_map raw_values (matched_of (found_of words.entry.now) (codes "never")))) }
{
    let mut lines = Vec::new(alloc);
    if let Some(given) = words.get_strs("can") {
        lines.extend_from_slice(given)?;
        return Ok(lines);
    }
    if let Some(given) = words.get_strs("never") {
        lines.extend_from_slice(given)?;
    }
    Ok(lines)
}

/// How the words of that command have histories written.
fn form_of(words: &ArgMatches<'_>) -> HistoryForm
    ensures { IsFormBy (one_text (found_of words.now) (codes "brief")) result }
{
    if words.get_flag("brief") {
        HistoryForm::Brief
    } else {
        HistoryForm::EachStep
    }
}

/// Whether a byte is in no printed line except that of a frame.
#[tactic(auto, unfolding(crate::specs::Question::is_of_frame))]
fn is_of_frame(byte: u8) -> bool
    ensures { result ≡ is_of_frame byte }
{
    byte == b'#' || (b'A' <= byte && byte <= b'Z')
}

/// Whether it begins with `c`.
#[tactic(auto, unfolding(crate::specs::Question::begins_with_c))]
fn begins_with_c(line: &[u8]) -> bool
    ensures { result ≡ begins_with_c line.now }
{
    match line.split_first() {
        Some((byte, _)) => *byte == b'c',
        None => false,
    }
}

/// Whether one of these bytes is in no printed line except that of a frame.
fn any_of_frame(line: &[u8]) -> bool
    ensures { result ≡ list_any is_of_frame line.now }
{
    line.iter().any(|byte| is_of_frame(*byte))
}

/// Whether a LINE asks for a frame.
#[tactic(auto, unfolding(crate::specs::Question::asks_frame))]
fn asks_frame(line: &str) -> bool
    ensures { result ≡ asks_frame line.now }
{
    let bytes = line.as_bytes();
    begins_with_c(bytes) || any_of_frame(bytes)
}

/// Whether one of these LINEs asks for a frame.
fn any_asks_frame(lines: &[&str]) -> bool
    ensures { result ≡ list_any (λ line. asks_frame line.now) lines.now }
{
    lines.iter().any(|line| asks_frame(line))
}

/// Whether frames are reported, by the words of that command and its LINEs.
fn frames_of(words: &ArgMatches<'_>, lines: &[&str]) -> bool
    ensures { AsksFramesBy (one_text (found_of words.now) (codes "frames")) lines.now result }
{
    if words.get_flag("frames") {
        true
    } else {
        any_asks_frame(lines)
    }
}

/// How many states are kept at most, and nodes: as it is given, or the default.
pub fn most_of(words: &ArgMatches<'_>) -> usize
    ensures { IsGivenBy (one_text (found_of words.now) (codes "most")) result }
{
    words.get_one::<usize>("most").unwrap_or(DEFAULT_MOST)
}

/// The question that the words of that command ask.
pub fn outcomes_question<'a>(
    alloc: Global,
    words: &ArgMatches<'a>,
) -> Result<OutcomesQuestion<'a>, AllocError>
    ensures most { IfOk result (λ question.
        IsGivenBy (one_text (found_of words.entry.now) (codes "most")) question.most) }
    ensures form { IfOk result (λ question.
        IsFormBy (one_text (found_of words.entry.now) (codes "brief")) question.form) }
    ensures files { IfOk result (λ question. map (λ file. file.now) question.files.items
        ≡ files_named (option_map raw_values
        (matched_of (found_of words.entry.now) (codes "file")))) }
    ensures all { IfOk result (λ question.
        one_text (found_of words.entry.now) (codes "all") ≡ Some (codes "true")
        → AsksAllBy (first_value (found_of words.entry.now) (codes "observe")) question.asked) }
    ensures json { IfOk result (λ question.
        one_text (found_of words.entry.now) (codes "all") ≡ Some (codes "false")
        → one_text (found_of words.entry.now) (codes "json") ≡ Some (codes "true")
        → question.asked ≡ Asked.Json) }
    ensures line { IfOk result (λ question.
        one_text (found_of words.entry.now) (codes "all") ≡ Some (codes "false")
        → one_text (found_of words.entry.now) (codes "json") ≡ Some (codes "false")
        → AsksBy (option_map raw_values (matched_of (found_of words.entry.now) (codes "can")))
        (option_map raw_values (matched_of (found_of words.entry.now) (codes "never")))
        (first_value (found_of words.entry.now) (codes "observe")) question.asked) }
    ensures frames { IfOk result (λ question.
        AsksFramesBy (one_text (found_of words.entry.now) (codes "frames"))
        question.lines.items question.frames) }
    ensures lines { IfOk result (λ question. texts_of question.lines.items ≡ lines_given
        (option_map raw_values (matched_of (found_of words.entry.now) (codes "can")))
        (option_map raw_values (matched_of (found_of words.entry.now) (codes "never")))) }
{
    let lines = lines_of(alloc, words)?;
    Ok(OutcomesQuestion {
        most: most_of(words),
        files: files_named(alloc, words)?,
        asked: asked_of(words),
        frames: frames_of(words, lines.as_slice()),
        lines,
        form: form_of(words),
    })
}

/// Refuses names if one of them is that of no line and no object of the script.
#[tactic(auto, using(crate::proofs::Apart::none_found))]
fn refuse_names(alloc: Global, race: &RaceScript, names: &str) -> Result<(), LabError>
    ensures known { IfOk result (λ done. AreKnownNames (fields_of race.now) names.now) }
    ensures refused { IfErr result (RefusesNames (fields_of race.now) names.now) }
{
    match first_unknown(alloc, race, names)? {
        Some(number) => Err(LabError::NoPlace(number)),
        None => Ok(()),
    }
}

/// Refuses names to be observed if one of them is that of no line and no object of the script.
pub fn refuse_unknown(alloc: Global, race: &RaceScript, asked: Asked<'_>) -> Result<(), LabError>
    ensures known { IfOk result (λ done. AreKnown (fields_of race.now) asked.entry) }
    ensures refused { IfErr result (RefusesUnknown (fields_of race.now) asked.entry) }
{
    match asked {
        Asked::Observed(names) | Asked::AllObserved(names) => refuse_names(alloc, race, names),
        Asked::Summary | Asked::All | Asked::Json | Asked::Can | Asked::Never => Ok(()),
    }
}

/// What is answered to the question whether one of these outcomes has a line that begins so for each of these beginnings, or, if
/// `never` is set, whether none has.
fn answer_by_line<P: Progress>(
    alloc: Global,
    telling: &Telling<'_, P>,
    begins: &[&str],
    never: bool,
) -> Result<Answer, LabError>
    requires can { CanBeTold (fields_of telling.now.query.now.race.now) telling.now.list.now }
    requires all { AreOutcomes (fields_of telling.now.query.now.race.now)
        (endings_in telling.now.list.now.words) }
    requires distinct { IsDistinct ⟦<Ending as PartialEq>⟧.eq
        (endings_in telling.now.list.now.words) }
    ensures told { IfOk result (λ answer. TellsLine (frames_in telling.now.list.now)
        telling.now.query.now.form (fields_of telling.now.query.now.race.now)
        ⟦<Ending as PartialEq>⟧.eq (texts_of begins.now) never
        (string_bytes answer.text) answer.holds) }
    ensures without { IfErr result (IsUnanswered (frames_in telling.now.list.now)
        (fields_of telling.now.query.now.race.now) (texts_of begins.now)
        ⟦<AllPorts as PartialEq>⟧.eq telling.now.query.now.most) }
{
    match search_among(alloc, telling.query.race, &telling.list.words, begins)? {
        LineSearch::Found(number) => {
            let text = found_text(alloc, telling, number)?;
            Ok(Answer {
                text,
                holds: !never,
            })
        }
        LineSearch::NotFound(text) => Ok(Answer { text, holds: never }),
        LineSearch::Refused => Err(LabError::NoLine),
    }
}

/// What is answered to that question about these outcomes, which are dropped.
fn answer_of_list<P: Progress>(
    alloc: Global,
    query: &Query<'_, P>,
    list: OutcomeList,
    begins: &[&str],
    never: bool,
) -> Result<Answer, LabError>
    requires can { CanBeTold (fields_of query.now.race.now) list }
    requires all { AreOutcomes (fields_of query.now.race.now) (endings_in list.words) }
    requires distinct { IsDistinct ⟦<Ending as PartialEq>⟧.eq (endings_in list.words) }
    ensures told { IfOk result (λ answer.
        TellsLine (frames_in list) query.now.form (fields_of query.now.race.now)
        ⟦<Ending as PartialEq>⟧.eq (texts_of begins.now) never
        (string_bytes answer.text) answer.holds) }
    ensures without { IfErr result
        (IsUnanswered (frames_in list) (fields_of query.now.race.now)
        (texts_of begins.now) ⟦<AllPorts as PartialEq>⟧.eq query.now.most) }
{
    let telling = Telling { query, list: &list };
    answer_by_line(alloc, &telling, begins, never)
}

/// What is answered to that question by how each line may end in the outcomes: they need too many nodes to be put together.
fn answer_apart<P: Progress>(
    alloc: Global,
    query: &Query<'_, P>,
    lines: &LineEnds,
    begins: &[&str],
    never: bool,
) -> Result<Answer, LabError>
    requires { AreAllLineEnds query.now.frames (fields_of query.now.race.now) query.now.most
        lines.now }
    ensures told { IfOk result (λ answer.
        TellsApart query.now.frames (fields_of query.now.race.now) query.now.most
        (texts_of begins.now) never (string_bytes answer.text) answer.holds) }
    ensures without { IfErr result
        (IsUnanswered query.now.frames (fields_of query.now.race.now)
        (texts_of begins.now) ⟦<AllPorts as PartialEq>⟧.eq query.now.most) }
{
    match search_apart(alloc, query.race, lines, begins, query.most)? {
        ApartSearch::Found(text) => Ok(Answer {
            text,
            holds: !never,
        }),
        ApartSearch::NotFound(text) => Ok(Answer { text, holds: never }),
        ApartSearch::Uncertain => Err(LabError::Nodes(query.most)),
        ApartSearch::Refused => Err(LabError::NoLine),
    }
}

/// What is answered to the question whether an outcome of a script has a line that begins so for each of these beginnings, or, if
/// `never` is set, whether none has.
fn answer_of_line<P: Progress>(
    alloc: Global,
    query: &Query<'_, P>,
    begins: &[&str],
    never: bool,
) -> Result<Answer, LabError>
    ensures told { IfOk result (λ answer.
        AnswersLine query.now.frames query.now.form (fields_of query.now.race.now)
        ⟦<Ending as PartialEq>⟧.eq query.now.most (texts_of begins.now) never
        (string_bytes answer.text) answer.holds) }
    ensures without { IfErr result
        (IsUnanswered query.now.frames (fields_of query.now.race.now)
        (texts_of begins.now) ⟦<AllPorts as PartialEq>⟧.eq query.now.most) }
{
    let (race, frames, most) = (query.race, query.frames, query.most);
    match gathered_of(alloc, race, frames, most, query.progress)? {
        Gathered::Together(list) => answer_of_list(alloc, query, list, begins, never),
        Gathered::Apart(lines) => answer_apart(alloc, query, &lines, begins, never),
    }
}

/// What is answered to the question what of the outcomes of a script can be told apart by the lines and objects of these
/// names.
fn answer_of_observed<P: Progress>(
    alloc: Global,
    query: &Query<'_, P>,
    names: &str,
) -> Result<Answer, LabError>
    ensures told { IfOk result (λ answer.
        TellsSeen query.now.frames query.now.form (names_in names.now)
        (fields_of query.now.race.now) ⟦<Ending as PartialEq>⟧.eq
        (string_bytes answer.text)) }
    ensures holds { IfOk result (λ answer. answer.holds ≡ true) }
    ensures without { IfErr result
        (HasNoSeenList query.now.frames (names_in names.now) (fields_of query.now.race.now)
        ⟦<AllPorts as PartialEq>⟧.eq query.now.most) }
{
    let text = seen_text(alloc, query, names)?;
    Ok(Answer { text, holds: true })
}

/// The exit status of an answer that is as asked, or isn't.
fn status_of(is_so: bool) -> u8
    ensures { result ≡ status_if is_so }
{
    if is_so { 0 } else { NOT_SO }
}

/// What is printed of a file that has this answer, with its exit status.
fn file_answer(answer: Answer) -> FileAnswer
    ensures text { result.text.items ≡ string_bytes answer.text }
    ensures status { result.status ≡ status_if answer.holds }
{
    FileAnswer {
        text: answer.text.into_bytes(),
        status: status_of(answer.holds),
    }
}

/// What is printed of a file whose outcomes can't be counted, with its exit status.
fn uncounted(text: String) -> FileAnswer
    ensures text { result.text.items ≡ string_bytes text }
    ensures status { result.status ≡ 5 }
{
    FileAnswer {
        text: text.into_bytes(),
        status: UNCOUNTED,
    }
}

/// What each line may be in the outcomes of a script, with their number, or without it if they need too many nodes. No outcome is
/// listed for it.
fn answer_of_summary<P: Progress>(
    alloc: Global,
    query: &Query<'_, P>,
) -> Result<FileAnswer, LabError>
    ensures told { IfOk result (TellsShortList query.now.frames
        (fields_of query.now.race.now) ⟦<Ending as PartialEq>⟧.eq query.now.most) }
    ensures without { IfErr result (HasNoGraph
        (fields_of query.now.race.now) ⟦<AllPorts as PartialEq>⟧.eq query.now.most) }
{
    let (race, frames, most) = (query.race, query.frames, query.most);
    match gathered_of(alloc, race, frames, most, query.progress)? {
        Gathered::Together(list) => {
            let text = short_list(alloc, race, list.words)?;
            Ok(file_answer(Answer { text, holds: true }))
        }
        Gathered::Apart(lines) => {
            let text = list_without_number(alloc, race, &lines, frames, most)?;
            Ok(uncounted(text))
        }
    }
}

/// What is answered to a question about the outcomes of the script of this source, if it isn't about the list of all.
fn answer_of_script<P: Progress>(
    alloc: Global,
    race: &RaceScript,
    source: &Source,
    question: &OutcomesQuestion<'_>,
    progress: &P,
) -> Result<FileAnswer, LabError>
    requires { IsNotOfAll question.now.asked }
    ensures answered { IfOk result
        (AnswersAsked question.now (string_bytes source.now.name) (fields_of race.now)) }
    ensures refused { IfErr result (RefusesAsked question.now (fields_of race.now)) }
{
    let query = Query {
        race,
        frames: question.frames,
        most: question.most,
        progress,
        form: question.form,
    };
    let lines = question.lines.as_slice();
    let answer = match question.asked {
        Asked::Summary => return answer_of_summary(alloc, &query),
        Asked::Can => answer_of_line(alloc, &query, lines, false)?,
        Asked::Never => answer_of_line(alloc, &query, lines, true)?,
        Asked::Observed(names) => answer_of_observed(alloc, &query, names)?,
        Asked::All | Asked::AllObserved(_) => unreachable!(),
        Asked::Json => return answer_of_json(alloc, &query, source),
    };
    Ok(file_answer(answer))
}

/// Says on standard error what the printed lines of a script begin with.
fn tell_beginnings<T: AllocGlobal + Eprint>(rt: &T, race: &RaceScript) -> Result<(), LabError>
    ensures { IfErr result (λ why. why ≡ LabError.Memory) }
{
    let text = beginnings_text(rt.alloc(), race)?;
    let _told = rt.eprintln(text.as_str());
    Ok(())
}

/// What is answered to a question about the outcomes of the script of this source. If a line that is to be searched for is
/// refused, standard error says what would be right.
fn answered_or_told<T: AllocGlobal + Eprint>(
    rt: &T,
    race: &RaceScript,
    source: &Source,
    question: &OutcomesQuestion<'_>,
    progress: &ProgressLine<'_, T>,
) -> Result<FileAnswer, LabError>
    requires { IsNotOfAll question.now.asked }
    ensures answered { IfOk result
        (AnswersAsked question.now (string_bytes source.now.name) (fields_of race.now)) }
    ensures refused { IfErr result (RefusesAsked question.now (fields_of race.now)) }
{
    let answered = answer_of_script(rt.alloc(), race, source, question, progress);
    progress.clear();
    if let Err(LabError::NoLine) = answered {
        tell_beginnings(rt, race)?;
    }
    answered
}

/// What is answered to a question about the outcomes of the script in this source. A wait is shown by its last look: that changes
/// no outcome.
fn answer_of_source<T: AllocGlobal + Eprint>(
    rt: &T,
    source: &Source,
    question: &OutcomesQuestion<'_>,
    progress: &ProgressLine<'_, T>,
) -> Result<FileAnswer, LabError>
    requires { IsNotOfAll question.now.asked }
    ensures answered { IfOk result
        (AnswersFile question.now (string_bytes source.now.name) source.now.text.items) }
    ensures refused { IfErr result (RefusesFile question.now source.now.text.items) }
{
    let race = searched_script(rt.alloc(), source.text.as_slice())?;
    refuse_unknown(rt.alloc(), &race, question.asked)?;
    answered_or_told(rt, &race, source, question, progress)
}

/// What is answered to a question about the outcomes of the script of a file. On a terminal it shows how far the search is.
fn outcomes_of_file<T: AllocGlobal + Input + Files + Eprint>(
    rt: &T,
    file: &str,
    question: &OutcomesQuestion<'_>,
    progress: &ProgressLine<'_, T>,
) -> Result<FileAnswer, LabError>
where
    T::Reader: IsTerminal,
    requires { IsNotOfAll question.now.asked }
    ensures { IsAnswered question.now file.now result }
{
    tell_terminal(rt, "a script", Some(file));
    let source = source_asked(rt, Some(file))?;
    answer_of_source(rt, &source, question, progress)
}

/// Whether an answer to what is asked names its file.
pub fn is_named(asked: Asked<'_>) -> bool
    ensures json { IsTrue result ↔ (asked.entry ≡ Asked.Json) }
    ensures value { result ≡ names_its_file asked.entry }
{
    match asked {
        Asked::Json => true,
        Asked::Summary | Asked::All | Asked::Can | Asked::Never => false,
        Asked::Observed(_) | Asked::AllObserved(_) => false,
    }
}

/// Asks about the outcomes of each script, and writes what is answered, if it isn't the list of all.
fn answer_whole<T: AllocGlobal + Input + Files + Eprint, W: Write>(
    rt: &T,
    writer: &mut W,
    question: &OutcomesQuestion<'_>,
    progress: &ProgressLine<'_, T>,
) -> Result<u8, LabError>
where
    T::Reader: IsTerminal,
    requires { IsNotOfAll question.now.asked }
    ensures answered { IfOk result (λ status. AreAnswered
        (IsPartOf (IsAnswered question.now)
        (has_headings (names_its_file question.now.asked) (length question.now.files.items)))
        (map (λ file. file.now) question.now.files.items)
        (W.contents writer.old) (W.contents writer.new) status) }
    ensures fault { IfErr result (λ e. e ≡ LabError.Write) }
{
    let (files, are_named) = (question.files.as_slice(), is_named(question.asked));
    answer_each(rt, writer, files, are_named, |file| {
        outcomes_of_file(rt, file, question, progress)
    })
}

/// Lists the outcomes of each script, and writes what is answered, under the name of its file if there are several and the answer
/// doesn't name it. Gives the worst exit status.
///
/// The list of all outcomes is written outcome by outcome. If it is given up, for lack of memory or of a history, its beginning is
/// written, and standard error says why. Of all other files without an answer nothing is written.
pub fn answer_outcomes<T: AllocGlobal + Input + Files + Eprint, W: Write>(
    rt: &T,
    writer: &mut W,
    question: &OutcomesQuestion<'_>,
    progress: &ProgressLine<'_, T>,
) -> Result<u8, LabError>
where
    T::Reader: IsTerminal,
    ensures answered { IfOk result (λ status. AreAnswered
        (IsPartBy question.now.asked question.now
        (has_headings (names_its_file question.now.asked) (length question.now.files.items)))
        (map (λ file. file.now) question.now.files.items)
        (W.contents writer.old) (W.contents writer.new) status) }
    ensures fault { IfErr result (λ e. e ≡ LabError.Write) }
{
    match question.asked {
        Asked::All | Asked::AllObserved(_) => list_each(rt, writer, question, progress),
        Asked::Summary | Asked::Json | Asked::Observed(_) | Asked::Can | Asked::Never => {
            answer_whole(rt, writer, question, progress)
        }
    }
}
