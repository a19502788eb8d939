//! A list of what can be told apart of the outcomes by some lines and objects.
ghost use Rattle.std.specs.Prelude.{◌≡◌, ◌⊎◌, ◌+◌, ◌<◌, ◌≤◌, ◌^◌, ◌++◌, Contains, List, ℕ, IfErr, IfOk, IfSome, OnOk, Some, length, map, not, slice_get, true};
ghost use Rattle.std.specs.Prelude.{string_bytes};
ghost use Rattle.ccan_outcomes.specs.RaceScript.{fields_of};
ghost use Rattle.ccan_outcomes.specs.declared.ending.Ending.{Ending};
ghost use Rattle.ccan_outcomes.specs.History.{IsHistoryOf};
ghost use Rattle.ccan_outcomes.specs.Observed.{AreImages};
ghost use Rattle.ccan_outcomes.specs.OutcomeWords.{endings_in};
ghost use Rattle.ccan_lab.specs.Brief.{IsHistoryText};
ghost use Rattle.ccan_lab.specs.Observed.{AreFirstTexts, IsFirstText, first_count, is_repeat, marks_of, names_in};
ghost use Rattle.ccan_lab.specs.Observed.{observed_lines, observed_texts, text_at};
ghost use Rattle.ccan_lab.specs.Report.{IsTextWith};
ghost use Rattle.ccan_lab.specs.Seen.{AreSaid, AreShown, AreShownOf, HasNoImages, HasNoSeenList};
ghost use Rattle.ccan_lab.specs.Seen.{IsSeenListing, IsSeenText, ListsSeen, ReplaysShown, TellsSeen};
ghost use Rattle.ccan_lab.specs.Seen.{seen_heading};
ghost use Rattle.ccan_lab.specs.Telling.{CanBeTold, frames_in};
ghost use Rattle.ccan_lab.specs.Words.{HasNoWords};

use crate::brief::history_told;
use crate::lab_error::LabError;
use crate::observed::{marks_of, observed_lines, observed_texts};
use crate::outcome_words::OutcomeList;
use crate::replay::{ending_in, order_of};
use crate::report::add_told_outcome;
use crate::rows::{all_rows, rows_of};
use crate::shown_texts::ShownTexts;
use crate::telling::{Query, Telling, history_by_word, list_asked};
use crate::wording::add_counted;
use ccan_language::Letter;
use ccan_outcomes::all_ports::AllPorts;
use ccan_outcomes::{Ending, HistoryStep, Observed, OutcomeWords};
use ccan_ram::PortName;
use ccan_script::RaceScript;
use ccan_search::Progress;
use std::alloc::{AllocError, Global};

/// Some outcomes, and their words. Each other outcome shows what one of these does.
#[derive(Drop)]
pub struct Shown {
    /// The words.
    pub words: Vec<Vec<Letter>>,
    /// The outcomes.
    pub endings: Vec<Ending>,
    ghost as_many: { length words.items ≡ length endings.items },
}

/// The outcome of each word of what is looked at, in turn.
fn all_shown(alloc: Global, words: &OutcomeWords, observed: &Observed) -> Result<Shown, AllocError>
    requires { AreImages words.now observed.now }
    ensures shown { IfOk result (λ shown.
        AreShown words.now observed.now shown.endings.items) }
    ensures said { IfOk result (λ shown.
        AreSaid words.now shown.words.items shown.endings.items) }
{
    let mut shown = Vec::new(alloc);
    let mut endings = Vec::new(alloc);
    for number in 0..usize::MAX {
        let Some(word) = words.observed_word(alloc, observed, number as u64)? else {
            return Ok(Shown {
                words: shown,
                endings,
            });
        };
        endings.push(words.ending_of(alloc, word.as_slice())?)?;
        shown.push(word)?;
    }
    // The loop has a bound, so that it ends. A list that comes to it answers as if memory was refused.
    Err(AllocError)
}

/// Adds the first line: how many outcomes can be told apart.
fn add_seen_heading(text: &mut String, apart: usize) -> Result<(), AllocError>
    ensures { OnOk result (string_bytes text.new ≡ string_bytes text.old ++ seen_heading apart) }
{
    add_counted(text, apart, "outcome")?;
    text.push_str(" as observed\n")
}

/// Whether the lines, run whole one after another in this order, show these lines, by the marks of all places.
fn shows_lines(
    alloc: Global,
    race: &RaceScript,
    frames: bool,
    marks: &[bool],
    order: &[PortName],
    lines: &str,
) -> Result<bool, AllocError>
    ensures { IfOk result (λ shows. shows ≡ true
        → ReplaysShown frames (fields_of race.now) marks.now lines.now order.now) }
{
    match ending_in(alloc, race, frames, order)? {
        Some(whole) => {
            let rows = rows_of(alloc, &whole)?;
            Ok(observed_lines(alloc, marks, &rows)?.as_str() == lines)
        }
        None => Ok(false),
    }
}

/// An order of whole lines with which a run of the script shows these lines, by the marks of all places, if the last steps of the
/// lines of this history are in such an order.
fn order_to_lines(
    alloc: Global,
    race: &RaceScript,
    frames: bool,
    marks: &[bool],
    lines: &str,
    steps: &[HistoryStep],
) -> Result<Option<Vec<PortName>>, AllocError>
    ensures { IfOk result (λ found. IfSome found (λ order.
        ReplaysShown frames (fields_of race.now) marks.now lines.now order.items)) }
{
    let order = order_of(alloc, race, steps)?;
    if shows_lines(alloc, race, frames, marks, order.as_slice(), lines)? {
        Ok(Some(order))
    } else {
        Ok(None)
    }
}

/// Adds the outcome in this place: its head, these lines, a history that leads to it, and an order of whole lines that shows the
/// same lines, if one was found.
///
/// The number is from 0.
fn add_seen<P: Progress>(
    alloc: Global,
    text: &mut String,
    telling: &Telling<'_, P>,
    marks: &[bool],
    shown: &Shown,
    place: usize,
    lines: &str,
    number: usize,
) -> Result<(), AllocError>
    requires can { CanBeTold (fields_of telling.now.query.now.race.now) telling.now.list.now }
    requires said { AreSaid telling.now.list.now.words
        shown.now.words.items shown.now.endings.items }
    requires within { place < length shown.now.endings.items }
    requires few { number ≤ place }
    ensures { OnOk result ((added : List ℕ)
        × (string_bytes text.new ≡ string_bytes text.old ++ added)
        × IsTextWith
        (IsHistoryOf (frames_in telling.now.list.now) (fields_of telling.now.query.now.race.now))
        (IsHistoryText telling.now.query.now.form (fields_of telling.now.query.now.race.now))
        (λ _. ReplaysShown (frames_in telling.now.list.now)
        (fields_of telling.now.query.now.race.now) marks.now lines.now)
        shown.now.endings.items place lines.now number added) }
{
    let word = Vec::from_slice(alloc, shown.words[place].as_slice())?;
    let history = history_by_word(alloc, telling, word)?;
    let steps = history.steps.as_slice();
    let frames = telling.list.words.numbers.frames;
    let order = order_to_lines(alloc, telling.query.race, frames, marks, lines, steps)?;
    let told = history_told(alloc, telling.query.race, telling.query.form, &history)?;
    add_told_outcome(text, lines, number, told.as_str(), &order)
}

/// Adds the outcome in this place under this number, unless one before it shows the same, and says whether it did.
fn add_if_new<P: Progress>(
    alloc: Global,
    text: &mut String,
    telling: &Telling<'_, P>,
    marks: &[bool],
    shown: &Shown,
    texts: &ShownTexts,
    place: usize,
    number: usize,
) -> Result<bool, AllocError>
    requires can { CanBeTold (fields_of telling.now.query.now.race.now) telling.now.list.now }
    requires said { AreSaid telling.now.list.now.words
        shown.now.words.items shown.now.endings.items }
    requires as_many { length texts.now.lines.items ≡ length shown.now.endings.items }
    requires within { place < length shown.now.endings.items }
    requires few { number ≤ place }
    requires counts { number ≡ first_count (map string_bytes texts.now.lines.items) place }
    ensures first { IfOk result (λ added. added
        ≡ not (is_repeat (map string_bytes texts.now.lines.items) place)) }
    ensures text { OnOk result ((added : List ℕ)
        × (string_bytes text.new ≡ string_bytes text.old ++ added)
        × IsFirstText (IsSeenText (frames_in telling.now.list.now) telling.now.query.now.form
        (fields_of telling.now.query.now.race.now) marks.now
        shown.now.endings.items (map string_bytes texts.now.lines.items))
        (is_repeat (map string_bytes texts.now.lines.items) place)
        (text_at (map string_bytes texts.now.lines.items) place) place added) }
{
    if texts.is_repeat(place) {
        return Ok(false);
    }
    let lines = texts.lines[place].as_str();
    add_seen(alloc, text, telling, marks, shown, place, lines, number)?;
    Ok(true)
}

/// Adds each outcome that shows what none before it does, and says how many these are.
fn add_all_seen<P: Progress>(
    alloc: Global,
    text: &mut String,
    telling: &Telling<'_, P>,
    marks: &[bool],
    shown: &Shown,
    texts: &ShownTexts,
) -> Result<usize, AllocError>
    requires can { CanBeTold (fields_of telling.now.query.now.race.now) telling.now.list.now }
    requires said { AreSaid telling.now.list.now.words
        shown.now.words.items shown.now.endings.items }
    requires as_many { length texts.now.lines.items ≡ length shown.now.endings.items }
    ensures count { IfOk result (λ count. count
        ≡ first_count (map string_bytes texts.now.lines.items) (length shown.now.endings.items)) }
    ensures text { OnOk result ((added : List ℕ)
        × (string_bytes text.new ≡ string_bytes text.old ++ added)
        × AreFirstTexts (IsSeenText (frames_in telling.now.list.now) telling.now.query.now.form
        (fields_of telling.now.query.now.race.now) marks.now
        shown.now.endings.items (map string_bytes texts.now.lines.items))
        (map string_bytes texts.now.lines.items) (length shown.now.endings.items) added) }
{
    let mut count = 0;
    for place in 0..shown.endings.len() {
        if add_if_new(alloc, text, telling, marks, shown, texts, place, count)? {
            count += 1;
        }
    }
    Ok(count)
}

/// The lines of each of these outcomes that are looked at.
fn shown_texts(alloc: Global, marks: &[bool], shown: &Shown) -> Result<Vec<String>, AllocError>
    ensures { IfOk result (λ texts. map string_bytes texts.items
        ≡ observed_texts marks.now shown.now.endings.items) }
{
    let all = all_rows(alloc, shown.endings.as_slice())?;
    observed_texts(alloc, marks, all.as_slice())
}

/// The first line, and these outcomes below it.
fn below_heading(alloc: Global, apart: usize, told: &str) -> Result<String, AllocError>
    ensures { IfOk result (λ text. string_bytes text ≡ seen_heading apart ++ told.now) }
{
    let mut text = String::new(alloc);
    add_seen_heading(&mut text, apart)?;
    text.push_str(told)?;
    Ok(text)
}

/// The list of these outcomes by what is looked at: of those that show the same the first.
fn seen_listing<P: Progress>(
    alloc: Global,
    telling: &Telling<'_, P>,
    marks: &[bool],
    shown: &Shown,
) -> Result<String, AllocError>
    requires can { CanBeTold (fields_of telling.now.query.now.race.now) telling.now.list.now }
    requires said { AreSaid telling.now.list.now.words
        shown.now.words.items shown.now.endings.items }
    ensures { IfOk result (λ text. IsSeenListing (frames_in telling.now.list.now)
        telling.now.query.now.form (fields_of telling.now.query.now.race.now) marks.now
        shown.now.endings.items (string_bytes text)) }
{
    let lines = shown_texts(alloc, marks, shown)?;
    let texts = ShownTexts::new(alloc, lines)?;
    let mut told = String::new(alloc);
    let apart = add_all_seen(alloc, &mut told, telling, marks, shown, &texts)?;
    below_heading(alloc, apart, told.as_str())
}

/// Some outcomes, such that each other one shows what one of these does, by the marks of all places.
fn shown_of<P: Progress>(
    alloc: Global,
    telling: &Telling<'_, P>,
    marks: &[bool],
) -> Result<Shown, LabError>
    requires can { CanBeTold (fields_of telling.now.query.now.race.now) telling.now.list.now }
    ensures shown { IfOk result (λ shown. AreShownOf marks.now
        (endings_in telling.now.list.now.words) shown.endings.items) }
    ensures said { IfOk result (λ shown. AreSaid telling.now.list.now.words
        shown.words.items shown.endings.items) }
    ensures without { IfErr result
        (HasNoImages telling.now.list.now.words marks.now telling.now.query.now.most) }
{
    let words = &telling.list.words;
    let Some(observed) = words.observed(alloc, marks, telling.query.most)? else {
        return Err(LabError::Nodes(telling.query.most));
    };
    Ok(all_shown(alloc, words, &observed)?)
}

/// The list of what can be told apart of these outcomes, by the marks of all places.
fn seen_of<P: Progress>(
    alloc: Global,
    telling: &Telling<'_, P>,
    marks: &[bool],
) -> Result<String, LabError>
    requires can { CanBeTold (fields_of telling.now.query.now.race.now) telling.now.list.now }
    ensures text { IfOk result (λ text. ListsSeen (frames_in telling.now.list.now)
        telling.now.query.now.form (fields_of telling.now.query.now.race.now) marks.now
        (endings_in telling.now.list.now.words) (string_bytes text)) }
    ensures without { IfErr result
        (HasNoImages telling.now.list.now.words marks.now telling.now.query.now.most) }
{
    let shown = shown_of(alloc, telling, marks)?;
    Ok(seen_listing(alloc, telling, marks, &shown)?)
}

/// The list of what can be told apart of these outcomes, which are dropped, by the marks of all places.
fn seen_of_list<P: Progress>(
    alloc: Global,
    query: &Query<'_, P>,
    list: OutcomeList,
    marks: &[bool],
) -> Result<String, LabError>
    requires can { CanBeTold (fields_of query.now.race.now) list }
    ensures text { IfOk result (λ text.
        ListsSeen (frames_in list) query.now.form (fields_of query.now.race.now)
        marks.now (endings_in list.words) (string_bytes text)) }
    ensures without { IfErr result (HasNoImages list.words marks.now query.now.most) }
{
    let telling = Telling { query, list: &list };
    seen_of(alloc, &telling, marks)
}

/// The list of what can be told apart of the outcomes of a script by the lines and objects of these names, each with a history
/// that leads to such an outcome.
///
/// A name is that of a line, such as `if1[1]`, of an object at the end, such as `final 01`, or a port's or `final` for all of
/// them; names have commas between them.
pub fn seen_text<P: Progress>(
    alloc: Global,
    query: &Query<'_, P>,
    names: &str,
) -> Result<String, LabError>
    ensures text { IfOk result (λ text.
        TellsSeen query.now.frames query.now.form (names_in names.now)
        (fields_of query.now.race.now) ⟦<Ending as PartialEq>⟧.eq (string_bytes text)) }
    ensures without { IfErr result
        (HasNoSeenList query.now.frames (names_in names.now) (fields_of query.now.race.now)
        ⟦<AllPorts as PartialEq>⟧.eq query.now.most) }
{
    let marks = marks_of(alloc, query.race, names)?;
    let list = list_asked(alloc, query)?;
    seen_of_list(alloc, query, list, marks.as_slice())
}
