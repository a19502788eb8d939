//! A list of the outcomes that can be told apart by some of their lines.
ghost use Rattle.std.specs.Prelude.{◌≡◌, ◌+◌, ◌^◌, ◌<◌, ◌≤◌, ◌++◌, List, [], ℕ, Some, IfErr, IfNone, IfOk, IfSome, OnOk, length, map, not, option_map};
ghost use Rattle.std.specs.Prelude.{position, slice_get, string_bytes};
ghost use Rattle.std.specs.List.{list_any, range_with_len};
ghost use Rattle.std.specs.Str.{bytes_eq};
ghost use Rattle.ccan_outcomes.specs.RaceScript.{fields_of};
ghost use Rattle.ccan_outcomes.specs.OutcomeWords.{endings_in};
ghost use Rattle.ccan_lab.specs.declared.lab_error.LabError.TheVariants as LabError;
ghost use Rattle.ccan_lab.specs.EachFile.{heading_if};
ghost use Rattle.ccan_lab.specs.Observed.{AreFirstTexts, IsFirstText, IsObservedListingTo, first_count, is_kind, is_known};
ghost use Rattle.ccan_lab.specs.OutcomeText.{IsOutcomeText};
ghost use Rattle.ccan_lab.specs.Observed.{is_observed, is_place, is_repeat, marks_of, names_in, text_at};
ghost use Rattle.ccan_lab.specs.Observed.{observed_heading, observed_line, observed_lines, observed_texts, places_of};
ghost use Rattle.ccan_lab.specs.Telling.{CanBeTold, frames_in};
ghost use Rattle.ccan_lab.specs.Written.{IsUnwritten, IsWritten};

use crate::each_file::{write_below, write_piece};
use crate::lab_error::LabError;
use crate::list_end::ListEnd;
use crate::outcome_words::all_endings;
use crate::place::{add_place_name, counts_of, place_kind};
use crate::progress_line::ProgressLine;
use crate::report::add_outcome;
use crate::rows::{Rows, all_rows};
use crate::shown_texts::ShownTexts;
use crate::telling::Telling;
use crate::wording::{add_counted, add_number};
use ccan_line::PerPort;
use ccan_outcomes::all_ports::AllPorts;
use ccan_outcomes::{Ending, OutcomeWords};
use ccan_script::RaceScript;
use ccan_search::Progress;
use std::alloc::{AllocError, Global};
use std::io::Write;

/// The names in a list with commas between them.
fn names_in(alloc: Global, list: &str) -> Result<Vec<&str>, AllocError>
    ensures { IfOk result (λ names. map (λ name. name.now) names.items ≡ names_in list.now) }
{
    list.split(',').collect(alloc)
}

/// Whether this is one of these names.
fn is_named(names: &[&str], name: &str) -> bool
    ensures { result ≡ list_any (λ word. bytes_eq word.now name.now) names.now }
{
    names.iter().any(|word| *word == name)
}

/// How many places the outcomes of a script have: one for each line, and one for each object.
fn places_of(race: &RaceScript) -> usize
    ensures { result ≡ places_of (fields_of race.now) }
{
    race.script.if1.len()
        + race.script.if2.len()
        + race.script.bus.len()
        + usize::from(race.script.profile.objects())
}

/// Whether a place is looked at.
#[tactic(auto, using(crate::proofs::Apart::named_by))]
fn is_observed(
    alloc: Global,
    names: &[&str],
    counts: &PerPort<usize>,
    place: usize,
) -> Result<bool, AllocError>
    requires { place + 1 < 2 ^ 64 }
    ensures { IfOk result (λ is. is
        ≡ is_observed (map (λ name. name.now) names.now)
        counts.now.if1 counts.now.if2 counts.now.bus place) }
{
    let mut name = String::new(alloc);
    add_place_name(&mut name, counts, place)?;
    Ok(is_named(names, place_kind(counts, place)) || is_named(names, name.as_str()))
}

/// For each of so many places whether it is looked at.
#[tactic(auto, using(crate::proofs::Apart::marks_more))]
fn marks_up_to(
    alloc: Global,
    names: &[&str],
    counts: &PerPort<usize>,
    places: usize,
) -> Result<Vec<bool>, AllocError>
    ensures { IfOk result (λ marks. marks.items
        ≡ map (is_observed (map (λ name. name.now) names.now)
        counts.now.if1 counts.now.if2 counts.now.bus) (range_with_len 0 places)) }
{
    let mut marks = Vec::new(alloc);
    for place in 0..places {
        marks.push(is_observed(alloc, names, counts, place)?)?;
    }
    Ok(marks)
}

/// For each place of a script whether the names in a list with commas between them have it looked at.
pub fn marks_of(alloc: Global, race: &RaceScript, list: &str) -> Result<Vec<bool>, AllocError>
    ensures { IfOk result (λ marks. marks.items
        ≡ marks_of (names_in list.now) (fields_of race.now)) }
{
    let names = names_in(alloc, list)?;
    let marks = marks_up_to(alloc, names.as_slice(), &counts_of(race), places_of(race))?;
    Ok(marks)
}

/// Adds the line in a place, if it is looked at.
#[tactic(auto, unfolding(crate::specs::Observed::observed_line))]
fn add_observed_line(
    text: &mut String,
    marks: &[bool],
    rows: &Rows,
    place: usize,
) -> Result<(), AllocError>
    ensures { OnOk result (string_bytes text.new
        ≡ string_bytes text.old ++ observed_line marks.now rows.now place) }
{
    match marks.get(place) {
        Some(true) => text.push_str(rows.line(place)),
        _ => Ok(()),
    }
}

/// Adds the lines of an outcome that are looked at.
#[tactic(auto, using(crate::proofs::Texts::each_begins, crate::proofs::Texts::each_goes_on))]
fn add_observed(text: &mut String, marks: &[bool], rows: &Rows) -> Result<(), AllocError>
    ensures { OnOk result (string_bytes text.new
        ≡ string_bytes text.old ++ observed_lines marks.now rows.now) }
{
    for place in 0..rows.len() {
        add_observed_line(text, marks, rows, place)?;
    }
    Ok(())
}

/// The lines of an outcome that are looked at.
pub fn observed_lines(alloc: Global, marks: &[bool], rows: &Rows) -> Result<String, AllocError>
    ensures { IfOk result (λ text. string_bytes text ≡ observed_lines marks.now rows.now) }
{
    let mut text = String::new(alloc);
    add_observed(&mut text, marks, rows)?;
    Ok(text)
}

/// The lines of each outcome that are looked at.
pub fn observed_texts(
    alloc: Global,
    marks: &[bool],
    all: &[Rows],
) -> Result<Vec<String>, AllocError>
    ensures { IfOk result (λ texts. map string_bytes texts.items
        ≡ map (observed_lines marks.now) all.now) }
{
    let mut texts = Vec::new(alloc);
    for rows in all {
        texts.push(observed_lines(alloc, marks, rows)?)?;
    }
    Ok(texts)
}

/// Adds an outcome, unless one before it shows the same.
fn add_if_first<P: Progress>(
    alloc: Global,
    text: &mut String,
    telling: &Telling<'_, P>,
    texts: &ShownTexts,
    ending: &Ending,
    number: usize,
) -> Result<(), AllocError>
    requires can { CanBeTold (fields_of telling.now.query.now.race.now) telling.now.list.now }
    requires within { number < length texts.now.lines.items }
    requires at { slice_get (endings_in telling.now.list.now.words) number ≡ Some ending.now }
    requires few { number + 1 < 2 ^ 64 }
    ensures { OnOk result ((added : List ℕ)
        × (string_bytes text.new ≡ string_bytes text.old ++ added)
        × IsFirstText (IsOutcomeText (frames_in telling.now.list.now) telling.now.query.now.form
        (fields_of telling.now.query.now.race.now) (endings_in telling.now.list.now.words))
        (is_repeat (map string_bytes texts.now.lines.items) number)
        (text_at (map string_bytes texts.now.lines.items) number) number added) }
{
    if texts.is_repeat(number) {
        return Ok(());
    }
    let lines = texts.lines[number].as_str();
    add_outcome(alloc, text, telling, ending, lines, number)
}

/// The text of the outcome of this number, from 0, which is empty if one before it shows the same; none if there are no more than
/// so many.
fn first_text<P: Progress>(
    alloc: Global,
    telling: &Telling<'_, P>,
    texts: &ShownTexts,
    number: usize,
) -> Result<Option<String>, AllocError>
    requires can { CanBeTold (fields_of telling.now.query.now.race.now) telling.now.list.now }
    requires as_many { length texts.now.lines.items
        ≡ length (endings_in telling.now.list.now.words) }
    requires few { number + 1 < 2 ^ 64 }
    ensures text { IfOk result (λ found. IfSome found (λ text.
        (number < length (endings_in telling.now.list.now.words))
        × IsFirstText (IsOutcomeText (frames_in telling.now.list.now) telling.now.query.now.form
        (fields_of telling.now.query.now.race.now) (endings_in telling.now.list.now.words))
        (is_repeat (map string_bytes texts.now.lines.items) number)
        (text_at (map string_bytes texts.now.lines.items) number) number (string_bytes text))) }
    ensures none { IfOk result (λ found. IfNone found
        (length (endings_in telling.now.list.now.words) ≤ number)) }
{
    let Some(ending) = telling.list.words.ending(alloc, number as u64)? else {
        return Ok(None);
    };
    let mut text = String::new(alloc);
    add_if_first(alloc, &mut text, telling, texts, &ending, number)?;
    Ok(Some(text))
}

/// Writes each outcome that shows what none before it does, as soon as its text is made.
fn write_firsts<T: Eprint, W: Write>(
    alloc: Global,
    writer: &mut W,
    telling: &Telling<'_, ProgressLine<'_, T>>,
    texts: &ShownTexts,
) -> Result<ListEnd, LabError>
    requires can { CanBeTold (fields_of telling.now.query.now.race.now) telling.now.list.now }
    requires as_many { length texts.now.lines.items
        ≡ length (endings_in telling.now.list.now.words) }
    ensures written { IfOk result (λ end. IsWritten [] (AreFirstTexts
        (IsOutcomeText (frames_in telling.now.list.now) telling.now.query.now.form
        (fields_of telling.now.query.now.race.now) (endings_in telling.now.list.now.words))
        (map string_bytes texts.now.lines.items))
        (λ why. why ≡ LabError.Memory)
        (length (endings_in telling.now.list.now.words))
        end (W.contents writer.old) (W.contents writer.new)) }
    ensures fault { IfErr result (λ why. why ≡ LabError.Write) }
{
    for number in 0..usize::MAX {
        match first_text(alloc, telling, texts, number) {
            Ok(Some(text)) => write_piece(writer, telling.query.progress, text.as_str())?,
            Ok(None) => return Ok(ListEnd::Whole),
            Err(AllocError) => return Ok(ListEnd::GivenUp(LabError::Memory)),
        }
    }
    // The loop has a bound, so that it ends. A list that comes to it is given up as if memory was refused.
    Ok(ListEnd::GivenUp(LabError::Memory))
}

/// Adds the first line: how many outcomes there are, and how many can be told apart by what they show.
fn add_observed_heading(text: &mut String, outcomes: usize, apart: usize) -> Result<(), AllocError>
    ensures { OnOk result (string_bytes text.new
        ≡ string_bytes text.old ++ observed_heading outcomes apart) }
{
    add_counted(text, outcomes, "outcome")?;
    text.push_str(", ")?;
    add_number(text, apart)?;
    text.push_str(" as observed\n")
}

/// The lines of each outcome that the names in a list with commas between them have looked at.
fn named_texts(
    alloc: Global,
    race: &RaceScript,
    all: &[Rows],
    list: &str,
) -> Result<Vec<String>, AllocError>
    ensures { IfOk result (λ texts. map string_bytes texts.items
        ≡ map (observed_lines (marks_of (names_in list.now) (fields_of race.now))) all.now) }
{
    let marks = marks_of(alloc, race, list)?;
    observed_texts(alloc, marks.as_slice(), all)
}

/// What the outcomes show, by the names in a list with commas between them.
fn shown_by(
    alloc: Global,
    race: &RaceScript,
    words: &OutcomeWords,
    list: &str,
) -> Result<ShownTexts, AllocError>
    ensures { IfOk result (λ texts. map string_bytes texts.lines.items
        ≡ observed_texts (marks_of (names_in list.now) (fields_of race.now))
        (endings_in words.now)) }
{
    let endings = all_endings(alloc, words)?;
    let rows = all_rows(alloc, endings.as_slice())?;
    let lines = named_texts(alloc, race, rows.as_slice(), list)?;
    ShownTexts::new(alloc, lines)
}

/// The first line: how many outcomes there are, and how many can be told apart by what they show.
fn observed_head(alloc: Global, texts: &ShownTexts) -> Result<String, AllocError>
    ensures { IfOk result (λ text. string_bytes text
        ≡ observed_heading (length texts.now.lines.items)
        (first_count (map string_bytes texts.now.lines.items)
        (length texts.now.lines.items))) }
{
    let mut text = String::new(alloc);
    add_observed_heading(&mut text, texts.lines.len(), texts.first_count())?;
    Ok(text)
}

/// Writes the list of the outcomes that can be told apart by the lines and objects of these names, below the heading, if there is
/// to be one: of each kind the first, with these lines, and with a history that leads to it.
///
/// A name is that of a line, such as `if1[1]`, of an object at the end, such as `final 01`, or a port's or `final` for all of
/// them; names have commas between them. An outcome has the number that it has in the list of all.
pub fn write_observed<T: Eprint, W: Write>(
    alloc: Global,
    writer: &mut W,
    is_shown: bool,
    name: &str,
    telling: &Telling<'_, ProgressLine<'_, T>>,
    list: &str,
) -> Result<ListEnd, LabError>
    requires can { CanBeTold (fields_of telling.now.query.now.race.now) telling.now.list.now }
    ensures written { IfOk result (λ end. IsWritten (heading_if is_shown name.now)
        (IsObservedListingTo (frames_in telling.now.list.now)
        telling.now.query.now.form (names_in list.now)
        (fields_of telling.now.query.now.race.now) (endings_in telling.now.list.now.words))
        (λ why. why ≡ LabError.Memory)
        (length (endings_in telling.now.list.now.words))
        end (W.contents writer.old) (W.contents writer.new)) }
    ensures unwritten { IfErr result (IsUnwritten (λ why. why ≡ LabError.Memory)
        (W.contents writer.old) (W.contents writer.new)) }
{
    let texts = shown_by(alloc, telling.query.race, &telling.list.words, list)?;
    let head = observed_head(alloc, &texts)?;
    write_below(writer, is_shown, name, head.as_str())?;
    write_firsts(alloc, writer, telling, &texts)
}

/// Whether a word means all lines of a port, or all objects.
fn is_kind(word: &str) -> bool
    ensures { result ≡ is_kind word.now }
{
    word == "if1" || word == "if2" || word == "bus" || word == "final"
}

/// Whether a word is the name of one of so many places.
#[tactic(auto, using(crate::proofs::Apart::place_more))]
fn is_place(
    alloc: Global,
    word: &str,
    counts: &PerPort<usize>,
    places: usize,
) -> Result<bool, AllocError>
    ensures { IfOk result (λ is. is
        ≡ is_place word.now counts.now.if1 counts.now.if2 counts.now.bus places) }
{
    let mut is_found = false;
    for place in 0..places {
        let mut name = String::new(alloc);
        add_place_name(&mut name, counts, place)?;
        is_found = is_found || word == name.as_str();
    }
    Ok(is_found)
}

/// Whether a word names lines or objects of the script.
fn is_known(alloc: Global, race: &RaceScript, word: &str) -> Result<bool, AllocError>
    ensures { IfOk result (λ is. is ≡ is_known (fields_of race.now) word.now) }
{
    let is_place = is_place(alloc, word, &counts_of(race), places_of(race))?;
    Ok(is_kind(word) || is_place)
}

/// For each of these names whether it is that of lines or objects of the script.
fn are_known(alloc: Global, race: &RaceScript, names: &[&str]) -> Result<Vec<bool>, AllocError>
    ensures { IfOk result (λ known. known.items
        ≡ map (λ name. is_known (fields_of race.now) name.now) names.now) }
{
    let mut known = Vec::new(alloc);
    for name in names {
        known.push(is_known(alloc, race, name)?)?;
    }
    Ok(known)
}

/// The index of the first of these that is false.
fn first_false(marks: &[bool]) -> Option<usize>
    ensures { result ≡ position not marks.now }
{
    marks.iter().position(|mark| !*mark)
}

/// The number, from 1, of the first name in a list with commas between them that is that of no line and no object of the
/// script.
pub fn first_unknown(
    alloc: Global,
    race: &RaceScript,
    list: &str,
) -> Result<Option<usize>, AllocError>
    ensures { IfOk result (λ unknown. unknown ≡ option_map (λ index. index + 1)
        (position not (map (is_known (fields_of race.now)) (names_in list.now)))) }
{
    let names = names_in(alloc, list)?;
    let known = are_known(alloc, race, names.as_slice())?;
    match first_false(known.as_slice()) {
        Some(index) => Ok(Some(index + 1)),
        None => Ok(None),
    }
}
