ghost use Rattle.std.specs.Prelude.{◌≡◌, ◌+◌, ◌^◌, ◌<◌, ◌≤◌, ◌++◌, List, [], ℕ, Some, IfErr, IfNone, IfOk, IfSome, OnOk, length, min, slice_get};
ghost use Rattle.std.specs.Prelude.{string_bytes};
ghost use Rattle.std.specs.Option.{option_map};
ghost use Rattle.ccan_outcomes.specs.RaceScript.{fields_of};
ghost use Rattle.ccan_outcomes.specs.OutcomeWords.{endings_in};
ghost use Rattle.ccan_lab.specs.declared.lab_error.LabError.TheVariants as LabError;
ghost use Rattle.ccan_lab.specs.Counting.{count_text, greatest};
ghost use Rattle.ccan_lab.specs.EachFile.{heading_if};
ghost use Rattle.ccan_lab.specs.Listing.{AreOutcomeTexts, IsListingTo, IsNumberedText, different_line, different_lines};
ghost use Rattle.ccan_lab.specs.OutcomeText.{IsOutcomeText};
ghost use Rattle.ccan_lab.specs.Report.{each, outcome_text};
ghost use Rattle.ccan_lab.specs.Report.{later_names, names_text, order_text, quoted};
ghost use Rattle.ccan_lab.specs.Rows.{rows_of};
ghost use Rattle.ccan_lab.specs.Sorted.{all_texts};
ghost use Rattle.ccan_lab.specs.Summary.{same_parts};
ghost use Rattle.ccan_lab.specs.Telling.{CanBeTold, frames_in};
ghost use Rattle.ccan_lab.specs.Written.{IsUnwritten, IsWritten};

use crate::brief::history_told;
use crate::choices::all_choices;
use crate::counting::count_text;
use crate::each_file::{write_below, write_piece};
use crate::history::port_word;
use crate::lab_error::LabError;
use crate::list_end::ListEnd;
use crate::progress_line::ProgressLine;
use crate::replay::order_to;
use crate::rows::{Rows, rows_of};
use crate::summary::{add_same_parts, all_in_order};
use crate::telling::{Telling, history_to};
use crate::wording::add_number;
use ccan_outcomes::all_ports::AllPorts;
use ccan_outcomes::{Ending, OutcomeWords};
use ccan_ram::PortName;
use ccan_script::RaceScript;
use ccan_search::Progress;
use std::alloc::{AllocError, Global};
use std::io::Write;

/// Adds the line of an outcome in a place, if several lines may be there.
#[tactic(auto, unfolding(crate::specs::Listing::different_line))]
fn add_different_line(
    text: &mut String,
    choices: &[Vec<&str>],
    rows: &Rows,
    place: usize,
) -> Result<(), AllocError>
    requires { place < length choices.now }
    ensures { OnOk result (string_bytes text.new
        ≡ string_bytes text.old ++ different_line (all_texts choices.now) rows.now place) }
{
    if choices[place].len() > 1 {
        text.push_str(rows.line(place))?;
    }
    Ok(())
}

/// Adds the lines of an outcome that are not the same in all.
#[tactic(auto, using(crate::proofs::Texts::each_begins, crate::proofs::Texts::each_goes_on))]
fn add_different(text: &mut String, choices: &[Vec<&str>], rows: &Rows) -> Result<(), AllocError>
    ensures { OnOk result (string_bytes text.new ≡ string_bytes text.old
        ++ each (length choices.now) (different_line (all_texts choices.now) rows.now)) }
{
    for place in 0..choices.len() {
        add_different_line(text, choices, rows, place)?;
    }
    Ok(())
}

/// The lines of an outcome that are not the same in all, by the lines that may be in each place.
pub fn different_lines(
    alloc: Global,
    choices: &[Vec<&str>],
    ending: &Ending,
) -> Result<String, AllocError>
    ensures { IfOk result (λ text.
        string_bytes text ≡ different_lines (all_texts choices.now) (rows_of ending.now)) }
{
    let rows = rows_of(alloc, ending)?;
    let mut text = String::new(alloc);
    add_different(&mut text, choices, &rows)?;
    Ok(text)
}

/// Adds a port's name in quotation marks.
fn add_quoted(text: &mut String, port: PortName) -> Result<(), AllocError>
    ensures { OnOk result (string_bytes text.new ≡ string_bytes text.old ++ quoted port) }
{
    text.push_str("\"")?;
    text.push_str(port_word(port))?;
    text.push_str("\"")
}

/// Adds the names of an order, with a comma and a space before each.
#[tactic(auto, unfolding(crate::specs::Report::later_names))]
fn add_later_names(text: &mut String, order: &[PortName]) -> Result<(), AllocError>
    ensures { OnOk result
        (string_bytes text.new ≡ string_bytes text.old ++ later_names order.now) }
{
    for port in order {
        text.push_str(", ")?;
        add_quoted(text, *port)?;
    }
    Ok(())
}

/// Adds the names of an order, with a comma and a space between them.
fn add_names(text: &mut String, order: &[PortName]) -> Result<(), AllocError>
    ensures { OnOk result
        (string_bytes text.new ≡ string_bytes text.old ++ names_text order.now) }
{
    if order.is_empty() {
        return Ok(());
    }
    add_quoted(text, order[0])?;
    add_later_names(text, &order[1..])
}

/// Adds an order as the member of a script that says it; nothing if there is none.
fn add_order(text: &mut String, order: &Option<Vec<PortName>>) -> Result<(), AllocError>
    ensures { OnOk result (string_bytes text.new
        ≡ string_bytes text.old ++ order_text (option_map (λ order. order.items) order.now)) }
{
    if let Some(order) = order {
        text.push_str("  \"order\": [")?;
        add_names(text, order.as_slice())?;
        text.push_str("]\n")?;
    }
    Ok(())
}

/// Adds an outcome: its head, these lines of it, a history as it is shown, and the order, if there is one.
///
/// The number is from 0.
pub fn add_told_outcome(
    text: &mut String,
    lines: &str,
    number: usize,
    told: &str,
    order: &Option<Vec<PortName>>,
) -> Result<(), AllocError>
    requires { number + 1 < 2 ^ 64 }
    ensures { OnOk result (string_bytes text.new ≡ string_bytes text.old
        ++ outcome_text lines.now number told.now (option_map (λ order. order.items) order.now)) }
{
    text.push_str("outcome ")?;
    add_number(text, number + 1)?;
    text.push_str("\n")?;
    text.push_str(lines)?;
    text.push_str(told)?;
    add_order(text, order)
}

/// Adds an outcome: its head, these lines of it, a history that leads to it, and an order of whole lines that does, if one was
/// found.
///
/// The number is from 0.
pub fn add_outcome<P: Progress>(
    alloc: Global,
    text: &mut String,
    telling: &Telling<'_, P>,
    ending: &Ending,
    lines: &str,
    number: usize,
) -> Result<(), AllocError>
    requires can { CanBeTold (fields_of telling.now.query.now.race.now) telling.now.list.now }
    requires at { slice_get (endings_in telling.now.list.now.words) number ≡ Some ending.now }
    requires few { number + 1 < 2 ^ 64 }
    ensures { OnOk result ((added : List ℕ)
        × (string_bytes text.new ≡ string_bytes text.old ++ added)
        × IsOutcomeText (frames_in telling.now.list.now) telling.now.query.now.form
        (fields_of telling.now.query.now.race.now) (endings_in telling.now.list.now.words)
        lines.now number added) }
{
    let history = history_to(alloc, telling, number)?;
    let frames = telling.list.words.numbers.frames;
    let order = order_to(
        alloc,
        telling.query.race,
        frames,
        ending,
        history.steps.as_slice(),
    )?;
    let told = history_told(alloc, telling.query.race, telling.query.form, &history)?;
    add_told_outcome(text, lines, number, told.as_str(), &order)
}

/// The text of the outcome of this number, from 0, by the lines that may be in each place; none if there are no more than so many.
fn numbered_text<P: Progress>(
    alloc: Global,
    telling: &Telling<'_, P>,
    choices: &[Vec<&str>],
    number: usize,
) -> Result<Option<String>, AllocError>
    requires can { CanBeTold (fields_of telling.now.query.now.race.now) telling.now.list.now }
    requires few { number + 1 < 2 ^ 64 }
    ensures text { IfOk result (λ found. IfSome found (λ text.
        (number < length (endings_in telling.now.list.now.words))
        × IsNumberedText (frames_in telling.now.list.now) telling.now.query.now.form
        (fields_of telling.now.query.now.race.now) (endings_in telling.now.list.now.words)
        (all_texts choices.now) number (string_bytes text))) }
    ensures none { IfOk result (λ found. IfNone found
        (length (endings_in telling.now.list.now.words) ≤ number)) }
{
    let Some(ending) = telling.list.words.ending(alloc, number as u64)? else {
        return Ok(None);
    };
    let lines = different_lines(alloc, choices, &ending)?;
    let mut text = String::new(alloc);
    add_outcome(alloc, &mut text, telling, &ending, lines.as_str(), number)?;
    Ok(Some(text))
}

/// Writes all outcomes, by the lines that may be in each place: each as soon as its text is made.
fn write_outcomes<T: Eprint, W: Write>(
    alloc: Global,
    writer: &mut W,
    telling: &Telling<'_, ProgressLine<'_, T>>,
    choices: &[Vec<&str>],
) -> Result<ListEnd, LabError>
    requires can { CanBeTold (fields_of telling.now.query.now.race.now) telling.now.list.now }
    ensures written { IfOk result (λ end. IsWritten [] (AreOutcomeTexts
        (frames_in telling.now.list.now) telling.now.query.now.form
        (fields_of telling.now.query.now.race.now) (endings_in telling.now.list.now.words)
        (all_texts choices.now))
        (λ why. why ≡ LabError.Memory)
        (length (endings_in telling.now.list.now.words))
        end (W.contents writer.old) (W.contents writer.new)) }
    ensures fault { IfErr result (λ why. why ≡ LabError.Write) }
{
    for number in 0..usize::MAX {
        match numbered_text(alloc, telling, choices, number) {
            Ok(Some(text)) => write_piece(writer, telling.query.progress, text.as_str())?,
            Ok(None) => return Ok(ListEnd::Whole),
            Err(AllocError) => return Ok(ListEnd::GivenUp(LabError::Memory)),
        }
    }
    // The loop has a bound, so that it ends. A list that comes to it is given up as if memory was refused.
    Ok(ListEnd::GivenUp(LabError::Memory))
}

/// What is above the outcomes: their number, and what is the same in all.
fn listing_head(
    alloc: Global,
    words: &OutcomeWords,
    choices: &[Vec<&str>],
) -> Result<String, AllocError>
    ensures { IfOk result (λ text. string_bytes text
        ≡ count_text (min (length (endings_in words.now)) greatest)
        ++ same_parts (all_texts choices.now)) }
{
    let mut text = count_text(alloc, words.count())?;
    add_same_parts(&mut text, choices)?;
    Ok(text)
}

/// Writes the list of all outcomes of a script, each with a history that leads to it, below the heading, if there is to be one.
pub fn write_listing<T: Eprint, W: Write>(
    alloc: Global,
    writer: &mut W,
    is_shown: bool,
    name: &str,
    telling: &Telling<'_, ProgressLine<'_, T>>,
) -> Result<ListEnd, LabError>
    requires can { CanBeTold (fields_of telling.now.query.now.race.now) telling.now.list.now }
    ensures written { IfOk result (λ end. IsWritten (heading_if is_shown name.now) (IsListingTo
        (frames_in telling.now.list.now) telling.now.query.now.form
        (fields_of telling.now.query.now.race.now) (endings_in telling.now.list.now.words))
        (λ why. why ≡ LabError.Memory)
        (length (endings_in telling.now.list.now.words))
        end (W.contents writer.old) (W.contents writer.new)) }
    ensures unwritten { IfErr result (IsUnwritten (λ why. why ≡ LabError.Memory)
        (W.contents writer.old) (W.contents writer.new)) }
{
    let words = &telling.list.words;
    let rows = all_choices(alloc, telling.query.race, words)?;
    let choices = all_in_order(alloc, rows.as_slice())?;
    let head = listing_head(alloc, words, choices.as_slice())?;
    write_below(writer, is_shown, name, head.as_str())?;
    write_outcomes(alloc, writer, telling, choices.as_slice())
}
