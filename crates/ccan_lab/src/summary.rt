//! The short list of outcomes: what each line may be.
ghost use Rattle.std.specs.Prelude.{◌≡◌, ◌+◌, ◌-◌, ◌^◌, ◌<◌, ◌≤◌, ◌++◌, List, ℕ, Some, IfOk, OnOk, codes, length, map, min, slice_get, string_bytes};
ghost use Rattle.std.specs.List.{flat_map};
ghost use Rattle.ccan_outcomes.specs.RaceScript.{fields_of};
ghost use Rattle.ccan_outcomes.specs.declared.ending.Ending.{Ending};
ghost use Rattle.ccan_outcomes.specs.LineEnds.{AreSaidOfLines, SayAllEnds, SayWholeOutcomes};
ghost use Rattle.ccan_outcomes.specs.OutcomeWords.{AreComplete, AreOfLines, IsComplete, endings_in};
ghost use Rattle.ccan_outcomes.specs.WordStates.{TellsManyWords};
ghost use Rattle.ccan_lab.specs.Place.{place_name};
ghost use Rattle.ccan_lab.specs.Report.{labelled};
ghost use Rattle.ccan_lab.specs.Summary.{AddsChoices, AreInOrder, IsSummary, TellsWithoutNumber};
ghost use Rattle.ccan_lab.specs.Summary.{choice_part, choice_parts, choice_text, closing_text};
ghost use Rattle.ccan_lab.specs.Summary.{same_part, same_parts, unknown_text};
ghost use Rattle.ccan_lab.specs.Sorted.{AreAllInOrder, all_texts, texts_of};

use crate::choices::all_choices;
use crate::counting::count_text;
use crate::place::{add_place_name, counts_of};
use crate::rows::Rows;
use crate::wording::add_number;
use ccan_line::PerPort;
use ccan_outcomes::{ByLine, LineEnds, OutcomeWords};
use ccan_script::RaceScript;
use std::alloc::{AllocError, Global};

/// Adds a line that is the same in all outcomes.
#[tactic(auto, unfolding(crate::specs::Report::labelled))]
fn add_same_line(text: &mut String, line: &str) -> Result<(), AllocError>
    ensures { OnOk result (string_bytes text.new
        ≡ string_bytes text.old ++ labelled (codes "same in all: ") line.now) }
{
    if !line.is_empty() {
        text.push_str("same in all: ")?;
        text.push_str(line)?;
    }
    Ok(())
}

/// Adds the line of a place, if it is one alone.
fn add_same(text: &mut String, lines: &[&str]) -> Result<(), AllocError>
    ensures { OnOk result
        (string_bytes text.new ≡ string_bytes text.old ++ same_part (texts_of lines.now)) }
{
    if lines.len() == 1 {
        add_same_line(text, lines[0])
    } else {
        Ok(())
    }
}

/// Adds one of several lines that may be in a place.
#[tactic(auto, unfolding(crate::specs::Summary::choice_text))]
fn add_choice(text: &mut String, line: &str) -> Result<(), AllocError>
    ensures { OnOk result
        (string_bytes text.new ≡ string_bytes text.old ++ choice_text line.now) }
{
    if line.is_empty() {
        text.push_str("  may be: all zero\n")
    } else {
        text.push_str("  may be: ")?;
        text.push_str(line)
    }
}

/// Adds each line that may be in a place.
fn add_choice_lines(text: &mut String, lines: &[&str]) -> Result<(), AllocError>
    ensures { OnOk result (string_bytes text.new
        ≡ string_bytes text.old ++ flat_map choice_text (texts_of lines.now)) }
{
    for line in lines {
        add_choice(text, line)?;
    }
    Ok(())
}

/// Adds the lines that may be in a place below its name, if they are several.
fn add_choices(
    text: &mut String,
    counts: &PerPort<usize>,
    place: usize,
    lines: &[&str],
) -> Result<(), AllocError>
    requires { place + 1 < 2 ^ 64 }
    ensures { OnOk result (string_bytes text.new ≡ string_bytes text.old ++ choice_part
        (place_name counts.now.if1 counts.now.if2 counts.now.bus place) (texts_of lines.now)) }
{
    if lines.len() > 1 {
        add_place_name(text, counts, place)?;
        text.push_str("\n")?;
        add_choice_lines(text, lines)?;
    }
    Ok(())
}

/// Adds what is the same in all outcomes, place by place.
pub fn add_same_parts(text: &mut String, all: &[Vec<&str>]) -> Result<(), AllocError>
    ensures { OnOk result
        (string_bytes text.new ≡ string_bytes text.old ++ same_parts (all_texts all.now)) }
{
    for lines in all {
        add_same(text, lines.as_slice())?;
    }
    Ok(())
}

/// Adds what may be in each other place.
fn add_choice_parts(
    text: &mut String,
    counts: &PerPort<usize>,
    all: &[Vec<&str>],
) -> Result<(), AllocError>
    ensures { OnOk result (string_bytes text.new ≡ string_bytes text.old ++ choice_parts
        (all_texts all.now) (place_name counts.now.if1 counts.now.if2 counts.now.bus)) }
{
    for place in 0..all.len() {
        add_choices(text, counts, place, all[place].as_slice())?;
    }
    Ok(())
}

/// Adds the last line, which says how to see the whole list.
fn add_closing(text: &mut String, outcomes: u64) -> Result<(), AllocError>
    ensures { OnOk result
        (string_bytes text.new ≡ string_bytes text.old ++ closing_text outcomes) }
{
    if 1 < outcomes {
        text.push_str("each outcome, with a history: --all\n")?;
    }
    Ok(())
}

/// The lines of each place, each once, in the order of their bytes.
pub fn all_in_order<'a>(alloc: Global, all: &'a [Rows]) -> Result<Vec<Vec<&'a str>>, AllocError>
    ensures { IfOk result (λ sorted. AreAllInOrder all.now (all_texts sorted.items)) }
{
    let mut sorted = Vec::new(alloc);
    for rows in all {
        sorted.push(rows.in_order(alloc)?)?;
    }
    Ok(sorted)
}

/// Adds what is the same in all outcomes, and what may be in each other place.
fn add_parts<T: ByLine>(
    text: &mut String,
    alloc: Global,
    race: &RaceScript,
    outcomes: &T,
) -> Result<(), AllocError>
    requires letters { T.has_all outcomes.now }
    requires complete { (ending : Ending) → T.is_outcome outcomes.now ending
        → IsComplete (fields_of race.now) ending }
    ensures { OnOk result (AddsChoices (fields_of race.now) (T.is_outcome outcomes.now)
        (string_bytes text.old) (string_bytes text.new)) }
{
    let choices = all_choices(alloc, race, outcomes)?;
    let sorted = all_in_order(alloc, choices.as_slice())?;
    add_same_parts(text, sorted.as_slice())?;
    add_choice_parts(text, &counts_of(race), sorted.as_slice())?;
    Ok(())
}

/// What each line may be in the outcomes of a script.
fn summary(alloc: Global, race: &RaceScript, words: &OutcomeWords) -> Result<String, AllocError>
    requires letters { AreOfLines words.now }
    requires complete { AreComplete (fields_of race.now) (endings_in words.now) }
    ensures { IfOk result (λ text.
        IsSummary (fields_of race.now) (endings_in words.now) (string_bytes text)) }
{
    let number = words.count();
    let mut text = count_text(alloc, number)?;
    add_parts(&mut text, alloc, race, words)?;
    add_closing(&mut text, number)?;
    Ok(text)
}

/// What each line may be in the outcomes of a script, which are dropped.
pub fn short_list(
    alloc: Global,
    race: &RaceScript,
    words: OutcomeWords,
) -> Result<String, AllocError>
    requires letters { AreOfLines words }
    requires complete { AreComplete (fields_of race.now) (endings_in words) }
    ensures { IfOk result (λ text.
        IsSummary (fields_of race.now) (endings_in words) (string_bytes text)) }
{
    summary(alloc, race, &words)
}

/// The line that stands where the number of outcomes would: they need more nodes than these.
fn unknown_text(alloc: Global, most: usize) -> Result<String, AllocError>
    ensures { IfOk result (λ text. string_bytes text ≡ unknown_text most) }
{
    let mut text = String::new(alloc);
    text.push_str("more than ")?;
    add_number(&mut text, most)?;
    text.push_str(" nodes: the number of outcomes isn't known; --most allows more\n")?;
    Ok(text)
}

/// What each line may be in the outcomes of a script, without their number: they need more nodes than these.
pub fn list_without_number(
    alloc: Global,
    race: &RaceScript,
    lines: &LineEnds,
    frames: bool,
    most: usize,
) -> Result<String, AllocError>
    requires why { TellsManyWords frames (fields_of race.now) most }
    requires ends { SayAllEnds frames (fields_of race.now) lines.now }
    requires whole { SayWholeOutcomes (fields_of race.now) lines.now }
    requires said { AreSaidOfLines lines.now }
    ensures { IfOk result (λ text.
        TellsWithoutNumber frames (fields_of race.now) most (string_bytes text)) }
{
    let mut text = unknown_text(alloc, most)?;
    add_parts(&mut text, alloc, race, lines)?;
    Ok(text)
}
