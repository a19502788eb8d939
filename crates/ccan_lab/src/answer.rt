//! What is printed of an outcome that has some lines.
ghost use Rattle.std.specs.Prelude.{◌≡◌, ◌-◌, ◌^◌, ◌<◌, ◌++◌, IfErr, IfOk, OnOk, codes, length, string_bytes};
ghost use Rattle.ccan_outcomes.specs.RaceScript.{fields_of};
ghost use Rattle.ccan_outcomes.specs.OutcomeWords.{endings_in};
ghost use Rattle.ccan_lab.specs.Answer.{each_below, none_text, not_had};
ghost use Rattle.ccan_lab.specs.Listing.{IsOneText};
ghost use Rattle.ccan_lab.specs.Sorted.{texts_of};
ghost use Rattle.ccan_lab.specs.Telling.{CanBeTold, frames_in};

use crate::choices::all_choices;
use crate::counting::count_text;
use crate::lab_error::LabError;
use crate::report::{add_outcome, different_lines};
use crate::summary::all_in_order;
use crate::telling::Telling;
use crate::wording::add_number;
use ccan_outcomes::all_ports::AllPorts;
use ccan_script::RaceScript;
use ccan_search::Progress;
use std::alloc::{AllocError, Global};

/// The answer to what is asked about the outcomes of a script.
#[derive(Drop)]
pub struct Answer {
    /// What is printed.
    pub text: String,
    /// Whether it is as asked: an outcome has the lines, or none has them. A list of outcomes always is.
    pub holds: bool,
}

/// Adds a beginning, and a line feed.
pub fn add_ended(text: &mut String, begin: &str) -> Result<(), AllocError>
    ensures { OnOk result
        (string_bytes text.new ≡ string_bytes text.old ++ (begin.now ++ codes "\n")) }
{
    text.push_str(begin)?;
    text.push_str("\n")
}

/// Adds that it is a line that begins so.
fn add_line_not_had(text: &mut String, begin: &str) -> Result<(), AllocError>
    ensures { OnOk result (string_bytes text.new ≡ string_bytes text.old
        ++ (codes " has a line that begins so: " ++ (begin.now ++ codes "\n"))) }
{
    text.push_str(" has a line that begins so: ")?;
    add_ended(text, begin)
}

/// Adds that it is these lines together.
fn add_lines_not_had(text: &mut String, begins: &[&str]) -> Result<(), AllocError>
    ensures { OnOk result (string_bytes text.new ≡ string_bytes text.old
        ++ (codes " has lines that begin so:\n" ++ each_below (texts_of begins.now))) }
{
    text.push_str(" has lines that begin so:\n")?;
    add_each_below(text, begins)
}

/// Adds what no outcome has: a line that begins so, or lines that begin so.
pub fn add_not_had(text: &mut String, begins: &[&str]) -> Result<(), AllocError>
    ensures { OnOk result
        (string_bytes text.new ≡ string_bytes text.old ++ not_had (texts_of begins.now)) }
{
    if begins.len() == 1 {
        add_line_not_had(text, begins[0])
    } else {
        add_lines_not_had(text, begins)
    }
}

/// Adds each of these, below one another.
fn add_each_below(text: &mut String, begins: &[&str]) -> Result<(), AllocError>
    ensures { OnOk result
        (string_bytes text.new ≡ string_bytes text.old ++ each_below (texts_of begins.now)) }
{
    for begin in begins {
        add_below(text, begin)?;
    }
    Ok(())
}

/// Adds a beginning on a line of its own.
fn add_below(text: &mut String, begin: &str) -> Result<(), AllocError>
    ensures { OnOk result (string_bytes text.new
        ≡ string_bytes text.old ++ (codes "  " ++ (begin.now ++ codes "\n"))) }
{
    text.push_str("  ")?;
    add_ended(text, begin)
}

/// That no outcome has lines that begin so.
pub fn none_found(alloc: Global, outcomes: usize, begins: &[&str]) -> Result<String, AllocError>
    ensures { IfOk result (λ text. string_bytes text ≡ none_text outcomes (texts_of begins.now)) }
{
    let mut text = String::new(alloc);
    text.push_str("no outcome of ")?;
    add_number(&mut text, outcomes)?;
    add_not_had(&mut text, begins)?;
    Ok(text)
}

/// The number of outcomes, and the one of this number, from 0, with a history.
pub fn found_text<P: Progress>(
    alloc: Global,
    telling: &Telling<'_, P>,
    number: usize,
) -> Result<String, AllocError>
    requires can { CanBeTold (fields_of telling.now.query.now.race.now) telling.now.list.now }
    requires within { number < length (endings_in telling.now.list.now.words) }
    requires few { number < 2 ^ 64 - 1 }
    ensures { IfOk result (λ text. IsOneText (frames_in telling.now.list.now)
        telling.now.query.now.form (fields_of telling.now.query.now.race.now)
        (endings_in telling.now.list.now.words) number (string_bytes text)) }
{
    let words = &telling.list.words;
    let Some(ending) = words.ending(alloc, number as u64)? else {
        unreachable!()
    };
    let rows = all_choices(alloc, telling.query.race, words)?;
    let choices = all_in_order(alloc, rows.as_slice())?;
    let lines = different_lines(alloc, choices.as_slice(), &ending)?;
    let mut text = count_text(alloc, words.count())?;
    add_outcome(alloc, &mut text, telling, &ending, lines.as_str(), number)?;
    Ok(text)
}
