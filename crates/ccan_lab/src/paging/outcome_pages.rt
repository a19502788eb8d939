//! The outcomes of a script, as a page shows them.
ghost use Rattle.std.specs.Prelude.{◌≡◌, ◌+◌, ◌^◌, ◌++◌, ◌∷◌, [], ◌<◌, Some, IfErr, IfOk, OnOk, length, map, min, slice_get};
ghost use Rattle.ccan_outcomes.specs.RaceScript.{fields_of};
ghost use Rattle.ccan_outcomes.specs.OutcomeWords.{endings_in};
ghost use Rattle.ccan_lab.specs.Paging.{AreShown, IsShown, ShowsEndings, ShowsList, ShowsOutcomes};
ghost use Rattle.ccan_lab.specs.Paging.{line_of, line_stepped};
ghost use Rattle.ccan_lab.specs.Sorted.{all_texts};
ghost use Rattle.ccan_lab.specs.Telling.{CanBeTold, frames_in};
ghost use Rattle.ccan_lab.specs.Words.{HasNoWords};

use crate::choices::all_choices;
use crate::history_form::HistoryForm;
use crate::lab_error::LabError;
use crate::paging::PageQuestion;
use crate::paging::history_steps::{opening_of, shown_history};
use crate::paging::run_steps::ordered_steps;
use crate::replay::order_to;
use crate::report::different_lines;
use crate::summary::{add_same_parts, all_in_order};
use crate::telling::{Query, Telling, history_to, list_asked};
use ccan_outcomes::all_ports::AllPorts;
use ccan_outcomes::{Ending, History, HistoryStep, looking_once};
use ccan_page as page;
use ccan_page::{Outcome, Page};
use ccan_ram::PortName;
use ccan_script::RaceScript;
use ccan_search::Progress;
use std::alloc::{AllocError, Global};

/// An order of whole lines that leads to an outcome, and the steps of its run; none if no order is known.
#[derive(Drop)]
struct Ordered {
    order: Option<Vec<PortName>>,
    run: Vec<page::Step>,
}

/// The order that was found for a history, with its run.
fn ordered_of(
    alloc: Global,
    race: &RaceScript,
    frames: bool,
    ending: &Ending,
    steps: &[HistoryStep],
) -> Result<Ordered, AllocError> {
    match order_to(alloc, race, frames, ending, steps)? {
        Some(order) => {
            let run = ordered_steps(alloc, &race.script, order.as_slice())?;
            Ok(Ordered {
                order: Some(order),
                run,
            })
        }
        None => Ok(Ordered {
            order: None,
            run: Vec::new(alloc),
        }),
    }
}

/// The steps of a history, as a page shows them.
fn steps_shown(
    alloc: Global,
    race: &RaceScript,
    ending: &Ending,
    history: &History,
) -> Result<Vec<page::Step>, AllocError>
    requires { length history.now.states.items ≡ length history.now.steps.items + 1 }
    ensures { IfOk result (λ made.
        map line_of made.items ≡ map line_stepped history.now.steps.items) }
{
    let steps = history.steps.as_slice();
    shown_history(alloc, race, steps, history.states.as_slice(), ending)
}

/// The outcome of this place in the list, from 0.
fn outcome_at<P: Progress>(
    alloc: Global,
    telling: &Telling<'_, P>,
    choices: &[Vec<&str>],
    ending: &Ending,
    place: usize,
) -> Result<Outcome, AllocError>
    requires can { CanBeTold (fields_of telling.now.query.now.race.now) telling.now.list.now }
    requires at { slice_get (endings_in telling.now.list.now.words) place ≡ Some ending.now }
    requires few { place + 1 < 2 ^ 64 }
    ensures { IfOk result (IsShown (frames_in telling.now.list.now)
        (fields_of telling.now.query.now.race.now) (endings_in telling.now.list.now.words)
        (all_texts choices.now) place) }
{
    let race = telling.query.race;
    let history = history_to(alloc, telling, place)?;
    let steps = history.steps.as_slice();
    let frames = telling.list.words.numbers.frames;
    let Ordered { order, run } = ordered_of(alloc, race, frames, ending, steps)?;
    Ok(Outcome {
        number: place + 1,
        lines: different_lines(alloc, choices, ending)?,
        order,
        opening: opening_of(alloc, steps, ending)?,
        history: steps_shown(alloc, race, ending, &history)?,
        run,
    })
}

/// Adds an outcome to those that are shown.
fn add_shown(shown: &mut Vec<Outcome>, outcome: Outcome) -> Result<(), AllocError>
    ensures { OnOk result (shown.new.items ≡ shown.old.items ++ outcome ∷ []) }
{
    shown.push(outcome)?;
    Ok(())
}

/// The first outcomes of a list, at most so many.
fn outcomes_shown<P: Progress>(
    alloc: Global,
    telling: &Telling<'_, P>,
    choices: &[Vec<&str>],
    limit: usize,
) -> Result<Vec<Outcome>, AllocError>
    requires can { CanBeTold (fields_of telling.now.query.now.race.now) telling.now.list.now }
    ensures { IfOk result (λ shown. AreShown (frames_in telling.now.list.now)
        (fields_of telling.now.query.now.race.now) (endings_in telling.now.list.now.words)
        (all_texts choices.now)
        (min limit (length (endings_in telling.now.list.now.words))) shown.items) }
{
    let mut shown = Vec::new(alloc);
    for place in 0..limit {
        let Some(ending) = telling.list.words.ending(alloc, place as u64)? else {
            return Ok(shown);
        };
        let outcome = outcome_at(alloc, telling, choices, &ending, place)?;
        add_shown(&mut shown, outcome)?;
    }
    Ok(shown)
}

/// The page with these outcomes.
fn found_page<'a, P: Progress>(
    alloc: Global,
    telling: &Telling<'_, P>,
    limit: usize,
    mut page: Page<'a>,
) -> Result<Page<'a>, AllocError>
    requires can { CanBeTold (fields_of telling.now.query.now.race.now) telling.now.list.now }
    ensures file { IfOk result (λ made. made.file.now ≡ page.entry.file.now) }
    ensures shows { IfOk result (ShowsEndings (frames_in telling.now.list.now)
        (fields_of telling.now.query.now.race.now) (endings_in telling.now.list.now.words) limit) }
{
    let words = &telling.list.words;
    let rows = all_choices(alloc, telling.query.race, words)?;
    let choices = all_in_order(alloc, rows.as_slice())?;
    let mut same = String::new(alloc);
    add_same_parts(&mut same, choices.as_slice())?;
    page.same = same;
    page.count = words.count() as usize;
    page.outcomes = outcomes_shown(alloc, telling, choices.as_slice(), limit)?;
    Ok(page)
}

/// The page with the outcomes of a script, at most so many, as it is asked.
pub(crate) fn listed_page<'a, P: Progress>(
    alloc: Global,
    query: &Query<'_, P>,
    limit: usize,
    page: Page<'a>,
) -> Result<Page<'a>, LabError>
    ensures file { IfOk result (λ made. made.file.now ≡ page.entry.file.now) }
    ensures outcomes { IfOk result (ShowsList query.now.frames (fields_of query.now.race.now)
        ⟦<Ending as PartialEq>⟧.eq limit) }
    ensures without { IfErr result (HasNoWords query.now.frames
        (fields_of query.now.race.now) ⟦<AllPorts as PartialEq>⟧.eq query.now.most) }
{
    let list = list_asked(alloc, query)?;
    let telling = Telling { query, list: &list };
    Ok(found_page(alloc, &telling, limit, page)?)
}

/// The same page, on which a wait is shown by its last look, as `ccan-lab outcomes` shows it.
pub(crate) fn outcomes_page<'a, P: Progress>(
    alloc: Global,
    race: RaceScript,
    question: &PageQuestion<'_>,
    page: Page<'a>,
    progress: &P,
) -> Result<Page<'a>, LabError>
    ensures file { IfOk result (λ made. made.file.now ≡ page.entry.file.now) }
    ensures outcomes { IfOk result (ShowsOutcomes question.now.frames (fields_of race)
        ⟦<Ending as PartialEq>⟧.eq question.now.limit) }
{
    let race = looking_once(alloc, race)?;
    let query = Query {
        race: &race,
        frames: question.frames,
        most: question.most,
        progress,
        form: HistoryForm::EachStep,
    };
    listed_page(alloc, &query, question.limit, page)
}
