//! The outcomes of a script, shown one by one, each with a history.
ghost use Rattle.std.specs.Prelude.{◌≡◌, ◌<◌, IfErr, IfOk, Some, length, slice_get};
ghost use Rattle.std.specs.List.{IsDistinct};
ghost use Rattle.ccan_outcomes.specs.RaceScript.{fields_of};
ghost use Rattle.ccan_outcomes.specs.Ending.{AreAllEnds, AreOutcomes};
ghost use Rattle.ccan_language.specs.Words.{IsWordFrom};
ghost use Rattle.ccan_outcomes.specs.declared.ending.Ending.{Ending};
ghost use Rattle.ccan_outcomes.specs.History.{IsHistoryOf, LeadThrough};
ghost use Rattle.ccan_outcomes.specs.OutcomeWords.{ending_of_word, endings_in};
ghost use Rattle.ccan_lab.specs.Telling.{CanBeTold, frames_in};
ghost use Rattle.ccan_lab.specs.Words.{HasNoWords};

use crate::history_form::HistoryForm;
use crate::lab_error::LabError;
use crate::outcome_words::{OutcomeList, list_of};
use ccan_language::Letter;
use ccan_outcomes::all_ports::AllPorts;
use ccan_outcomes::{Ending, History, history_of};
use ccan_script::RaceScript;
use ccan_search::Progress;
use std::alloc::{AllocError, Global};

/// What is asked of the outcomes of a script.
#[derive(Clone, Copy)]
pub struct Query<'a, P: Progress> {
    /// The script.
    pub race: &'a RaceScript,
    /// Whether outcomes are told apart by the frames that won the bus, and show them.
    pub frames: bool,
    /// How many states a search keeps at most, and how many nodes the words of the outcomes have.
    pub most: usize,
    /// What learns how far a search is.
    pub progress: &'a P,
    /// How histories are written.
    pub form: HistoryForm,
}

/// Outcomes of a script that are to be shown.
#[derive(Clone, Copy)]
pub struct Telling<'a, P: Progress> {
    /// What is asked of them.
    pub query: &'a Query<'a, P>,
    /// The outcomes.
    pub list: &'a OutcomeList,
}

/// All outcomes of the script, as it is asked.
pub fn list_asked<P: Progress>(alloc: Global, query: &Query<'_, P>) -> Result<OutcomeList, LabError>
    ensures all { IfOk result (λ list.
        AreOutcomes (fields_of query.now.race.now) (endings_in list.words)) }
    ensures distinct { IfOk result (λ list.
        IsDistinct ⟦<Ending as PartialEq>⟧.eq (endings_in list.words)) }
    ensures ends { IfOk result (λ list.
        AreAllEnds query.now.frames (fields_of query.now.race.now) (endings_in list.words)) }
    ensures frames { IfOk result (λ list. frames_in list ≡ query.now.frames) }
    ensures told { IfOk result (CanBeTold (fields_of query.now.race.now)) }
    ensures without { IfErr result (HasNoWords query.now.frames
        (fields_of query.now.race.now) ⟦<AllPorts as PartialEq>⟧.eq query.now.most) }
{
    list_of(alloc, query.race, query.frames, query.most, query.progress)
}

/// A history that leads to the outcome of this word.
pub fn history_by_word<P: Progress>(
    alloc: Global,
    telling: &Telling<'_, P>,
    word: Vec<Letter>,
) -> Result<History, AllocError>
    requires can { CanBeTold (fields_of telling.now.query.now.race.now) telling.now.list.now }
    requires said { IsWordFrom telling.now.list.now.words.graph.nodes.keys
        telling.now.list.now.words.start word.items }
    ensures history { IfOk result (λ history.
        IsHistoryOf (frames_in telling.now.list.now) (fields_of telling.now.query.now.race.now)
        (ending_of_word telling.now.list.now.words word.items) history.steps.items) }
    ensures states { IfOk result (λ history.
        LeadThrough (fields_of telling.now.query.now.race.now)
        history.steps.items history.states.items) }
{
    let OutcomeList { words, graph } = telling.list;
    history_of(alloc, telling.query.race, graph, words, word)
}

/// A history that leads to the outcome of this number, from 0.
pub fn history_to<P: Progress>(
    alloc: Global,
    telling: &Telling<'_, P>,
    number: usize,
) -> Result<History, AllocError>
    requires can { CanBeTold (fields_of telling.now.query.now.race.now) telling.now.list.now }
    requires within { number < length (endings_in telling.now.list.now.words) }
    ensures history { IfOk result (λ history. (ending : Ending)
        → slice_get (endings_in telling.now.list.now.words) number ≡ Some ending
        → IsHistoryOf (frames_in telling.now.list.now)
        (fields_of telling.now.query.now.race.now) ending history.steps.items) }
    ensures states { IfOk result (λ history.
        LeadThrough (fields_of telling.now.query.now.race.now)
        history.steps.items history.states.items) }
{
    let Some(word) = telling.list.words.word(alloc, number as u64)? else {
        unreachable!()
    };
    history_by_word(alloc, telling, word)
}
