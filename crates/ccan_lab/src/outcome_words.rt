//! The outcomes of a script as words.
ghost use Rattle.std.specs.Prelude.{◌≡◌, IfErr, IfOk};
ghost use Rattle.std.specs.List.{IsDistinct};
ghost use Rattle.ccan_outcomes.specs.RaceScript.{fields_of};
ghost use Rattle.ccan_outcomes.specs.Ending.{AreAllEnds, AreOfRuns, AreOutcomes};
ghost use Rattle.ccan_outcomes.specs.OutcomeWords.{AreComplete, AreOfLines, endings_in};
ghost use Rattle.ccan_lab.specs.Telling.{CanBeTold};
ghost use Rattle.ccan_lab.specs.Words.{HasNoGraph, HasNoWords, IsGathered};

use crate::lab_error::LabError;
use ccan_outcomes::all_ports::AllPorts;
use ccan_outcomes::{
    AnswerGraph, Ending, LineEnds, OutcomeWords, answer_graph, line_ends_of, words_of_graph,
};
use ccan_script::RaceScript;
use ccan_search::Progress;
use std::alloc::{AllocError, Global};

/// All outcomes of a script, and the graph along which a history of each is found.
#[derive(Drop)]
pub struct OutcomeList {
    /// The outcomes.
    pub words: OutcomeWords,
    /// The graph that they are made of.
    pub graph: AnswerGraph,
}

/// All outcomes of a script, with the frames that won the bus or without, if their search comes to no more states than `most`, and
/// they need no more nodes.
pub fn list_of<P: Progress>(
    alloc: Global,
    race: &RaceScript,
    frames: bool,
    most: usize,
    progress: &P,
) -> Result<OutcomeList, LabError>
    ensures all { IfOk result (λ list.
        AreOutcomes (fields_of race.now) (endings_in list.words)) }
    ensures distinct { IfOk result (λ list.
        IsDistinct ⟦<Ending as PartialEq>⟧.eq (endings_in list.words)) }
    ensures ends { IfOk result (λ list.
        AreAllEnds frames (fields_of race.now) (endings_in list.words)) }
    ensures frames { IfOk result (λ list. list.words.numbers.frames ≡ frames) }
    ensures told { IfOk result (CanBeTold (fields_of race.now)) }
    ensures without { IfErr result
        (HasNoWords frames (fields_of race.now) ⟦<AllPorts as PartialEq>⟧.eq most) }
{
    let Some(graph) = answer_graph(alloc, race, most, progress)? else {
        return Err(LabError::More(most));
    };
    match words_of_graph(alloc, race, &graph, frames, most)? {
        Some(words) => Ok(OutcomeList { words, graph }),
        None => Err(LabError::Nodes(most)),
    }
}

/// The outcomes of a script, as they are gathered for the short list, and for a search for lines.
#[derive(Drop)]
pub enum Gathered {
    /// All of them, put together.
    Together(OutcomeList),
    /// How each line may end in them, by itself: they need too many nodes to be put together.
    Apart(LineEnds),
}

/// The outcomes of a script, with the frames that won the bus or without, if their search comes to no more states than `most`: put
/// together, unless they need more nodes.
pub fn gathered_of<P: Progress>(
    alloc: Global,
    race: &RaceScript,
    frames: bool,
    most: usize,
    progress: &P,
) -> Result<Gathered, LabError>
    ensures gathered { IfOk result
        (IsGathered frames (fields_of race.now) ⟦<Ending as PartialEq>⟧.eq most) }
    ensures without { IfErr result
        (HasNoGraph (fields_of race.now) ⟦<AllPorts as PartialEq>⟧.eq most) }
{
    let Some(graph) = answer_graph(alloc, race, most, progress)? else {
        return Err(LabError::More(most));
    };
    match words_of_graph(alloc, race, &graph, frames, most)? {
        Some(words) => Ok(Gathered::Together(OutcomeList { words, graph })),
        None => Ok(Gathered::Apart(line_ends_of(alloc, race, &graph, frames)?)),
    }
}

/// All these outcomes, one after the other.
pub fn all_endings(alloc: Global, words: &OutcomeWords) -> Result<Vec<Ending>, AllocError>
    ensures { IfOk result (λ endings. endings.items ≡ endings_in words.now) }
{
    let mut endings = Vec::new(alloc);
    for number in 0..usize::MAX {
        let Some(ending) = words.ending(alloc, number as u64)? else {
            return Ok(endings);
        };
        endings.push(ending)?;
    }
    // The loop has a bound, so that it ends. A list that comes to it answers as if memory was refused.
    Err(AllocError)
}
