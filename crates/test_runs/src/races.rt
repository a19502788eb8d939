//! The outcomes of scripts in which two hosts race, worked by hand. Lists of outcomes are held to what can come of a script with
//! the program that prints them.
ghost use Rattle.std.specs.Prelude.{◌≡◌, Some, false, slice_get};
ghost use Rattle.ccan_outcomes.specs.RaceScript.{fields_of};
ghost use Rattle.ccan_outcomes.specs.AnswerGraph.{IsOfMachine};
ghost use Rattle.ccan_outcomes.specs.LineEnds.{AreSaidOfLines};
ghost use Rattle.ccan_outcomes.specs.Observed.{AreImages};
ghost use Rattle.ccan_outcomes.specs.OutcomeWords.{AreOfLines, endings_in};
ghost use Rattle.ccan_outcomes.specs.WordWays.{AreOfGraph};

use crate::expect::{holds, same};
use crate::runs::read;
use arrayvec::ArrayVec;
use ccan_accept::Frame;
use ccan_bus::{Bus, Fault, RoundAnswer, RoundLine};
use ccan_line::LineEnd;
use ccan_object::{ObjectNo, Profile, Record};
use ccan_outcomes::all_ports::AllPorts;
use ccan_outcomes::{
    AnswerGraph, ByLine, Ending, HistoryKind, HistoryStep, LineEnds, Observed, OutcomeWords,
    answer_graph, history_of, line_ends_of, words_of_graph,
};
use ccan_ram::{Array, PortName, Tries};
use ccan_script::{LineAnswer, RaceScript, read_race};
use ccan_search::Untold;
use std::alloc::Global;
use std::process::Abort;

/// Both hosts write object 1.
const TWO_WRITES: &str = r#"{
    "if1":[{"op":"transfer","request":"0001","set":{"cmask":"0082","dataa1":"1111"}}],
    "if2":[{"op":"transfer","request":"0001","set":{"cmask":"0082","dataa1":"2222"}}]
}"#;

/// They do, and may try it once.
const ONE_TRY: &str = r#"{
    "tries":1,
    "if1":[{"op":"transfer","request":"0001","set":{"cmask":"0082","dataa1":"1111"}}],
    "if2":[{"op":"transfer","request":"0001","set":{"cmask":"0082","dataa1":"2222"}}]
}"#;

/// They do, but one wrote before the other begins.
const ONE_BEHIND_THE_OTHER: &str = r#"{
    "before":["if1"],
    "if1":[{"op":"transfer","request":"0001","set":{"cmask":"0082","dataa1":"1111"}}],
    "if2":[{"op":"transfer","request":"0001","set":{"cmask":"0082","dataa1":"2222"}}]
}"#;

/// A host sets up object 1, and a frame comes, before the host reads it.
const READ_BEHIND_A_FRAME: &str = r#"{
    "nodes":1,
    "before":["if1","bus"],
    "if1":[{"op":"transfer","request":"0001","set":{"cmask":"00B0","arb2":"848C","ctrl":"0088"}},
           {"op":"transfer","request":"0001","set":{"cmask":"0073"}}],
    "bus":[{"op":"round","send":[{"node":1,"id":291,"dlc":2,"data":"2222"}]}]
}"#;

/// One host writes object 1, and the other reads it twice.
const TWO_READS: &str = r#"{
    "if1":[{"op":"transfer","request":"0001","set":{"cmask":"0082","dataa1":"1111"}}],
    "if2":[{"op":"transfer","request":"0001","set":{"cmask":"0002"}},
           {"op":"transfer","request":"0001","set":{"cmask":"0002"}}]
}"#;

/// A write, while the bus clears Init before its first step.
const WRITE_AND_INIT: &str = r#"{
    "if1":[{"op":"transfer","request":"0001","set":{"cmask":"0082","dataa1":"1111"}}],
    "bus":[{"op":"init"}]
}"#;

/// A host writes object 1 whole, with a frame to be sent, and then its data again. The bus has one round.
const WRITE_BEFORE_A_ROUND: &str = r#"{
    "if1":[{"op":"transfer","request":"0001","set":{"cmask":"00B2","arb2":"A48C","ctrl":"0182","dataa1":"1111"}},
           {"op":"transfer","request":"0001","set":{"cmask":"0082","dataa1":"2222"}}],
    "bus":[{"op":"round"}]
}"#;

/// A host writes object 1 whole, with a frame to be sent, and then sets IntPnd of it and takes the request back. The bus has one
/// round in loop back mode.
const WRITE_BEFORE_A_LOOP: &str = r#"{
    "if1":[{"op":"transfer","request":"0001","set":{"cmask":"00B2","arb2":"A48C","ctrl":"0182","dataa1":"1111"}},
           {"op":"transfer","request":"0001","set":{"cmask":"0090","ctrl":"2082"}}],
    "bus":[{"op":"loopback","on":1},{"op":"round"}]
}"#;

/// The race that a text says.
fn race_of(rt: &impl Abort, alloc: Global, text: &str) -> RaceScript {
    match read_race(alloc, text.as_bytes()) {
        Ok(race) => race,
        Err(_) => panic!(rt; "no script"),
    }
}

/// Holds a history to four steps, each of line 1 at object 1, the last of which writes.
fn writes_at_last(rt: &impl Abort, history: &[HistoryStep]) {
    same(rt, history.len(), 4);
    let mut is_write = false;
    for step in history {
        same(rt, step.line, 1);
        same(rt, step.object, ObjectNo::new(1));
        is_write = matches!(step.kind, HistoryKind::Writes);
    }
    holds(rt, is_write);
}

/// The graph of a script's outcomes.
fn graph(rt: &impl Abort, alloc: Global, text: &str) -> AnswerGraph {
    let race = race_of(rt, alloc, text);
    match answer_graph(alloc, &race, 1000, &Untold) {
        Ok(Some(found)) => found,
        Ok(None) | Err(_) => panic!(rt; "not all outcomes"),
    }
}

/// How many states the graph of a script's outcomes has from which no edge leads.
fn ends(rt: &impl Abort, alloc: Global, text: &str) -> usize {
    let mut ends: usize = 0;
    for edges in &graph(rt, alloc, text).graph.edges {
        if edges.is_empty() {
            ends = ends.saturating_add(1);
        }
    }
    ends
}

#[test]
fn has_no_more_ends_than_states_differ(rt: HostRuntime) {
    // Either host may write last.
    same(&rt, ends(&rt, rt.alloc(), TWO_WRITES), 2);
    // All three outcomes leave the same object, and after its last line no host needs what its reads have left in its registers.
    same(&rt, ends(&rt, rt.alloc(), TWO_READS), 1);
}

#[test]
fn makes_each_attempt_at_once(rt: HostRuntime) {
    // No write is made, or both in either order: no state in which a host has looked and not yet written. After one write the
    // other host alone goes on, so that state is passed.
    same(
        &rt,
        graph(&rt, rt.alloc(), TWO_WRITES).graph.states.len(),
        3,
    );
}

#[test]
fn finds_who_loses_the_only_try(rt: HostRuntime) {
    // Either host's data stand at the end, whether the other wrote before or was busy: the answers are not kept, nor how many
    // changes each made, since none can make more than it may.
    same(&rt, ends(&rt, rt.alloc(), ONE_TRY), 2);
}

/// The outcomes of a script as words, told apart by the frames that won the bus or not.
fn words_with(rt: &impl Abort, alloc: Global, text: &str, frames: bool) -> OutcomeWords
    ensures { AreOfLines result }
{
    let race = race_of(rt, alloc, text);
    match answer_graph(alloc, &race, 1000, &Untold) {
        Ok(Some(graph)) => match words_of_graph(alloc, &race, &graph, frames, 1000) {
            Ok(Some(words)) => words,
            Ok(None) | Err(_) => panic!(rt; "not all words"),
        },
        Ok(None) | Err(_) => panic!(rt; "not all outcomes"),
    }
}

/// The outcomes of a script as words.
fn words(rt: &impl Abort, alloc: Global, text: &str) -> OutcomeWords
    ensures { AreOfLines result }
{
    words_with(rt, alloc, text, false)
}

/// The outcome with this number.
fn numbered(rt: &impl Abort, alloc: Global, words: &OutcomeWords, number: u64) -> Ending
    ensures { slice_get (endings_in words.now) number ≡ Some result }
{
    match words.ending(alloc, number) {
        Ok(Some(ending)) => ending,
        Ok(None) | Err(_) => panic!(rt; "no such outcome"),
    }
}

/// The first data byte of a record.
fn first_byte(record: &Record) -> u8 {
    record.bytes[0]
}

/// What the two reads of IF2 show, and what the first object holds at the end, by the first data byte.
fn read_and_left(rt: &impl Abort, ending: &Ending) -> (u8, u8, u8) {
    match (ending.if2.as_slice(), ending.records.as_slice().first()) {
        (
            [
                LineEnd {
                    answer: LineAnswer::Read(_, first),
                    ..
                },
                LineEnd {
                    answer: LineAnswer::Read(_, second),
                    ..
                },
            ],
            Some(left),
        ) => (first_byte(first), first_byte(second), first_byte(left)),
        _ => panic!(rt; "not two reads"),
    }
}

/// Whether one of the three outcomes shows this.
fn is_shown(rt: &impl Abort, alloc: Global, words: &OutcomeWords, wanted: (u8, u8, u8)) -> bool {
    for number in 0..3 {
        if read_and_left(rt, &numbered(rt, alloc, words, number)) == wanted {
            return true;
        }
    }
    false
}

#[test]
fn says_each_outcome_by_its_number(rt: HostRuntime) {
    // The two reads show what was there before the write, what it left, or one of each; the object holds what it left.
    let words = words(&rt, rt.alloc(), TWO_READS);
    same(&rt, words.count(), 3);
    holds(&rt, is_shown(&rt, rt.alloc(), &words, (0, 0, 0x11)));
    holds(&rt, is_shown(&rt, rt.alloc(), &words, (0, 0x11, 0x11)));
    holds(&rt, is_shown(&rt, rt.alloc(), &words, (0x11, 0x11, 0x11)));
    holds(&rt, matches!(words.ending(rt.alloc(), 3), Ok(None)));
}

/// In how many ways a line of a port ends in the outcomes.
fn ends_at<L: ByLine>(
    rt: &impl Abort,
    outcomes: &L,
    alloc: Global,
    port: PortName,
    line: usize,
) -> usize
    requires { L.has_all outcomes.now }
{
    match outcomes.ends_at(alloc, port, line) {
        Ok(ends) => ends.len(),
        Err(_) => panic!(rt; "memory"),
    }
}

/// How many memories the outcomes end with.
fn memories<L: ByLine>(rt: &impl Abort, outcomes: &L, alloc: Global) -> usize
    requires { L.has_all outcomes.now }
{
    match outcomes.memories(alloc) {
        Ok(memories) => memories.len(),
        Err(_) => panic!(rt; "memory"),
    }
}

/// Holds what the lines of two reads may answer. IF1 writes once. Each read of IF2 shows what was there before the write, or what it
/// left, and so ends each outcome.
fn hold_two_reads<L: ByLine>(rt: &impl Abort, outcomes: &L, alloc: Global)
    requires { L.has_all outcomes.now }
{
    same(rt, ends_at(rt, outcomes, alloc, PortName::If1, 0), 1);
    same(rt, ends_at(rt, outcomes, alloc, PortName::If2, 0), 2);
    same(rt, ends_at(rt, outcomes, alloc, PortName::If2, 1), 2);
    // There are no such lines.
    same(rt, ends_at(rt, outcomes, alloc, PortName::If2, 2), 0);
    same(rt, ends_at(rt, outcomes, alloc, PortName::Bus, 0), 0);
    same(rt, memories(rt, outcomes, alloc), 1);
}

#[test]
fn says_what_each_line_may_answer(rt: HostRuntime) {
    let words = words(&rt, rt.alloc(), TWO_READS);
    hold_two_reads(&rt, &words, rt.alloc());
}

/// How each line of a script may end, without the words of its outcomes.
fn line_ends(rt: &impl Abort, alloc: Global, text: &str) -> LineEnds
    ensures { AreSaidOfLines result }
{
    let race = race_of(rt, alloc, text);
    match answer_graph(alloc, &race, 1000, &Untold) {
        Ok(Some(graph)) => match line_ends_of(alloc, &race, &graph, false) {
            Ok(lines) => lines,
            Err(_) => panic!(rt; "memory"),
        },
        Ok(None) | Err(_) => panic!(rt; "not all outcomes"),
    }
}

#[test]
fn says_what_each_line_may_answer_without_words(rt: HostRuntime) {
    let lines = line_ends(&rt, rt.alloc(), TWO_READS);
    hold_two_reads(&rt, &lines, rt.alloc());
}

/// What the first object holds at the end of this outcome, by the first data byte.
fn left(rt: &impl Abort, alloc: Global, words: &OutcomeWords, number: u64) -> u8 {
    let ending = numbered(rt, alloc, words, number);
    match ending.records.as_slice().first() {
        Some(record) => first_byte(record),
        None => panic!(rt; "no object"),
    }
}

/// Whether the next lines of these ports may run before the race of two writes.
fn may_run_before(rt: &impl Abort, alloc: Global, names: &[PortName]) -> bool {
    let script = read(rt, alloc, TWO_WRITES);
    match Vec::from_slice(alloc, names) {
        Ok(before) => RaceScript::behind(script, before).is_some(),
        Err(_) => panic!(rt; "no memory"),
    }
}

#[test]
fn lets_lines_run_before_a_race(rt: HostRuntime) {
    // Each host has one line, and the bus none.
    let both = [PortName::If2, PortName::If1];
    let twice = [PortName::If1, PortName::If1];
    holds(&rt, may_run_before(&rt, rt.alloc(), &both));
    holds(&rt, !may_run_before(&rt, rt.alloc(), &twice));
    holds(&rt, !may_run_before(&rt, rt.alloc(), &[PortName::Bus]));
}

#[test]
fn begins_behind_what_runs_before_a_race(rt: HostRuntime) {
    // IF1 has written, so the write of IF2 is the last.
    let outcomes = words(&rt, rt.alloc(), ONE_BEHIND_THE_OTHER);
    same(&rt, outcomes.count(), 1);
    same(&rt, left(&rt, rt.alloc(), &outcomes, 0), 0x22);
}

#[test]
fn begins_behind_a_frame_that_came_before_a_race(rt: HostRuntime) {
    // The frame is there, so there is one thing to read.
    let outcomes = words_with(&rt, rt.alloc(), READ_BEHIND_A_FRAME, true);
    same(&rt, outcomes.count(), 1);
    same(&rt, left(&rt, rt.alloc(), &outcomes, 0), 0x22);
    holds(&rt, sent(&rt, rt.alloc(), &outcomes, 0) == Some(0x22));
}

#[test]
fn says_the_memory_and_what_is_answered_at_once(rt: HostRuntime) {
    // Either host may write last, and each write answers the same in both outcomes: the object tells them apart.
    let races = words(&rt, rt.alloc(), TWO_WRITES);
    same(&rt, races.count(), 2);
    let first = left(&rt, rt.alloc(), &races, 0);
    let second = left(&rt, rt.alloc(), &races, 1);
    holds(
        &rt,
        (first, second) == (0x11, 0x22) || (first, second) == (0x22, 0x11),
    );
    let alone = words(&rt, rt.alloc(), WRITE_AND_INIT);
    same(&rt, alone.count(), 1);
    let ending = numbered(&rt, rt.alloc(), &alone, 0);
    holds(
        &rt,
        ending.bus.as_slice() == [LineEnd::unframed(LineAnswer::Init)].as_slice(),
    );
}

/// What can be told apart of these outcomes by these marks: for IF1's lines, IF2's, the bus's, and then for the objects.
fn observed(rt: &impl Abort, alloc: Global, words: &OutcomeWords, marks: &[bool]) -> Observed
    requires { AreOfLines words.now }
    ensures { AreImages words.now result }
{
    match words.observed(alloc, marks, 1000) {
        Ok(Some(observed)) => observed,
        Ok(None) | Err(_) => panic!(rt; "not all that is looked at"),
    }
}

/// What the second read of IF2 shows in an outcome that shows what the word of this number says.
fn second_read(
    rt: &impl Abort,
    alloc: Global,
    words: &OutcomeWords,
    observed: &Observed,
    number: u64,
) -> Option<u8>
    requires { AreImages words.now observed.now }
{
    let word = match words.observed_word(alloc, observed, number) {
        Ok(found) => found?,
        Err(_) => panic!(rt; "no memory"),
    };
    match words.ending_of(alloc, word.as_slice()) {
        Ok(ending) => Some(read_and_left(rt, &ending).1),
        Err(_) => panic!(rt; "no memory"),
    }
}

#[test]
fn tells_apart_what_is_looked_at(rt: HostRuntime) {
    // The second read shows what was there before the write, or what it left. If nothing is looked at, all outcomes are one, and
    // so they are by the object, which holds at the end what the write left.
    let words = words(&rt, rt.alloc(), TWO_READS);
    let second = observed(&rt, rt.alloc(), &words, &[false, false, true]);
    let one = second_read(&rt, rt.alloc(), &words, &second, 0);
    let other = second_read(&rt, rt.alloc(), &words, &second, 1);
    holds(
        &rt,
        (one, other) == (Some(0), Some(0x11)) || (one, other) == (Some(0x11), Some(0)),
    );
    holds(
        &rt,
        second_read(&rt, rt.alloc(), &words, &second, 2).is_none(),
    );
    let nothing = observed(&rt, rt.alloc(), &words, &[]);
    holds(
        &rt,
        second_read(&rt, rt.alloc(), &words, &nothing, 0).is_some(),
    );
    holds(
        &rt,
        second_read(&rt, rt.alloc(), &words, &nothing, 1).is_none(),
    );
    let object = observed(&rt, rt.alloc(), &words, &[false, false, false, true]);
    holds(
        &rt,
        second_read(&rt, rt.alloc(), &words, &object, 0).is_some(),
    );
    holds(
        &rt,
        second_read(&rt, rt.alloc(), &words, &object, 1).is_none(),
    );
}

/// Holds the last of these states to the first object of an outcome, and the state before any step to a memory that is zero.
fn ends_with(rt: &impl Abort, states: &[AllPorts], ending: &Ending) {
    match (states.first(), states.last()) {
        (Some(first), Some(last)) => {
            same(rt, first.records.as_slice().first().copied(), None);
            same(
                rt,
                last.records.as_slice().first(),
                ending.records.as_slice().first(),
            );
        }
        (Some(_), None) | (None, _) => panic!(rt; "no state"),
    }
}

/// Holds each outcome to a history of four steps.
fn hold_histories(
    rt: &impl Abort,
    alloc: Global,
    race: &RaceScript,
    graph: &AnswerGraph,
    words: &OutcomeWords,
)
    requires machine { IsOfMachine (fields_of race.now) graph.now }
    requires words { AreOfGraph (fields_of race.now) graph.now words.now }
{
    for number in 0..words.count() {
        let ending = numbered(rt, alloc, words, number);
        let Ok(Some(word)) = words.word(alloc, number) else {
            panic!(rt; "no such outcome")
        };
        match history_of(alloc, race, graph, words, word) {
            Ok(history) => {
                writes_at_last(rt, history.steps.as_slice());
                same(rt, history.states.len(), 5);
                ends_with(rt, history.states.as_slice(), &ending);
            }
            Err(_) => panic!(rt; "no memory"),
        }
    }
}

/// How many outcomes a script has. Each has to have such a history.
fn told(rt: &impl Abort, alloc: Global, text: &str) -> u64 {
    let race = race_of(rt, alloc, text);
    match answer_graph(alloc, &race, 1000, &Untold) {
        Ok(Some(graph)) => match words_of_graph(alloc, &race, &graph, false, 1000) {
            Ok(Some(words)) => {
                hold_histories(rt, alloc, &race, &graph, &words);
                words.count()
            }
            Ok(None) | Err(_) => panic!(rt; "not all words"),
        },
        Ok(None) | Err(_) => panic!(rt; "not all outcomes"),
    }
}

#[test]
fn answers_a_history_of_each_outcome(rt: HostRuntime) {
    // A look and a change of each host lead to an end, so four steps after the start. Either host may write last.
    same(&rt, told(&rt, rt.alloc(), TWO_WRITES), 2);
}

/// How a round ends in which node 1 sends this frame, and no object takes it.
fn round_end(rt: &impl Abort, frame: Frame) -> LineEnd {
    let mut sends = ArrayVec::new();
    sends.push((1, frame));
    let Some(line) = RoundLine::new(1, sends, Fault::Quiet) else {
        panic!(rt; "no round")
    };
    let Some(tries) = Tries::new(1) else {
        panic!(rt; "no try")
    };
    let mut ram = Array::new(Profile::One, 1);
    let report = Bus::new(Profile::One, 1).report_round(&mut ram, &line, tries);
    LineEnd::reported(&report)
}

#[test]
fn reports_the_frame_of_a_round(rt: HostRuntime) {
    let Ok(sent) = Frame::new(0x123, false, false, 0, [0; 8]) else {
        panic!(&rt; "no frame")
    };
    let end = round_end(&rt, sent);
    holds(
        &rt,
        end.answer == LineAnswer::Round(RoundAnswer::Received(None)),
    );
    holds(&rt, end.frame == Some(sent));
}

/// The first data byte of the frame that won the bus in the round of this outcome, if there was one and it is reported.
fn sent(rt: &impl Abort, alloc: Global, words: &OutcomeWords, number: u64) -> Option<u8> {
    match numbered(rt, alloc, words, number).bus.as_slice() {
        [LineEnd { frame, .. }] => frame.map(|frame| frame.bytes()[0]),
        _ => panic!(rt; "not one round"),
    }
}

/// Whether one of so many outcomes has this frame.
fn is_sent(
    rt: &impl Abort,
    alloc: Global,
    words: &OutcomeWords,
    count: u64,
    wanted: Option<u8>,
) -> bool {
    for number in 0..count {
        if sent(rt, alloc, words, number) == wanted {
            return true;
        }
    }
    false
}

#[test]
fn tells_the_frames_that_are_asked_for(rt: HostRuntime) {
    // The round is before the first write, between both, or after them: no frame, one with the data of the first write, or one
    // with those of the second. The last two answer alike and leave the same.
    let framed = words_with(&rt, rt.alloc(), WRITE_BEFORE_A_ROUND, true);
    same(&rt, framed.count(), 3);
    holds(&rt, is_sent(&rt, rt.alloc(), &framed, 3, None));
    holds(&rt, is_sent(&rt, rt.alloc(), &framed, 3, Some(0x11)));
    holds(&rt, is_sent(&rt, rt.alloc(), &framed, 3, Some(0x22)));
    let unframed = words_with(&rt, rt.alloc(), WRITE_BEFORE_A_ROUND, false);
    same(&rt, unframed.count(), 2);
    holds(&rt, sent(&rt, rt.alloc(), &unframed, 0).is_none());
    holds(&rt, sent(&rt, rt.alloc(), &unframed, 1).is_none());
}

#[test]
fn tells_an_end_with_its_frame_or_without(rt: HostRuntime) {
    let Ok(frame) = Frame::new(0x123, false, false, 1, [0x11, 0, 0, 0, 0, 0, 0, 0]) else {
        panic!(rt; "no frame")
    };
    let ended = LineEnd {
        answer: LineAnswer::Init,
        frame: Some(frame),
    };
    holds(&rt, ended.told(true) == ended);
    holds(
        &rt,
        ended.told(false) == LineEnd::unframed(LineAnswer::Init),
    );
}

#[test]
fn tells_no_record_that_no_line_shows(rt: HostRuntime) {
    // The round finds no request, before the first write or after the second, and sends nothing. Or it sends object 1, and the
    // second write comes before the end of the transmission or after it. That end leaves IntPnd in the one case alone, but no line
    // shows what it leaves: so these are one outcome, also by their frames.
    let unframed = words_with(&rt, rt.alloc(), WRITE_BEFORE_A_LOOP, false);
    same(&rt, unframed.count(), 2);
    let framed = words_with(&rt, rt.alloc(), WRITE_BEFORE_A_LOOP, true);
    same(&rt, framed.count(), 2);
}

/// The end of a round in loop back mode: object 1 was sent, with this record after its finish, and stored the frame as this one.
fn looped(object: ObjectNo, finished: Record, stored: Record) -> LineEnd {
    let storing = Some((object, stored));
    LineEnd::unframed(LineAnswer::Round(RoundAnswer::Looped(object, finished, storing)))
}

/// A record with MsgVal alone.
fn valid() -> Record {
    Record {
        valid: true,
        ..Record::zero()
    }
}

#[test]
fn tells_an_end_without_the_record_of_a_sent_object(rt: HostRuntime) {
    let Some(object) = ObjectNo::new(1) else {
        panic!(rt; "no object")
    };
    let told = looped(object, Record::zero(), valid());
    holds(&rt, looped(object, valid(), valid()).told(true) == told);
    let sent = LineEnd::unframed(LineAnswer::Round(RoundAnswer::Sent(object, valid())));
    holds(&rt, sent.told(true) == sent);
}
