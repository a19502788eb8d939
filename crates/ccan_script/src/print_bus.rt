ghost use Rattle.std.specs.Prelude.{◌≡◌, ◌≤◌, ◌+◌, ◌++◌, length};
ghost use Rattle.arrayvec.specs.ArrayString.{array_string_len};
ghost use Rattle.ccan_script.specs.PrintedLine.{field};
ghost use Rattle.ccan_script.specs.Print.{state_text, counters_text, load_text, round_text, looped_text};

use crate::printed_line::{
    PrintedLine, push_number, push_object, push_record, push_shown, push_verb,
};
use ccan_bus::{LoadAnswer, RoundAnswer};
use ccan_confine::NodeState;
use ccan_object::{ObjectNo, Record};

/// The word for the state of a node.
#[tactic(auto, unfolding(crate::specs::Print::state_text))]
fn state_word(state: NodeState) -> &'static str
    ensures text { result.now ≡ state_text state }
    ensures len { length result.now ≤ 7 }
{
    match state {
        NodeState::Active => "active",
        NodeState::Passive => "passive",
        NodeState::Off => "off",
    }
}

/// Appends a word, and the state of a node.
pub(crate) fn push_state(line: &mut PrintedLine, verb: &str, state: NodeState)
    requires { array_string_len line.old + length verb.now + 8 ≤ 80 }
    ensures bytes { line.new.bytes ≡ line.old.bytes ++ (verb.now ++ field (state_text state)) }
    ensures len { array_string_len line.new ≤ array_string_len line.old + length verb.now + 8 }
{
    line.push_str(verb);
    line.push_str(" ");
    line.push_str(state_word(state));
}

/// Appends the error counters of a node, and its state.
#[tactic(auto, unfolding(crate::specs::Print::counters_text))]
pub(crate) fn push_counters(line: &mut PrintedLine, node: u8, tec: u16, rec: u16, state: NodeState)
    requires { array_string_len line.old + 40 ≤ 80 }
    ensures bytes { line.new.bytes ≡ line.old.bytes ++ counters_text node tec rec state }
    ensures len { array_string_len line.new ≤ array_string_len line.old + 40 }
{
    line.push_str(" counters");
    push_number(line, u16::from(node));
    push_number(line, tec);
    push_number(line, rec);
    line.push_str(" ");
    line.push_str(state_word(state));
}

/// Appends what came of a load.
#[tactic(auto, unfolding(crate::specs::Print::load_text))]
pub(crate) fn push_load(line: &mut PrintedLine, answer: &LoadAnswer)
    requires { array_string_len line.old ≤ 3 }
    ensures bytes { line.new.bytes ≡ line.old.bytes ++ load_text answer.now }
    ensures len { array_string_len line.new ≤ 78 }
{
    match answer {
        LoadAnswer::Loaded(object, started) => push_shown(line, " loaded", *object, started),
        LoadAnswer::Held(object) => push_verb(line, " held", *object),
        LoadAnswer::Nothing => line.push_str(" loaded none"),
        LoadAnswer::Busy(object) => push_verb(line, " busy", *object),
        LoadAnswer::Spent(object) => push_verb(line, " spent", *object),
    }
}

/// Appends the object that was sent in loop back mode, and the one that stored its frame.
#[tactic(auto, unfolding(crate::specs::Print::looped_text))]
fn push_looped(line: &mut PrintedLine, sent: ObjectNo, storing: &Option<(ObjectNo, Record)>)
    requires { array_string_len line.old ≤ 3 }
    ensures bytes { line.new.bytes ≡ line.old.bytes ++ looped_text sent storing.now }
    ensures len { array_string_len line.new ≤ 78 }
{
    push_verb(line, " looped", sent);
    match storing {
        Some((object, stored)) => {
            line.push_str(" ");
            push_object(line, *object);
            push_record(line, stored);
        }
        None => line.push_str(" none"),
    }
}

/// Appends what came of a round.
#[tactic(auto, unfolding(crate::specs::Print::round_text))]
pub(crate) fn push_round(line: &mut PrintedLine, answer: &RoundAnswer)
    requires { array_string_len line.old ≤ 3 }
    ensures bytes { line.new.bytes ≡ line.old.bytes ++ round_text answer.now }
    ensures len { array_string_len line.new ≤ 78 }
{
    match answer {
        RoundAnswer::Idle => line.push_str(" idle"),
        RoundAnswer::Sent(object, finished) => push_shown(line, " sent", *object, finished),
        RoundAnswer::Received(Some((object, stored))) => {
            push_shown(line, " received", *object, stored)
        }
        RoundAnswer::Received(None) => line.push_str(" received none"),
        RoundAnswer::Passed => line.push_str(" passed"),
        RoundAnswer::Collision => line.push_str(" collision"),
        RoundAnswer::NoAck => line.push_str(" ack"),
        RoundAnswer::Fault => line.push_str(" fault"),
        RoundAnswer::Looped(object, _, storing) => push_looped(line, *object, storing),
        RoundAnswer::Busy(object) => push_verb(line, " busy", *object),
        RoundAnswer::Spent(object) => push_verb(line, " spent", *object),
    }
}
