ghost use Rattle.std.specs.Prelude.{◌≡◌, ◌≤◌, ◌+◌, ◌++◌, length, codes};
ghost use Rattle.arrayvec.specs.ArrayString.{array_string_len};
ghost use Rattle.ccan_script.specs.PrintedLine.{hex, field, bit_text};
ghost use Rattle.ccan_script.specs.Print.{answer_text, until_text, flags_text, control_text};

use crate::flag_name::flag_name;
use crate::print_bus::{push_counters, push_load, push_round, push_state};
use crate::printed_line::{PrintedLine, push_bit, push_hex, push_shown, push_verb};
use ccan_line::LineAnswer;
use ccan_object::{ObjectNo, Profile};
use ccan_ram::Flag;

/// Appends a word, and a register in four digits.
fn push_word(line: &mut PrintedLine, verb: &str, value: u16)
    requires { array_string_len line.old + length verb.now + 5 ≤ 80 }
    ensures bytes { line.new.bytes ≡ line.old.bytes ++ (verb.now ++ field (hex 4 value)) }
    ensures len { array_string_len line.new ≡ array_string_len line.old + length verb.now + 5 }
{
    line.push_str(verb);
    line.push_str(" ");
    push_hex(line, 4, u64::from(value));
}

/// Appends whether an object showed a flag.
#[tactic(auto, unfolding(crate::specs::Print::until_text))]
fn push_until(line: &mut PrintedLine, object: ObjectNo, flag: Flag, shown: bool)
    requires { array_string_len line.old + 30 ≤ 80 }
    ensures bytes { line.new.bytes ≡ line.old.bytes ++ until_text object flag shown }
    ensures len { array_string_len line.new ≤ array_string_len line.old + 30 }
{
    push_verb(line, " until", object);
    line.push_str(" ");
    line.push_str(flag_name(flag));
    line.push_str(if shown { " yes" } else { " no" });
}

/// Appends a flag of all objects, four objects a digit.
#[tactic(auto, unfolding(crate::specs::Print::flags_text))]
fn push_flags(line: &mut PrintedLine, flag: Flag, word: u64, profile: Profile)
    requires { array_string_len line.old + 30 ≤ 80 }
    ensures bytes { line.new.bytes ≡ line.old.bytes ++ flags_text flag word profile }
    ensures len { array_string_len line.new ≤ array_string_len line.old + 30 }
{
    line.push_str(" flags ");
    line.push_str(flag_name(flag));
    line.push_str(" ");
    push_hex(line, u32::from(profile.objects() / 4), word);
}

/// Appends SIE and EIE.
#[tactic(auto, unfolding(crate::specs::Print::control_text))]
fn push_control(line: &mut PrintedLine, sie: bool, eie: bool)
    requires { array_string_len line.old + 12 ≤ 80 }
    ensures bytes { line.new.bytes ≡ line.old.bytes ++ control_text sie eie }
    ensures len { array_string_len line.new ≡ array_string_len line.old + 12 }
{
    line.push_str(" control ");
    push_bit(line, sie);
    line.push_str(" ");
    push_bit(line, eie);
}

/// Appends whether loop back mode is on.
fn push_loop_back(line: &mut PrintedLine, on: bool)
    requires { array_string_len line.old + 11 ≤ 80 }
    ensures bytes { line.new.bytes ≡ line.old.bytes ++ (codes " loopback" ++ field (bit_text on)) }
    ensures len { array_string_len line.new ≡ array_string_len line.old + 11 }
{
    line.push_str(" loopback ");
    push_bit(line, on);
}

/// Appends what an answer says.
#[tactic(auto, unfolding(crate::specs::Print::answer_text))]
pub(crate) fn push_answer(line: &mut PrintedLine, answer: &LineAnswer)
    requires { array_string_len line.old ≤ 3 }
    ensures bytes { line.new.bytes ≡ line.old.bytes ++ answer_text answer.now }
    ensures len { array_string_len line.new ≤ 78 }
{
    match answer {
        LineAnswer::Write(object, buffer) => push_shown(line, " write", *object, buffer),
        LineAnswer::Read(object, buffer) => push_shown(line, " read", *object, buffer),
        LineAnswer::Busy(object) => push_verb(line, " busy", *object),
        LineAnswer::Spent(object) => push_verb(line, " spent", *object),
        LineAnswer::Until(object, flag, shown) => push_until(line, *object, *flag, *shown),
        LineAnswer::Interrupt(value) => push_word(line, " interrupt", *value),
        LineAnswer::Flags(flag, word, profile) => push_flags(line, *flag, *word, *profile),
        LineAnswer::Load(answer) => push_load(line, answer),
        LineAnswer::Round(answer) => push_round(line, answer),
        LineAnswer::Status(value) => push_word(line, " status", *value),
        LineAnswer::Control(sie, eie) => push_control(line, *sie, *eie),
        LineAnswer::Counters {
            node,
            tec,
            rec,
            state,
        } => push_counters(line, *node, *tec, *rec, *state),
        LineAnswer::Init => line.push_str(" init"),
        LineAnswer::Recessive(state) => push_state(line, " recessive", *state),
        LineAnswer::LoopBack(on) => push_loop_back(line, *on),
    }
}
