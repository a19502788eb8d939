ghost use Rattle.std.specs.Prelude.{◌≡◌, ◌≤◌, ◌==◌, option_map, length};
ghost use Rattle.std.specs.List.{list_all};
ghost use Rattle.ccan_ram.specs.Port.{port_text};
ghost use Rattle.ccan_script.specs.Print.{line_text, final_line, is_all_zero};

use crate::print_answer::push_answer;
use crate::printed_line::{PrintedLine, push_shown};
use ccan_line::LineAnswer;
use ccan_object::{ObjectNo, Record};
use ccan_ram::PortName;

/// The word that a line begins with.
fn port_word(port: PortName) -> &'static str
    ensures text { result.now ≡ port_text port }
    ensures len { length result.now ≤ 3 }
{
    match port {
        PortName::If1 => "if1",
        PortName::If2 => "if2",
        PortName::Bus => "bus",
    }
}

/// The printed line of an answer, its end included. Registers are in hexadecimal, error counters in decimal.
#[tactic(auto, unfolding(crate::specs::Print::line_text))]
pub fn print_line(port: PortName, answer: &LineAnswer) -> PrintedLine
    ensures { result.bytes ≡ line_text port answer.now }
{
    let mut line = PrintedLine::new();
    line.push_str(port_word(port));
    push_answer(&mut line, answer);
    line.push_str("\n");
    line
}

fn are_zero(bytes: &[u8]) -> bool
    ensures { result ≡ list_all (λ byte. byte == 0) bytes.now }
{
    bytes.iter().all(|byte| *byte == 0)
}

/// Whether every field of the record is zero.
#[tactic(auto, unfolding(crate::specs::Print::is_all_zero))]
fn is_all_zero(object: &Record) -> bool
    ensures { result ≡ is_all_zero object.now }
{
    object.arbitration() == 0
        && object.masks() == 0
        && object.control() == 0
        && are_zero(&object.bytes)
}

/// The printed line of an object at the end of a run, its end included. An object that is all zero has none.
#[tactic(auto, unfolding(crate::specs::Print::final_line))]
pub fn print_final(object: ObjectNo, left: &Record) -> Option<PrintedLine>
    ensures { option_map (λ line. line.bytes) result ≡ final_line object left.now }
{
    if is_all_zero(left) {
        return None;
    }
    let mut line = PrintedLine::new();
    push_shown(&mut line, "final", object, left);
    line.push_str("\n");
    Some(line)
}
