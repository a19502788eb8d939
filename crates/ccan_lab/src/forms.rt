//! The forms of a host's lines, and whether a line of a form can begin with a text. A form is the text of a line in which the
//! digits of registers and of error counters are left open.
ghost use Rattle.std.specs.Prelude.{◌≡◌, ◌+◌, ◌≤◌, ◌++◌, length, slice_get};
ghost use Rattle.arrayvec.specs.ArrayString.{array_string_len};
ghost use Rattle.ccan_ram.specs.Port.{port_text};
ghost use Rattle.ccan_script.specs.FlagName.{flag_name};
ghost use Rattle.ccan_script.specs.Print.{line_text};
ghost use Rattle.ccan_script.specs.PrintedLine.{verb_text};
ghost use Rattle.ccan_lab.specs.Forms.{begins, flags_form, host_begins, interrupt_begins, is_between};
ghost use Rattle.ccan_lab.specs.Forms.{is_capital, is_decimal, is_hexadecimal, is_marked, is_of_counters, shown_form};
ghost use Rattle.ccan_lab.specs.Forms.{stands_for, transfer_begins, until_begins, word_form};

use crate::history::port_word;
use ccan_object::{ObjectNo, Profile};
use ccan_ram::{Flag, PortName};
use ccan_script::{HostLine, LineAnswer, PrintedLine, print_line};

/// The four fields of a record, and the end of the line. `#` is any hexadecimal digit in lower case.
pub(crate) const RECORD: &str = " ######## ######## #### ################\n";

/// Whether a byte is one of these.
fn is_between(least: u8, greatest: u8, byte: u8) -> bool
    ensures { result ≡ is_between least greatest byte }
{
    least <= byte && byte <= greatest
}

/// Whether it is a decimal digit.
fn is_decimal(byte: u8) -> bool
    ensures { result ≡ is_decimal byte }
{
    is_between(b'0', b'9', byte)
}

/// Whether it is a hexadecimal digit, in lower case.
fn is_hexadecimal(byte: u8) -> bool
    ensures { result ≡ is_hexadecimal byte }
{
    is_decimal(byte) || is_between(b'a', b'f', byte)
}

/// Whether it is a hexadecimal digit of a frame, in upper case.
fn is_capital(byte: u8) -> bool
    ensures { result ≡ is_capital byte }
{
    is_decimal(byte) || is_between(b'A', b'F', byte)
}

/// Whether it may come after `bus counters`: in a number, in the state of a node, between them, or at the end of the line.
fn is_of_counters(byte: u8) -> bool
    ensures { result ≡ is_of_counters byte }
{
    is_decimal(byte) || is_between(b'a', b'z', byte) || byte == b' ' || byte == b'\n'
}

/// Whether a byte may be where a form has this mark.
fn stands_for(mark: u8, byte: u8) -> bool
    ensures { result ≡ stands_for mark byte }
{
    match mark {
        b'#' => is_hexadecimal(byte),
        b'~' => is_of_counters(byte),
        b'^' => is_capital(byte),
        b'=' => byte == b'#',
        _ => mark == byte,
    }
}

/// Whether a byte may be in a place of a line of this form.
fn is_marked(form: &[u8], place: usize, byte: u8) -> bool
    ensures { result ≡ is_marked (slice_get form.now place) byte }
{
    match form.get(place) {
        Some(mark) => stands_for(*mark, byte),
        None => false,
    }
}

/// Whether a line of this form can begin with the text.
#[tactic(auto, unfolding(crate::specs::Forms::begins))]
pub(crate) fn begins(text: &str, form: &str) -> bool
    ensures { result ≡ begins text.now form.now }
{
    let form = form.as_bytes();
    text.as_bytes()
        .iter()
        .enumerate()
        .all(|(place, byte)| is_marked(form, place, *byte))
}

/// Whether the line of this answer begins with the text.
pub(crate) fn answer_begins(text: &str, port: PortName, answer: &LineAnswer) -> bool
    ensures { result ≡ begins text.now (line_text port answer.now) }
{
    begins(text, print_line(port, answer).as_str())
}

/// A form: a port or nothing, words, an object in two digits, and what comes then.
#[tactic(auto, unfolding(ccan_script::specs::PrintedLine::verb_text, ccan_script::specs::PrintedLine::two_digits))]
pub(crate) fn object_form(port: &str, words: &str, object: ObjectNo, tail: &str) -> PrintedLine
    requires { length port.now + length words.now + length tail.now ≤ 77 }
    ensures bytes { result.bytes ≡ verb_text (port.now ++ words.now) object ++ tail.now }
    ensures len { array_string_len result
        ≡ length port.now + length words.now + length tail.now + 3 }
{
    let number = object.get();
    let mut form = PrintedLine::new();
    form.push_str(port);
    form.push_str(words);
    form.push_str(" ");
    form.push((b'0' + number / 10) as char);
    form.push((b'0' + number % 10) as char);
    form.push_str(tail);
    form
}

/// The form of a line that shows an object's record.
#[tactic(auto, unfolding(crate::specs::Forms::shown_form))]
pub(crate) fn shown_begins(text: &str, port: &str, words: &str, object: ObjectNo) -> bool
    requires { length port.now + length words.now ≤ 30 }
    ensures { result ≡ begins text.now (shown_form (port.now ++ words.now) object) }
{
    begins(text, object_form(port, words, object, RECORD).as_str())
}

/// The name of a flag in printed lines.
#[tactic(auto, unfolding(ccan_script::specs::FlagName::flag_name))]
fn flag_word(flag: Flag) -> &'static str
    ensures text { result.now ≡ flag_name flag }
    ensures len { length result.now ≤ 6 }
{
    match flag {
        Flag::NewDat => "newdat",
        Flag::MsgLst => "msglst",
        Flag::IntPnd => "intpnd",
        Flag::TxRqst => "txrqst",
        Flag::MsgVal => "msgval",
    }
}

/// The form of a flag of all objects: a digit for four objects, and the end of the line.
fn word_form(profile: Profile) -> &'static str
    ensures text { result.now ≡ word_form profile }
    ensures len { length result.now ≤ 18 }
{
    match profile {
        Profile::One => " ########\n",
        Profile::Two => " ################\n",
    }
}

/// Whether the answer of a flag of all objects can begin so.
#[tactic(auto, unfolding(crate::specs::Forms::flags_form))]
pub(crate) fn flags_begin(text: &str, port: PortName, profile: Profile, flag: Flag) -> bool
    ensures { result ≡ begins text.now (flags_form port profile flag) }
{
    let mut form = PrintedLine::new();
    form.push_str(port_word(port));
    form.push_str(" flags ");
    form.push_str(flag_word(flag));
    form.push_str(word_form(profile));
    begins(text, form.as_str())
}

/// Whether the answer of a transfer of this object can begin so.
#[tactic(auto, unfolding(crate::specs::Forms::transfer_begins))]
fn transfer_begins(text: &str, port: PortName, object: ObjectNo) -> bool
    ensures { result ≡ transfer_begins text.now port object }
{
    shown_begins(text, port_word(port), " write", object)
        || shown_begins(text, port_word(port), " read", object)
        || answer_begins(text, port, &LineAnswer::Busy(object))
        || answer_begins(text, port, &LineAnswer::Spent(object))
}

/// Whether the answer of a wait for this flag can begin so.
#[tactic(auto, unfolding(crate::specs::Forms::until_begins))]
fn until_begins(text: &str, port: PortName, object: ObjectNo, flag: Flag) -> bool
    ensures { result ≡ until_begins text.now port object flag }
{
    answer_begins(text, port, &LineAnswer::Until(object, flag, true))
        || answer_begins(text, port, &LineAnswer::Until(object, flag, false))
}

/// Whether an interrupt value can begin so.
#[tactic(auto, unfolding(crate::specs::Forms::interrupt_begins))]
pub(crate) fn interrupt_begins(text: &str, port: PortName) -> bool
    ensures { result ≡ interrupt_begins text.now port }
{
    let mut form = PrintedLine::new();
    form.push_str(port_word(port));
    form.push_str(" interrupt ####\n");
    begins(text, form.as_str())
}

/// Whether the answer to a line of a host can begin so.
pub(crate) fn host_begins(text: &str, port: PortName, profile: Profile, line: &HostLine) -> bool
    ensures { result ≡ host_begins text.now port profile line.now }
{
    match line {
        HostLine::Transfer { request, .. } => {
            transfer_begins(text, port, ObjectNo::from_request(profile, *request))
        }
        HostLine::Until { object, flag, .. } => until_begins(text, port, *object, *flag),
        HostLine::Interrupt => interrupt_begins(text, port),
        HostLine::Flags(flag) => flags_begin(text, port, profile, *flag),
    }
}
