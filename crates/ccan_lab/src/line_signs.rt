//! The search for the first outcome that has some lines, along the graph of the words of all outcomes: no outcome is listed for it.
ghost use Rattle.std.specs.Prelude.{◌≡◌, ◌<◌, ◌≤◌, ◌-◌, ◌^◌, [], IfOk, IfSome, get_or, length, map, string_bytes};
ghost use Rattle.std.specs.List.{enumerate_from, list_any, range_with_len};
ghost use Rattle.ccan_line.specs.declared.line_answer.LineAnswer.TheVariants.{Init};
ghost use Rattle.ccan_line.specs.LineEnd.{unframed};
ghost use Rattle.ccan_outcomes.specs.OutcomeWords.{AreOfLines, endings_in};
ghost use Rattle.ccan_lab.specs.Answer.{first_with};
ghost use Rattle.ccan_lab.specs.LineSigns.{lines_of_letter, port_at};
ghost use Rattle.ccan_lab.specs.Rows.{begins_so, final_row, final_rows, has_line, told_frame};
ghost use Rattle.ccan_lab.specs.Sorted.{texts_of};

use crate::rows::{MAX_OBJECTS, begins_so, final_row, first_records, told_frame};
use ccan_language::{Letter, Signs};
use ccan_line::LineEnd;
use ccan_object::{ObjectNo, Record};
use ccan_outcomes::OutcomeWords;
use ccan_outcomes::letters::COLUMNS;
use ccan_ram::PortName;
use ccan_script::{LineAnswer, print_line};
use std::alloc::{AllocError, Global};

/// The beginnings of lines that are sought, as signs of the letters: each has its place in the list as its number.
#[derive(Clone, Copy)]
struct LineSigns<'a> {
    /// What the letters say.
    words: &'a OutcomeWords,
    /// The beginnings.
    begins: &'a [&'a str],
    /// The line of the frame of each end, by its number.
    frames: &'a [String],
    ghost frames_are: { map string_bytes frames.now ≡ map told_frame words.now.numbers.answers.keys },
}

/// The port to whose line the letter at this place is an answer. In the last column it says what the objects are at the end.
fn port_at(place: usize) -> Option<PortName>
    ensures { result ≡ port_at place }
{
    match place % COLUMNS {
        0 => Some(PortName::If1),
        1 => Some(PortName::If2),
        2 => Some(PortName::Bus),
        _ => None,
    }
}

/// The end of a line with this number.
fn end_named(words: &OutcomeWords, number: usize) -> LineEnd
    ensures { result ≡ get_or words.now.numbers.answers.keys number (unframed Init) }
{
    match words.numbers.answers.get_index(number) {
        Some(end) => end.get(),
        None => LineEnd::unframed(LineAnswer::Init),
    }
}

/// The line of the frame of each end, by its number, empty if it has none.
fn told_frames(alloc: Global, words: &OutcomeWords) -> Result<Vec<String>, AllocError>
    ensures { IfOk result (λ frames. map string_bytes frames.items
        ≡ map told_frame words.now.numbers.answers.keys) }
{
    let mut frames = Vec::new(alloc);
    for end in words.numbers.answers.as_slice() {
        frames.push(told_frame(alloc, &end.get())?)?;
    }
    Ok(frames)
}

/// Whether the line of the frame of the end with this number begins so, by those of all ends.
fn frame_begins(words: &OutcomeWords, frames: &[String], number: usize, begin: &str) -> bool
    requires { map string_bytes frames.now ≡ map told_frame words.now.numbers.answers.keys }
    ensures { result ≡ begins_so begin.now
        (told_frame (get_or words.now.numbers.answers.keys number (unframed Init))) }
{
    // What has no number has no frame; the proof reads here how many there are.
    let _ends = words.numbers.answers.as_slice();
    match frames.get(number) {
        Some(frame) => begins_so(frame.as_str(), begin),
        None => false,
    }
}

/// The records of the memory with this number.
fn records_named(words: &OutcomeWords, number: usize) -> &[Record]
    ensures { result.now ≡ get_or words.now.numbers.memories.keys number [] }
{
    match words.numbers.memories.get_index(number) {
        Some(records) => records.as_slice(),
        None => &[],
    }
}

/// Whether the line of one of these objects begins so. There are no more than a profile may have.
fn any_final_begins(records: &[Record], begin: &str) -> bool
    requires { length records.now ≤ MAX_OBJECTS }
    ensures { result ≡ list_any (λ object. begins_so begin.now (final_row object.0 object.1))
        (enumerate_from 1 records.now) }
{
    for (index, left) in records.iter().enumerate() {
        let object = ObjectNo::new(index as u8 + 1).unwrap();
        if begins_so(final_row(object, left).as_str(), begin) {
            return true;
        }
    }
    false
}

/// Whether the line of one of the objects at the end begins so.
pub fn finals_have_line(records: &[Record], begin: &str) -> bool
    ensures { result ≡ has_line begin.now (final_rows records.now) }
{
    any_final_begins(first_records(records), begin)
}

/// Whether a printed line of the letter begins so, by the lines of the frames of all ends.
fn letter_has_line(words: &OutcomeWords, frames: &[String], letter: Letter, begin: &str) -> bool
    requires { map string_bytes frames.now ≡ map told_frame words.now.numbers.answers.keys }
    ensures { result ≡ has_line begin.now (lines_of_letter words.now letter) }
{
    let number = letter.answer as usize;
    match port_at(letter.place as usize) {
        Some(port) => {
            let end = end_named(words, number);
            begins_so(print_line(port, &end.answer).as_str(), begin)
                || frame_begins(words, frames, number, begin)
        }
        None => finals_have_line(records_named(words, number), begin),
    }
}

impl<'a> Signs for LineSigns<'a> {
    ghost use Rattle.ccan_lab.specs.LineSigns.{tells_line};
    ghost use Rattle.ccan_lab.specs.Sorted.{texts_of};

    ghost bears = { λ sought. tells_line sought.words.now (texts_of sought.begins.now) };

    fn is_borne(&self, letter: Letter, sign: usize) -> bool {
        match self.begins.get(sign) {
            Some(begin) => letter_has_line(self.words, self.frames, letter, begin),
            None => false,
        }
    }
}

/// The numbers from 0, so many.
fn first_numbers(alloc: Global, count: usize) -> Result<Vec<usize>, AllocError>
    ensures { IfOk result (λ numbers. numbers.items ≡ range_with_len 0 count) }
{
    let mut numbers = Vec::new(alloc);
    for number in 0..count {
        numbers.push(number)?;
    }
    Ok(numbers)
}

/// The number, from 0, of the first outcome that has a line that begins so for each of these beginnings.
pub fn first_with(
    alloc: Global,
    words: &OutcomeWords,
    begins: &[&str],
) -> Result<Option<u64>, AllocError>
    requires { AreOfLines words.now }
    ensures first { IfOk result (λ found. found
        ≡ first_with (texts_of begins.now) (endings_in words.now)) }
    ensures few { IfOk result (λ found. IfSome found (λ number. number < 2 ^ 64 - 1)) }
{
    let sought = first_numbers(alloc, begins.len())?;
    let frames = told_frames(alloc, words)?;
    let frames = frames.as_slice();
    let signs = LineSigns {
        words,
        begins,
        frames,
    };
    ccan_language::first_with(&words.graph, alloc, words.start, &signs, sought.as_slice())
}
