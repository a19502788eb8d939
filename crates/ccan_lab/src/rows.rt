ghost use Rattle.std.specs.Prelude.{ℕ, ◌≡◌, ◌≤◌, ◌<◌, ◌++◌, ◌∷◌, [], true, false, drop, IfOk, OnOk, length, map, string_bytes, take, nat_lt};
ghost use Rattle.ccan_object.specs.Profile.{objects_in};
ghost use Rattle.ccan_object.specs.declared.profile.Profile.TheVariants.{Two};
ghost use Rattle.std.specs.List.{enumerate_from};
ghost use Rattle.ccan_lab.specs.Sorted.{texts_of};
ghost use Rattle.ccan_lab.specs.Summary.{AreInOrder};
ghost use Rattle.ccan_lab.specs.Rows.{begins_so, final_row, final_rows, fits, frame_line, frame_row};
ghost use Rattle.ccan_lab.specs.Rows.{line_at, row_text, rows_of, told_frame};

use ccan_accept::Frame;
use ccan_explain::push_frame;
use ccan_line::LineEnd;
use ccan_object::{ObjectNo, Record};
use ccan_outcomes::Ending;
use ccan_ram::PortName;
use ccan_script::{PrintedLine, print_final, print_line};
use std::alloc::{AllocError, Global};
use std::marker::Model;

/// The most objects that a profile has.
pub const MAX_OBJECTS: usize = 64;

/// Printed lines. Those of an outcome are each in its place: the answers of IF1, those of IF2, those of the bus, and a line for
/// each object, which is empty if the object is all zero. In the outcomes of one script the same thing is in the same place.
/// Below the line of a round is that of the frame that won the bus, if it is reported.
///
/// Contracts see the list of the lines' texts.
#[derive(Drop)]
pub struct Rows {
    lines: Vec<String>,
}

impl Model for Rows {
    ghost use Rattle.std.specs.Prelude.{ℕ, List, map, string_bytes};

    ghost Value = { List (List ℕ) };

    ghost view = { λ a. map string_bytes a.lines.items };
}

impl Rows {
    /// No line yet.
    pub fn new(alloc: Global) -> Rows
        ensures { result ≡ [] }
    {
        Rows {
            lines: Vec::new(alloc),
        }
    }

    /// Adds a line, or a line with the one below it.
    fn push(&mut self, row: String) -> Result<(), AllocError>
        ensures { OnOk result (self.new ≡ self.old ++ string_bytes row ∷ []) }
    {
        self.lines.push(row)?;
        Ok(())
    }

    /// Adds a line.
    pub fn push_line(&mut self, alloc: Global, line: &PrintedLine) -> Result<(), AllocError>
        ensures { OnOk result (self.new ≡ self.old ++ line.now.bytes ∷ []) }
    {
        self.push(String::from_str(alloc, line.as_str())?)
    }

    /// How many places there are.
    pub fn len(&self) -> usize
        ensures { result ≡ length self.now }
    {
        self.lines.len()
    }

    /// The line in a place, empty if there is none.
    #[tactic(auto, unfolding(crate::specs::Rows::line_at))]
    pub fn line(&self, place: usize) -> &str
        ensures { result.now ≡ line_at self.now place }
    {
        match self.lines.get(place) {
            Some(line) => line.as_str(),
            None => "",
        }
    }

    /// The lines, each once, in the order of their bytes.
    pub fn in_order<'a>(&'a self, alloc: Global) -> Result<Vec<&'a str>, AllocError>
        ensures { IfOk result (λ lines. AreInOrder self.now (texts_of lines.items)) }
    {
        let mut lines = texts(alloc, &self.lines)?;
        lines.sort()?;
        lines.dedup();
        Ok(lines)
    }
}

/// Whether a line begins with the bytes of a beginning up to its first `*`. A line that does fits if what is left of it does, when
/// bytes are taken off its front.
fn starts_literally(begin: &[u8], line: &[u8]) -> bool
    ensures needed { result ≡ false → fits begin.now line.now ≡ false }
    ensures earliest { result ≡ true → (count : ℕ) → fits begin.now (drop count line.now) ≡ true
        → fits begin.now line.now ≡ true }
{
    let Some((wanted, later)) = begin.split_first() else {
        return true;
    };
    if *wanted == b'*' {
        return true;
    }
    match line.split_first() {
        Some((byte, rest)) => *wanted == *byte && starts_literally(later, rest),
        None => false,
    }
}

/// Whether a line begins so, byte by byte, where `*` is any bytes, or none.
fn fits(begin: &[u8], line: &[u8]) -> bool
    ensures { result ≡ fits begin.now line.now }
{
    let Some((wanted, later)) = begin.split_first() else {
        return true;
    };
    if *wanted == b'*' {
        for start in 0..line.len() {
            let rest = &line[start..];
            if starts_literally(later, rest) {
                return fits(later, rest);
            }
        }
        return fits(later, &[]);
    }
    match line.split_first() {
        Some((byte, rest)) => *wanted == *byte && fits(later, rest),
        None => false,
    }
}

/// Whether a line is printed, and begins so.
pub fn begins_so(line: &str, begin: &str) -> bool
    ensures { result ≡ begins_so begin.now line.now }
{
    !line.is_empty() && fits(begin.as_bytes(), line.as_bytes())
}

/// The texts of these lines.
fn texts<'a>(alloc: Global, lines: &'a [String]) -> Result<Vec<&'a str>, AllocError>
    ensures { IfOk result (λ all. texts_of all.items ≡ map string_bytes lines.now) }
{
    let mut all = Vec::new(alloc);
    for line in lines {
        all.push(line.as_str())?;
    }
    Ok(all)
}

/// The line of an object, which is empty if the object is all zero.
pub fn final_row(object: ObjectNo, left: &Record) -> PrintedLine
    ensures { result.bytes ≡ final_row object left.now }
{
    match print_final(object, left) {
        Some(line) => line,
        None => PrintedLine::new(),
    }
}

/// Appends the line of a frame, in the compact form of can-utils: `can0 123#1122`.
fn push_frame_line(text: &mut String, frame: &Frame) -> Result<(), AllocError>
    ensures { OnOk result
        (string_bytes text.new ≡ string_bytes text.old ++ frame_line frame.now) }
{
    text.push_str("can0 ")?;
    push_frame(text, frame)?;
    text.push_str("\n")
}

/// The line of a frame.
fn frame_line(alloc: Global, frame: &Frame) -> Result<String, AllocError>
    ensures { IfOk result (λ text. string_bytes text ≡ frame_line frame.now) }
{
    let mut text = String::new(alloc);
    push_frame_line(&mut text, frame)?;
    Ok(text)
}

/// The line of the frame that won the bus, empty if there is none or it is not reported.
pub fn told_frame(alloc: Global, end: &LineEnd) -> Result<String, AllocError>
    ensures { IfOk result (λ text. string_bytes text ≡ told_frame end.now) }
{
    match &end.frame {
        Some(frame) => frame_line(alloc, frame),
        None => Ok(String::new(alloc)),
    }
}

/// Appends the frame that won the bus, if there is one, below the line of its round.
fn push_frame_row(text: &mut String, frame: &Option<Frame>) -> Result<(), AllocError>
    ensures { OnOk result
        (string_bytes text.new ≡ string_bytes text.old ++ frame_row frame.now) }
{
    if let Some(frame) = frame {
        text.push_str("    ")?;
        push_frame_line(text, frame)?;
    }
    Ok(())
}

/// Appends how a line of a port ended, as it is printed: its answer, and below it the frame that won the bus, if that is
/// reported.
pub fn push_row(text: &mut String, port: PortName, end: &LineEnd) -> Result<(), AllocError>
    ensures { OnOk result
        (string_bytes text.new ≡ string_bytes text.old ++ row_text port end.now) }
{
    text.push_str(print_line(port, &end.answer).as_str())?;
    push_frame_row(text, &end.frame)
}

/// How a line of a port ended, as it is printed.
pub fn row_text(alloc: Global, port: PortName, end: &LineEnd) -> Result<String, AllocError>
    ensures { IfOk result (λ text. string_bytes text ≡ row_text port end.now) }
{
    let mut text = String::new(alloc);
    push_row(&mut text, port, end)?;
    Ok(text)
}

/// Adds how each of these lines of a port ended.
pub fn add_ends(
    alloc: Global,
    rows: &mut Rows,
    port: PortName,
    ends: &[LineEnd],
) -> Result<(), AllocError>
    ensures { OnOk result (rows.new ≡ rows.old ++ map (row_text port) ends.now) }
{
    for end in ends {
        rows.push(row_text(alloc, port, end)?)?;
    }
    Ok(())
}

/// Adds a line for each object. There are no more than a profile may have.
fn add_finals(alloc: Global, rows: &mut Rows, records: &[Record]) -> Result<(), AllocError>
    requires { length records.now ≤ MAX_OBJECTS }
    ensures { OnOk result (rows.new ≡ rows.old
        ++ map (λ object. final_row object.0 object.1) (enumerate_from 1 records.now)) }
{
    for (index, left) in records.iter().enumerate() {
        let object = ObjectNo::new(index as u8 + 1).unwrap();
        rows.push_line(alloc, &final_row(object, left))?;
    }
    Ok(())
}

/// The first records, as many as a profile may have.
pub fn first_records(records: &[Record]) -> &[Record]
    ensures records { result.now ≡ take (objects_in Two) records.now }
    ensures length { length result.now ≤ MAX_OBJECTS }
{
    if records.len() <= MAX_OBJECTS {
        records
    } else {
        &records[..MAX_OBJECTS]
    }
}

/// The lines of an outcome.
#[tactic(auto, unfolding(crate::specs::Rows::rows_of, crate::specs::Rows::final_rows))]
pub fn rows_of(alloc: Global, ending: &Ending) -> Result<Rows, AllocError>
    ensures { IfOk result (λ rows. rows ≡ rows_of ending.now) }
{
    let mut rows = Rows::new(alloc);
    add_ends(alloc, &mut rows, PortName::If1, ending.if1.as_slice())?;
    add_ends(alloc, &mut rows, PortName::If2, ending.if2.as_slice())?;
    add_ends(alloc, &mut rows, PortName::Bus, ending.bus.as_slice())?;
    add_finals(alloc, &mut rows, first_records(ending.records.as_slice()))?;
    Ok(rows)
}

/// The lines of all these outcomes.
pub fn all_rows(alloc: Global, endings: &[Ending]) -> Result<Vec<Rows>, AllocError>
    ensures { IfOk result (λ all. all.items ≡ map rows_of endings.now) }
{
    let mut all = Vec::new(alloc);
    for ending in endings {
        all.push(rows_of(alloc, ending)?)?;
    }
    Ok(all)
}
