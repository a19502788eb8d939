use ccan_accept::Frame;
use ccan_object::{ObjectNo, Record};
use ccan_ram::PortName;

/// A record, before and after a step.
#[derive(Clone, Copy)]
pub struct Change {
    /// As the step began.
    pub before: Record,
    /// As the step ended.
    pub after: Record,
}

/// An object, before and after a step.
#[derive(Clone, Copy)]
pub struct ObjectChange {
    /// Its number.
    pub object: ObjectNo,
    /// Its record.
    pub change: Change,
}

/// A frame that was on the bus, and the node that sent it; the controller is node 0.
#[derive(Clone, Copy)]
pub struct SentFrame {
    /// The node.
    pub node: u8,
    /// The frame.
    pub frame: Frame,
}

/// One step that the page shows.
#[derive(Drop)]
pub struct Step {
    /// The port that makes it.
    pub port: PortName,
    /// The number of its line among those of its port, from 0.
    pub line: usize,
    /// What the port does, in a few words.
    pub deed: String,
    /// What it came to, a line each.
    pub told: String,
    /// The object that it is about.
    pub object: Option<ObjectNo>,
    /// The frame that was on the bus in it.
    pub frame: Option<SentFrame>,
    /// The interface registers of its port, if they are known.
    pub registers: Option<Change>,
    /// The objects that are shown with it, each before and after.
    pub objects: Vec<ObjectChange>,
}

/// An outcome of a script, or its one run in order.
#[derive(Drop)]
pub struct Outcome {
    /// Its number in the list of all outcomes, from 1; 0 for a run in order.
    pub number: usize,
    /// The lines that tell it apart from the others, or the objects at the end.
    pub lines: String,
    /// An order of whole lines that leads to it, if one is known.
    pub order: Option<Vec<PortName>>,
    /// The answers to lines that make no step and come before the first.
    pub opening: String,
    /// The steps of a history that leads to it; none for a run in order.
    pub history: Vec<Step>,
    /// The lines run whole in that order, a step each; none if no order is known.
    pub run: Vec<Step>,
}

/// A line of the script, as the script's text has it.
#[derive(Clone, Copy)]
pub struct LineText<'a> {
    /// The line of the text in which it begins, from 1.
    pub row: usize,
    /// Its bytes.
    pub text: &'a [u8],
}

/// What a page shows.
#[derive(Drop)]
pub struct Page<'a> {
    /// The name of the script's file; empty for standard input.
    pub file: &'a str,
    /// How many outcomes the script has in all; 0 if the page shows a run in order.
    pub count: usize,
    /// The lines of text that are the same in all outcomes.
    pub same: String,
    /// The lines of IF1.
    pub if1: Vec<LineText<'a>>,
    /// The lines of IF2.
    pub if2: Vec<LineText<'a>>,
    /// The lines of the bus.
    pub bus: Vec<LineText<'a>>,
    /// The outcomes that are shown.
    pub outcomes: Vec<Outcome>,
}
