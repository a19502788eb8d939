use crate::draw::column::Column;
use ccan_accept::Frame;
use ccan_object::ObjectNo;
use ccan_ram::PortName;

/// One row of a picture: what a port did in one step, or in some of one kind without a break.
#[derive(Drop)]
pub struct Row {
    /// The number of the step, from 1; of the first, if there are more. It is 0 for lines that come before the first step.
    pub number: usize,
    /// The lane.
    pub port: PortName,
    /// The frame that was on the bus in this step.
    pub frame: Option<Frame>,
    /// What is in the lane, below the frame: lines of at most [`crate::draw::layout::HOST_GLYPHS`] characters, on the bus of
    /// [`crate::draw::layout::BUS_GLYPHS`].
    pub label: String,
    /// The object whose flags a line leads to.
    pub object: Option<ObjectNo>,
    /// The words beside the step, a line each.
    pub words: String,
}

/// What a picture shows.
#[derive(Drop)]
pub struct Picture {
    /// The steps, from the top down.
    pub rows: Vec<Row>,
    /// The flags, four for each object that is shown, in the order of [`crate::draw::column::FLAGS`].
    pub columns: Vec<Column>,
}
