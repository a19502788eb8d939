//! Where things are in a picture, in its units: a glyph of its texts is 7 wide, and a line 15 high.
use crate::draw::picture::Row;
use ccan_ram::PortName;
use std::alloc::{AllocError, Global};

/// The width that is kept for a glyph. The glyphs of common fonts of fixed width are some 6.6 wide at this size.
pub const GLYPH: u64 = 7;
/// The height of a line.
pub const LINE: u64 = 15;
/// The most glyphs of a line in the lane of a host.
pub const HOST_GLYPHS: usize = 18;
/// The most glyphs of a line in the lane of the bus.
pub const BUS_GLYPHS: usize = 36;
/// The most glyphs of a line of words.
pub const WORDS_GLYPHS: usize = 76;
/// Where the numbers of the steps are.
pub const NUMBER_X: u64 = 8;
/// Where the flags begin.
pub const FLAGS_X: u64 = 620;
/// The width that the flags of an object have.
pub const OBJECT_WIDTH: u64 = 64;
/// From one flag of an object to the next.
pub const BAR_PITCH: u64 = 13;
/// The width of a bar.
pub const BAR_WIDTH: u64 = 8;
/// The height of the headings of the lanes.
pub const HEADING_HEIGHT: u64 = 36;
/// Where the first headings are, below the legend.
pub const HEADING_Y: u64 = 30;
/// The headings are repeated before each row whose number, from 0, is a multiple of this.
pub const HEADING_ROWS: usize = 40;
/// From the top of a row to the line at which its bars begin and end.
pub const MARK: u64 = 11;

/// Where a lane begins.
pub fn lane_x(port: PortName) -> u64 {
    match port {
        PortName::If1 => 56,
        PortName::If2 => 200,
        PortName::Bus => 344,
    }
}

/// How wide a lane is.
pub fn lane_width(port: PortName) -> u64 {
    match port {
        PortName::If1 | PortName::If2 => 136,
        PortName::Bus => 264,
    }
}

/// How many objects have their flags in this many columns.
pub fn objects_in(columns: usize) -> u64 {
    columns as u64 / 4
}

/// Where the column of this place begins.
pub fn column_x(place: usize) -> u64 {
    let object = place as u64 / 4;
    let flag = place as u64 % 4;
    object
        .saturating_mul(OBJECT_WIDTH)
        .saturating_add(FLAGS_X + flag * BAR_PITCH)
}

/// Where the words begin, after the flags of so many objects.
pub fn words_x(objects: u64) -> u64 {
    objects
        .saturating_mul(OBJECT_WIDTH)
        .saturating_add(FLAGS_X + GLYPH)
}

/// The width of a picture of so many objects.
pub fn width_of(objects: u64) -> u64 {
    words_x(objects).saturating_add(WORDS_GLYPHS as u64 * GLYPH + GLYPH)
}

/// The lines that a text has; none if it is empty.
fn line_count(words: &str) -> u64 {
    words.lines().fold(0u64, |count, _| count.saturating_add(1))
}

/// The lines that a row has in its lane.
pub fn lane_lines(row: &Row) -> u64 {
    let frame = if row.frame.is_some() { 1 } else { 0 };
    line_count(row.label.as_str()).saturating_add(frame)
}

/// How high a row is.
pub fn row_height(row: &Row) -> u64 {
    let words = line_count(row.words.as_str());
    words
        .max(lane_lines(row))
        .saturating_mul(LINE)
        .saturating_add(9)
}

/// Whether the headings are repeated above the row of this number, from 0.
pub fn has_heading(row: usize) -> bool {
    row > 0 && row % HEADING_ROWS == 0
}

/// The top of each row, and at last the bottom of the picture.
pub fn tops_of(alloc: Global, rows: &[Row]) -> Result<Vec<u64>, AllocError> {
    let mut tops = Vec::new(alloc);
    let mut y = HEADING_Y + HEADING_HEIGHT;
    for (number, row) in rows.iter().enumerate() {
        if has_heading(number) {
            y = y.saturating_add(HEADING_HEIGHT);
        }
        tops.push(y)?;
        y = y.saturating_add(row_height(row));
    }
    tops.push(y)?;
    Ok(tops)
}

/// The top of a row, or the bottom of the picture for the number after the last.
pub fn top_of(tops: &[u64], row: usize) -> u64 {
    tops.get(row).copied().unwrap_or(0)
}
