//! The text of a picture in SVG.
ghost use Rattle.std.specs.Prelude.{length};

use crate::draw::column::Column;
use crate::draw::elements::{Area, push_area, push_words};
use crate::draw::flag_bars::{FlagBar, bars_of};
use crate::draw::head::{flag_word, push_headings, push_legend, push_opening};
use crate::draw::layout::{
    BAR_WIDTH, FLAGS_X, GLYPH, HEADING_HEIGHT, HEADING_Y, LINE, MARK, NUMBER_X, OBJECT_WIDTH,
    column_x, has_heading, lane_lines, lane_width, lane_x, objects_in, row_height, top_of, tops_of,
    width_of, words_x,
};
use crate::draw::picture::{Picture, Row};
use crate::{push_decimal, push_hex, push_id};
use ccan_accept::Frame;
use ccan_object::ObjectNo;
use ccan_ram::PortName;
use std::alloc::{AllocError, Global};

/// The class of a lane.
fn lane_class(port: PortName) -> &'static str {
    match port {
        PortName::If1 => "if1",
        PortName::If2 => "if2",
        PortName::Bus => "bus",
    }
}

/// Appends each line of a text below the one before, the first at this height.
fn push_lines(
    text: &mut String,
    class: &str,
    x: u64,
    first: u64,
    words: &str,
) -> Result<(), AllocError> {
    let mut y = first;
    for line in words.lines() {
        push_words(text, class, x, y, line)?;
        y = y.saturating_add(LINE);
    }
    Ok(())
}

/// What is in the second field of a frame: its data, or that it asks for them, and its length code if that is above 8.
fn data_text(alloc: Global, frame: &Frame) -> Result<String, AllocError> {
    let mut text = String::new(alloc);
    let length = frame.dlc();
    if frame.rtr() {
        text.push_str("remote, DLC ")?;
        push_decimal(&mut text, u64::from(length.get()))?;
        return Ok(text);
    }
    let bytes = frame.bytes();
    let count = length.byte_count();
    for byte in &bytes[..count] {
        push_hex(&mut text, 2, u64::from(*byte))?;
        text.push_str(" ")?;
    }
    if length.get() > 8 {
        text.push_str("_")?;
        push_hex(&mut text, 1, u64::from(length.get()))?;
    }
    if count == 0 {
        text.push_str("no data")?;
    }
    Ok(text)
}

/// Appends a field of a frame, and gives where it ends.
fn push_field(
    text: &mut String,
    class: &str,
    x: u64,
    y: u64,
    words: &str,
) -> Result<u64, AllocError> {
    let width = (words.len() as u64).saturating_mul(GLYPH).saturating_add(6);
    let field = Area {
        x,
        y: y.saturating_add(5),
        width,
        height: 15,
    };
    push_area(text, class, &field)?;
    push_words(
        text,
        "frame",
        x.saturating_add(3),
        y.saturating_add(16),
        words,
    )?;
    Ok(x.saturating_add(width))
}

/// Appends a frame as it is on a bus: its identifier, and then its data.
fn push_frame(alloc: Global, text: &mut String, frame: &Frame, y: u64) -> Result<(), AllocError> {
    let mut id = String::new(alloc);
    push_id(&mut id, frame.id(), frame.xtd())?;
    let data = data_text(alloc, frame)?;
    let x = lane_x(PortName::Bus).saturating_add(4);
    let next = push_field(text, "id", x, y, id.as_str())?;
    push_field(text, "data", next, y, data.as_str().trim_end())?;
    Ok(())
}

/// Appends what is in the lane of a row.
fn push_lane(alloc: Global, text: &mut String, row: &Row, y: u64) -> Result<(), AllocError> {
    let x = lane_x(row.port);
    let place = Area {
        x,
        y: y.saturating_add(2),
        width: lane_width(row.port),
        height: lane_lines(row).saturating_mul(LINE).saturating_add(5),
    };
    push_area(text, lane_class(row.port), &place)?;
    let mut line = y.saturating_add(16);
    if let Some(frame) = &row.frame {
        push_frame(alloc, text, frame, y)?;
        line = line.saturating_add(LINE);
    }
    push_lines(text, "label", x.saturating_add(5), line, row.label.as_str())
}

/// Appends a row: its number, what its port did, and the words.
fn push_row(
    alloc: Global,
    text: &mut String,
    row: &Row,
    words: u64,
    y: u64,
) -> Result<(), AllocError> {
    text.push_str("<g class=\"step\">\n")?;
    let mut name = String::new(alloc);
    push_decimal(&mut name, row.number as u64)?;
    let line = y.saturating_add(16);
    push_words(text, "number", NUMBER_X, line, name.as_str())?;
    push_lane(alloc, text, row, y)?;
    push_lines(text, "words", words, line, row.words.as_str())?;
    text.push_str("</g>\n")
}

/// Where the flags of an object end.
fn reach_end(columns: &[Column], object: ObjectNo) -> Option<u64> {
    let place = columns.iter().position(|column| column.object == object)?;
    Some(column_x(place))
}

/// Appends the ground of a row: a stripe below every other one, and a line that leads to the flags of its object.
fn push_ground(
    text: &mut String,
    columns: &[Column],
    row: &Row,
    number: usize,
    y: u64,
    bottom: u64,
) -> Result<(), AllocError> {
    if number % 2 == 1 {
        let stripe = Area {
            x: 0,
            y,
            width: width_of(objects_in(columns.len())),
            height: bottom.saturating_sub(y),
        };
        push_area(text, "stripe", &stripe)?;
    }
    let Some(object) = row.object else {
        return Ok(());
    };
    let Some(end) = reach_end(columns, object) else {
        return Ok(());
    };
    let from = lane_x(row.port).saturating_add(lane_width(row.port));
    let reach = Area {
        x: from,
        y: y.saturating_add(MARK),
        width: end.saturating_add(OBJECT_WIDTH - 16).saturating_sub(from),
        height: 1,
    };
    push_area(text, "reach", &reach)
}

/// Where a bar that ends at this row ends: at the row's mark, or at the bottom of the picture.
fn bar_end(tops: &[u64], row: usize, rows: usize) -> u64 {
    if row < rows {
        top_of(tops, row).saturating_add(MARK)
    } else {
        top_of(tops, rows)
    }
}

/// Where a bar is in a picture of so many rows.
fn bar_area(tops: &[u64], drawn: &FlagBar, rows: usize) -> Area {
    let y = top_of(tops, drawn.bar.from).saturating_add(MARK);
    Area {
        x: column_x(drawn.place),
        y,
        width: BAR_WIDTH,
        height: bar_end(tops, drawn.bar.to, rows).saturating_sub(y),
    }
}

/// Appends bars.
fn push_bars(
    text: &mut String,
    tops: &[u64],
    bars: &[FlagBar],
    rows: usize,
) -> Result<(), AllocError> {
    for drawn in bars {
        push_area(text, flag_word(drawn.flag), &bar_area(tops, drawn, rows))?;
    }
    Ok(())
}

/// Appends what is below the rows' texts: their ground, the bars, and the headings.
fn push_below(
    alloc: Global,
    text: &mut String,
    picture: &Picture,
    tops: &[u64],
) -> Result<(), AllocError> {
    let columns = picture.columns.as_slice();
    for (number, row) in picture.rows.iter().enumerate() {
        let y = top_of(tops, number);
        let bottom = y.saturating_add(row_height(row));
        push_ground(text, columns, row, number, y, bottom)?;
    }
    let bars = bars_of(alloc, columns)?;
    push_bars(text, tops, bars.as_slice(), picture.rows.len())?;
    push_headings(alloc, text, columns, HEADING_Y)?;
    for number in 0..picture.rows.len() {
        if has_heading(number) {
            let y = top_of(tops, number).saturating_sub(HEADING_HEIGHT);
            push_headings(alloc, text, columns, y)?;
        }
    }
    Ok(())
}

/// The text of a picture: an SVG of one page, without scripts or fonts from elsewhere, in light and dark as its reader has it.
pub fn svg_of(alloc: Global, picture: &Picture) -> Result<String, AllocError> {
    let tops = tops_of(alloc, picture.rows.as_slice())?;
    let tops = tops.as_slice();
    let objects = objects_in(picture.columns.len());
    let mut text = String::new(alloc);
    let height = top_of(tops, picture.rows.len()).saturating_add(GLYPH);
    push_opening(&mut text, objects, height)?;
    push_legend(&mut text)?;
    push_below(alloc, &mut text, picture, tops)?;
    let words = words_x(objects);
    for (number, row) in picture.rows.iter().enumerate() {
        push_row(alloc, &mut text, row, words, top_of(tops, number))?;
    }
    text.push_str("</svg>\n")?;
    Ok(text)
}
